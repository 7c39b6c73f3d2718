// The times that an event can't have beside those of earlier events: marked once in a row, with the earlier events to blame for it; and the walk along it.
ghost use Rattle.std.specs.Prelude.{◌≤◌, min, length};
ghost use Rattle.search.specs.Lent.{lent};
ghost use Rattle.search.specs.Marks.{RunMarked, RunsAsk, RunsMarked, ArcAsks, ArcMarked, EventAsks, AllMarked, FirstFree, SomeFree, Walk};

use crate::thread::ArcThreads;
use crate::{Bar, EVENTS};

// How many places are read at once.
const BLOCK: usize = 64;

// Marks the places from `from` up to below `to`, as far as the row goes: is one of the marks new?
fn mark_run(row: &mut [bool], from: usize, to: usize) -> bool
    requires { from ≤ min to (length row.old) }
    ensures { RunMarked from to row.old row.new result }
{
    let end = to.min(row.len());
    let run = &mut row[from..end];
    let mut fresh = false;
    for place in run.iter_mut() {
        fresh |= !*place;
        *place = true;
    }
    fresh
}

// Marks the run that begins at `start`, those of the laps after it, and what the lap before leaves of its own in the row.
fn mark_runs(row: &mut [bool], gap: usize, start: usize, run: usize) -> bool
    requires { RunsAsk gap start run row.old }
    ensures { RunsMarked gap start run row.old row.new result }
{
    let rest = (start + run).saturating_sub(gap);
    let mut fresh = false;
    for from in (start..row.len()).step_by(gap) {
        fresh |= mark_run(row, from, from + run);
    }
    fresh | mark_run(row, 0, rest)
}

// Marks the times that one arc rules out at its later end, by one division.
fn mark_arc(bar: &Bar, times: &[u32], row: &mut [bool]) -> bool
    requires { ArcAsks bar.now times.now row.old }
    ensures { ArcMarked bar.now times.now row.old row.new result }
{
    let gap = bar.gap;
    let start = (times[bar.near as usize] + bar.shift) % gap;
    mark_runs(row, gap as usize, start as usize, bar.run as usize)
}

// Marks the times that the arcs between event k and earlier ones rule out, in a row without marks, and blames the earlier end of each arc with a new mark.
pub fn mark_event(
    threads: &ArcThreads,
    times: &[u32],
    k: usize,
    row: &mut [bool],
    blame: &mut [bool; EVENTS],
)
    requires { EventAsks (lent threads.now.network) times.now k row.old }
    ensures { AllMarked (lent threads.now.network) times.now k row.new blame.new }
{
    blame.fill(false);
    let mut next = threads.firsts[k];
    // The loop follows what each link gives, and counts no index.
    while let Some(link) = next {
        let arc = usize::from(link);
        let bar = &threads.network.bars[arc];
        let fresh = mark_arc(bar, times, row);
        blame[bar.near as usize] |= fresh;
        next = threads.nexts[arc];
    }
}

// Is one of these places free? They are read with no branch in between, and so many at once.
fn some_free(places: &[bool]) -> bool
    ensures { SomeFree places.now result }
{
    let mut free = false;
    for place in places {
        free |= !*place;
    }
    free
}

// Passes over marked places, a block at a time.
fn skip(row: &[bool], from: usize) -> usize
    requires { from ≤ length row.now }
    ensures { Walk row.now from result }
{
    for start in (from..row.len()).step_by(BLOCK) {
        if row.len() - start < BLOCK || some_free(&row[start..start + BLOCK]) {
            return start;
        }
    }
    row.len()
}

// The next possible time, from `from` on.
pub fn next_time(row: &[bool], from: usize) -> Option<usize>
    requires { from ≤ length row.now }
    ensures { FirstFree row.now from result }
{
    let start = skip(row, from);
    let passed = row[start..].iter().position(|marked| !*marked)?;
    Some(start + passed)
}
