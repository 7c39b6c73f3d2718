// The table of spans, and its closure: each pair of events is cut down through every third one.
ghost use Rattle.std.specs.Prelude.{◌≡◌, ◌+◌, ◌%◌, ◌<◌};
ghost use Rattle.numbers.specs.Divisor.{IsGcd};
ghost use Rattle.numbers.specs.Row.{at};
ghost use Rattle.search.specs.Lent.{lent};
ghost use Rattle.closure.specs.Tables.{spot, OpenAsks, GapAsks, WidenAsks, Widening, Opened, Spanned};

use crate::span::Span;
use search::Reduced;

// How many events the table has room for.
pub const EVENTS: usize = 64;

// How many places the table has: one for each two events.
pub const PLACES: usize = EVENTS * EVENTS;

// What a step leaves of the spans: all as they were, or some less wide.
#[derive(Clone, Copy, PartialEq, Eq, PartialOrd, Ord, Debug)]
pub enum Change {
    Same,
    Narrower,
}

// For each two events of a network a span that holds the difference of their times in every fitting timetable. The spans stand in one row: in a row of
// rows the proof of a span that is written (`narrow`, `widen_row`) did not close.
#[derive(Drop)]
pub struct Table<'a> {
    pub network: Reduced<'a>,
    pub spans: &'a mut [Span],
    ghost spanned: { Spanned (lent network) spans.now },
}

// The place of two events.
pub fn place(i: usize, j: usize) -> usize
    requires { (i < EVENTS) × (j < EVENTS) }
    ensures { result ≡ spot i j }
{
    EVENTS * i + j
}

// The gap of two events: that of j and i, where it stands already. There is no `Table` yet, so that periods and spans stand apart.
fn gap_of(periods: &[u32], spans: &[Span], i: usize, j: usize) -> u32
    requires { GapAsks periods.now spans.now i j }
    ensures { IsGcd (at periods.now i) (at periods.now j) result }
{
    if j < i {
        return u32::from(spans[place(j, i)].gap);
    }
    numbers::gcd(periods[i], periods[j])
}

// Gives event i and each other their gap, and a span that holds every difference. There is no `Table` yet here either.
fn widen_row(periods: &[u32], spans: &mut [Span], i: usize)
    requires { WidenAsks periods.now spans.old i }
    ensures { Widening periods.now spans.new (i + 1) 0 }
{
    for j in 0..periods.len() {
        let gap = gap_of(periods, spans, i, j) as u16;
        let width = gap - 1;
        let wide = Span { low: 0, width, gap };
        spans[place(i, j)] = wide;
    }
}

// What a gap leaves of a period: nothing of itself, without a division.
fn rest(period: u32, gap: u32) -> u32
    requires { 0 < gap }
    ensures { result ≡ period % gap }
{
    if period == gap {
        return 0;
    }
    period % gap
}

impl<'a> Table<'a> {
    ghost use Rattle.closure.specs.Steps.{NarrowAsks, Narrowed, Step, Tighter, events_of};

    // Opens the table of a network: each two events get their gap, and a span that holds every difference.
    pub fn widen(network: Reduced<'a>, spans: &'a mut [Span]) -> Table<'a>
        requires { OpenAsks network.periods.now spans.old }
        ensures same_network { result.network ≡ network.entry }
        ensures opened { Opened network.entry.periods.now result.spans.now }
    {
        for i in 0..network.periods.len() {
            widen_row(network.periods, spans, i);
        }
        Table { network, spans }
    }

    // Narrows the span of i and j by another, or none where nothing is left.
    pub fn narrow(&mut self, i: usize, j: usize, by: Span) -> Option<Change>
        requires { NarrowAsks self.old i j by }
        ensures step { Step self.old self.new result }
        ensures narrowed { Narrowed self.old self.new i j by result }
    {
        let there = place(i, j);
        let back = place(j, i);
        let old = self.spans[there];
        let span = old.cut(by)?;
        if old.width <= span.width {
            return Some(Change::Same);
        }
        self.spans[there] = span;
        self.spans[back] = span.turned();
        Some(Change::Narrower)
    }

    // Narrows the span of i and j by those of i and k and of k and j, one after the other.
    fn via(&mut self, i: usize, k: usize, j: usize) -> Option<Change>
        requires { (i < events_of self.old) × (k < events_of self.old) × (j < events_of self.old) }
        ensures step { Step self.old self.new result }
        ensures tighter { Tighter self.old self.new result }
    {
        let first = self.spans[place(i, k)];
        let second = self.spans[place(k, j)];
        let gap = self.spans[place(i, j)].gap;
        let width = first.width + second.width;
        if gap <= width {
            return Some(Change::Same);
        }
        if rest(self.network.periods[k], u32::from(gap)) != 0 {
            return Some(Change::Same);
        }
        let low = (first.low + second.low) % gap;
        let both = Span { low, width, gap };
        self.narrow(i, j, both)
    }

    // Narrows the spans of i and every later event through k. The three loops are alike, but each has its own range and step: one over a closure, with a
    // contract for the step, would be no plainer.
    fn close_row(&mut self, i: usize, k: usize) -> Option<Change>
        requires { (i < events_of self.old) × (k < events_of self.old) }
        ensures step { Step self.old self.new result }
        ensures tighter { Tighter self.old self.new result }
    {
        let mut change = Change::Same;
        for j in i + 1..self.network.periods.len() {
            let step = self.via(i, k, j)?;
            change = change.max(step);
        }
        Some(change)
    }

    // Narrows all spans through k.
    fn close_through(&mut self, k: usize) -> Option<Change>
        requires { k < events_of self.old }
        ensures step { Step self.old self.new result }
        ensures tighter { Tighter self.old self.new result }
    {
        let mut change = Change::Same;
        for i in 0..self.network.periods.len() {
            let step = self.close_row(i, k)?;
            change = change.max(step);
        }
        Some(change)
    }

    // Narrows all spans through every event.
    pub fn close_round(&mut self) -> Option<Change>
        ensures step { Step self.old self.new result }
        ensures tighter { Tighter self.old self.new result }
    {
        let mut change = Change::Same;
        for k in 0..self.network.periods.len() {
            let step = self.close_through(k)?;
            change = change.max(step);
        }
        Some(change)
    }
}
