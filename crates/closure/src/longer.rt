// The longer network: for each event, the spans to later ones as arcs, and then the network's own arcs to later ones. All arcs are sorted by their earlier
// end, so that an event's time is ruled out first by the arc to the earliest event that does so, and a failed placing blames the earliest.
ghost use Rattle.search.specs.Lent.{lent};
ghost use Rattle.closure.specs.Longer.{PairAsks, RowAsks, Grows, OwnAsks, Picked, AppendAsks, Whole};

use crate::table::{EVENTS, Table, place};
use search::{Bar, Reduced};

// How many arcs a network has of its own at most.
pub const ARCS: usize = 256;

// How many pairs of two events there are at most.
pub const PAIRS: usize = EVENTS * (EVENTS - 1) / 2;

// Appends the span of i and j, of which i is the earlier, where it does not hold every difference: the number of arcs then. So far `own` of them are the
// network's own. The count goes beside the row: a struct of both is no plainer, for it would hold the caller's row, and each step would have to promise
// that it still does.
fn append(table: &Table, longer: &mut [Bar], i: usize, j: usize, own: usize, count: usize) -> usize
    requires { PairAsks table.now longer.old i j own count }
    ensures { Grows (lent table.now.network) longer.new i own result }
{
    // 64 events have no more pairs: this test stands in place of a proof that counts them.
    if PAIRS + own <= count {
        return count;
    }
    let span = table.spans[place(i, j)];
    let gap = span.gap;
    let width = span.width;
    if gap <= width + 1 {
        return count;
    }
    let shift = (span.low + width + 1) % gap;
    let bar = Bar {
        near: i as u32,
        last: j as u32,
        shift: u32::from(shift),
        run: u32::from(gap - 1 - width),
        gap: u32::from(gap),
    };
    longer[count] = bar;
    count + 1
}

// Appends the spans of i and every later event.
fn append_row(table: &Table, longer: &mut [Bar], i: usize, own: usize, first: usize) -> usize
    requires { RowAsks table.now longer.old i own first }
    ensures { Grows (lent table.now.network) longer.new i own result }
{
    let mut count = first;
    for j in i + 1..table.network.periods.len() {
        count = append(table, longer, i, j, own, count);
    }
    count
}

// Appends the network's own arcs whose earlier end is i.
fn append_own(network: &Reduced, longer: &mut [Bar], i: usize, first: usize) -> usize
    requires { OwnAsks (lent network.now) longer.old i first }
    ensures { Picked (lent network.now) longer.new i first result }
{
    let mut count = first;
    for bar in network.bars {
        if bar.near as usize == i {
            longer[count] = *bar;
            count += 1;
        }
    }
    count
}

// Appends all arcs, sorted by their earlier end: how many.
pub fn append_all(table: &Table, longer: &mut [Bar]) -> usize
    requires { AppendAsks table.now longer.old }
    ensures { Whole (lent table.now.network) longer.new result }
{
    let network = table.network;
    let mut own = 0;
    let mut count = 0;
    for i in 0..network.periods.len() {
        let spans = append_row(table, longer, i, own, count);
        count = append_own(&network, longer, i, spans);
        own += count - spans;
    }
    count
}
