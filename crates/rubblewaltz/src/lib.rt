// The public calls, exported to C: each lends its rows as a network, and carries the contract of the call behind it.
#![tactic(auto)]

ghost use Rattle.std.specs.Prelude.{◌≡◌};
ghost use Rattle.network.specs.Network.{net, net_at};
ghost use Rattle.network.specs.Rows.{arc_rows_at, arc_rows_left};
ghost use Rattle.timetable.specs.Check.{Checked};
ghost use Rattle.timetable.specs.Measure.{Measured};
ghost use Rattle.timetable.specs.PrintText.{Printed};
ghost use Rattle.timetable.specs.ReadText.{Read};
ghost use Rattle.timetable.specs.Rebuild.{Rebuilt};
ghost use Rattle.timetable.specs.Solve.{Solved};

use network::{Answer, Filled, Network};

// Six rows as a network.
fn lent<'a>(
    periods: &'a [u32],
    tail: &'a [u32],
    head: &'a [u32],
    lower: &'a [i32],
    upper: &'a [i32],
    weight: &'a [u32],
) -> Network<'a>
    ensures { result ≡ net_at periods tail head lower upper weight }
{
    Network {
        periods,
        tails: tail,
        heads: head,
        lowers: lower,
        uppers: upper,
        weights: weight,
    }
}

// Is a timetable right, and what does it cost?
#[unsafe(no_mangle)]
pub extern "C" fn rubblewaltz_check(
    periods: &[u32],
    tail: &[u32],
    head: &[u32],
    lower: &[i32],
    upper: &[i32],
    weight: &[u32],
    times: &[u32],
) -> Answer
    ensures { Checked (net_at periods tail head lower upper weight) times.now result }
{
    let network = lent(periods, tail, head, lower, upper, weight);
    Answer::from(timetable::check::check(&network, times))
}

// What are the tensions and turns of a timetable, and what does it cost?
#[unsafe(no_mangle)]
pub extern "C" fn rubblewaltz_measure(
    periods: &[u32],
    tail: &[u32],
    head: &[u32],
    lower: &[i32],
    upper: &[i32],
    weight: &[u32],
    times: &[u32],
    tensions: &mut [i32],
    turns: &mut [i32],
) -> Answer
    ensures { Measured (net_at periods tail head lower upper weight) times.now (arc_rows_at tensions turns) (arc_rows_left tensions turns) result }
{
    let network = lent(periods, tail, head, lower, upper, weight);
    Answer::from(timetable::measure::measure(&network, times, tensions, turns))
}

// The smallest feasible timetable, with its tensions, turns and cost.
#[unsafe(no_mangle)]
pub extern "C" fn rubblewaltz_solve(
    periods: &[u32],
    tail: &[u32],
    head: &[u32],
    lower: &[i32],
    upper: &[i32],
    weight: &[u32],
    times: &mut [u32],
    tensions: &mut [i32],
    turns: &mut [i32],
) -> Answer
    ensures { Solved (net_at periods tail head lower upper weight) times.old (arc_rows_at tensions turns) times.new (arc_rows_left tensions turns) result }
{
    let network = lent(periods, tail, head, lower, upper, weight);
    Answer::from(timetable::solve::solve(&network, times, tensions, turns))
}

// The timetable with these tensions, and its cost.
#[unsafe(no_mangle)]
pub extern "C" fn rubblewaltz_rebuild(
    periods: &[u32],
    tail: &[u32],
    head: &[u32],
    lower: &[i32],
    upper: &[i32],
    weight: &[u32],
    tensions: &[i32],
    times: &mut [u32],
) -> Answer
    ensures { Rebuilt (net_at periods tail head lower upper weight) tensions.now times.old times.new result }
{
    let network = lent(periods, tail, head, lower, upper, weight);
    Answer::from(timetable::rebuild::rebuild(&network, tensions, times))
}

// A network's rows from its two texts.
#[unsafe(no_mangle)]
pub extern "C" fn rubblewaltz_read(
    events: &[u8],
    arcs: &[u8],
    periods: &mut [u32],
    tail: &mut [u32],
    head: &mut [u32],
    lower: &mut [i32],
    upper: &mut [i32],
    weight: &mut [u32],
) -> Filled
    ensures { Read events.now arcs.now (net periods.old tail.old head.old lower.old upper.old weight.old)
        (net periods.new tail.new head.new lower.new upper.new weight.new) result }
{
    Filled::from(timetable::read_text::read_text(
        events, arcs, periods, tail, head, lower, upper, weight,
    ))
}

// A network's two texts from its rows.
#[unsafe(no_mangle)]
pub extern "C" fn rubblewaltz_print(
    periods: &[u32],
    tail: &[u32],
    head: &[u32],
    lower: &[i32],
    upper: &[i32],
    weight: &[u32],
    events: &mut [u8],
    arcs: &mut [u8],
) -> Filled
    ensures { Printed (net_at periods tail head lower upper weight) events.old arcs.old events.new arcs.new result }
{
    let network = lent(periods, tail, head, lower, upper, weight);
    Filled::from(timetable::print_text::print_text(&network, events, arcs))
}
