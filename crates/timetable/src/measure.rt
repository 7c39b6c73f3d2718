// Measure: the tensions, the turns and the cost of a given timetable.
ghost use Rattle.network.specs.Refusals.{answered};
ghost use Rattle.network.specs.Rows.{arc_rows_at, arc_rows_left};
ghost use Rattle.timetable.specs.Measure.{Measured};

use network::rule::short;
use network::{Code, Network, Refused};

// The tensions, the turns and the cost of this timetable, whether or not its arcs are met.
pub fn measure(
    network: &Network,
    times: &[u32],
    tensions: &mut [i32],
    turns: &mut [i32],
) -> Result<u64, Refused>
    ensures { Measured network.now times.now (arc_rows_at tensions turns) (arc_rows_left tensions turns) (answered result) }
{
    let network = network.judge(network.arcs())?;
    let timed = network.timed(times)?;
    if short(tensions.len(), turns.len(), timed.network.rows.arcs()) {
        return Err(Refused::at(Code::Room, 0));
    }
    if let Some(event) = timed.first_late() {
        return Err(Refused::at(Code::Late, event));
    }
    Ok(timed.note_arcs(tensions, turns))
}
