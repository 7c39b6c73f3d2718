// Solve: the smallest feasible timetable of a network.
ghost use Rattle.network.specs.Refusals.{answered};
ghost use Rattle.network.specs.Rows.{arc_rows_at, arc_rows_left};
ghost use Rattle.timetable.specs.Solve.{Solved};

use network::rule::{note_times, short};
use network::{Code, MOST_EVENTS, Network, Refused, Timed};

// The smallest feasible timetable, its tensions, its turns and its cost, or code 10 where there is none. The lent rows are written only where there is one.
pub fn solve(
    network: &Network,
    times: &mut [u32],
    tensions: &mut [i32],
    turns: &mut [i32],
) -> Result<u64, Refused>
    ensures { Solved network.now times.old (arc_rows_at tensions turns) times.new (arc_rows_left tensions turns) (answered result) }
{
    let network = network.judge(network.arcs())?;
    let count = network.rows.events();
    if times.len() < count || short(tensions.len(), turns.len(), network.rows.arcs()) {
        return Err(Refused::at(Code::Room, 0));
    }
    let mut buffer = [0u32; MOST_EVENTS];
    let row = &mut buffer[..count];
    if !closure::smallest(&network, row) {
        return Err(Refused::at(Code::Infeasible, 0));
    }
    note_times(row, times);
    let timed = Timed {
        network,
        times: row,
    };
    Ok(timed.note_arcs(tensions, turns))
}
