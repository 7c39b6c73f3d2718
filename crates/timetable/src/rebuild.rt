// Rebuild: tensions to a timetable.
ghost use Rattle.network.specs.Refusals.{answered};
ghost use Rattle.timetable.specs.Rebuild.{Rebuilt};

use network::rule::first_other;
use network::{Code, Network, Refused, Timed};

// The timetable with these tensions in which the lowest event of each part stands at 0, and its cost.
pub fn rebuild(network: &Network, tensions: &[i32], times: &mut [u32]) -> Result<u64, Refused>
    ensures { Rebuilt network.now tensions.now times.old times.new (answered result) }
{
    let network = network.judge(tensions.len())?;
    let rows = &network.rows;
    let count = rows.events();
    if times.len() < count {
        return Err(Refused::at(Code::Room, 0));
    }
    if let Some(event) = first_other(rows.periods) {
        return Err(Refused::at(Code::OtherPeriod, event));
    }
    if let Some(arc) = network.first_astray(tensions) {
        return Err(Refused::at(Code::Tension, arc));
    }
    let common = rows.period(0);
    if let Err(arc) = walks::place_arcs(
        rows.tails,
        rows.heads,
        tensions,
        common,
        &mut times[..count],
    ) {
        return Err(Refused::at(Code::Walk, arc));
    }
    let timed = Timed {
        network,
        times: &times[..count],
    };
    Ok(timed.cost())
}
