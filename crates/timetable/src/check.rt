// Check: is a given timetable right?
ghost use Rattle.network.specs.Refusals.{answered};
ghost use Rattle.timetable.specs.Check.{Checked};

use network::{Code, Network, Refused};

// Is this timetable right? Its cost where every arc is met.
pub fn check(network: &Network, times: &[u32]) -> Result<u64, Refused>
    ensures { Checked network.now times.now (answered result) }
{
    let network = network.judge(network.arcs())?;
    let timed = network.timed(times)?;
    if let Some(event) = timed.first_late() {
        return Err(Refused::at(Code::Late, event));
    }
    if let Some(arc) = timed.first_unmet() {
        return Err(Refused::at(Code::Unmet, arc));
    }
    Ok(timed.cost())
}
