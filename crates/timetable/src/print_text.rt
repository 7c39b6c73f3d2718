// Print: a network as the office's two texts.
ghost use Rattle.network.specs.Refusals.{counted};
ghost use Rattle.timetable.specs.PrintText.{Printed};

use network::{Code, Counts, Network, Refused};
use text::print::{ArcRows, arcs_length, events_length, put_arcs, put_events};

// Writes the network's two texts from the beginning of each row, and says how many bytes each has. The network is not judged.
pub fn print_text(network: &Network, events: &mut [u8], arcs: &mut [u8]) -> Result<Counts, Refused>
    ensures { Printed network.now events.old arcs.old events.new arcs.new (counted result) }
{
    if network.is_miscounted() {
        return Err(Refused::at(Code::EventCount, 0));
    }
    if network.is_uneven(network.arcs()) {
        return Err(Refused::at(Code::ArcRows, 0));
    }
    let rows = ArcRows {
        tail: network.tails,
        head: network.heads,
        lower: network.lowers,
        upper: network.uppers,
        weight: network.weights,
    };
    if events.len() < events_length(network.periods) || arcs.len() < arcs_length(&rows) {
        return Err(Refused::at(Code::Room, 0));
    }
    Ok(Counts {
        events: put_events(events, network.periods),
        arcs: put_arcs(arcs, &rows),
    })
}
