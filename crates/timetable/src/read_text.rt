// Read: a network from the office's two texts.
ghost use Rattle.std.specs.Prelude.{◌≡◌, Ok, Err, MatchResult};
ghost use Rattle.network.specs.Network.{net};
ghost use Rattle.network.specs.Refusals.{answered, counted};
ghost use Rattle.timetable.specs.ReadText.{Read, cramped as cramped_of, fault_of};

use network::{Code, Counts, MOST_ARCS, MOST_EVENTS, Refused};
use text::Fault;
use text::fill::{fill_arcs, fill_events};
use text::judge::{judge_arcs, judge_events};

// The number of the events text.
const EVENTS: u32 = 0;

// The number of the arcs text.
const ARCS: u32 = 1;

// Is a row below the most entries that a text may have? The lengths stand apart, as the rows do.
#[tactic(auto, unfolding(crate::specs::ReadText::cramped))]
fn cramped(
    periods: usize,
    tails: usize,
    heads: usize,
    lowers: usize,
    uppers: usize,
    weights: usize,
) -> bool
    ensures { result ≡ cramped_of periods tails heads lowers uppers weights }
{
    periods < MOST_EVENTS
        || tails < MOST_ARCS
        || heads < MOST_ARCS
        || lowers < MOST_ARCS
        || uppers < MOST_ARCS
        || weights < MOST_ARCS
}

// How many records a judged text has, or its fault as a refusal: at the number of the text for its header, else at the record.
fn accepted(judged: Result<usize, Fault>, text: u32) -> Result<usize, Refused>
    ensures { MatchResult result (λ records. judged ≡ Ok records) (λ r. answered (Err r) ≡ fault_of text judged) }
{
    match judged {
        Ok(records) => Ok(records),
        Err(Fault::Header) => Err(Refused {
            code: Code::Header,
            place: text,
        }),
        Err(Fault::Record(record)) => Err(Refused {
            code: Code::Record,
            place: record,
        }),
    }
}

// Fills the rows with the network that the two texts tell, and says how many events and arcs it has.
// The six rows stay apart, as the C interface lends them.
pub fn read_text(
    events: &[u8],
    arcs: &[u8],
    periods: &mut [u32],
    tail: &mut [u32],
    head: &mut [u32],
    lower: &mut [i32],
    upper: &mut [i32],
    weight: &mut [u32],
) -> Result<Counts, Refused>
    ensures { Read events.now arcs.now (net periods.old tail.old head.old lower.old upper.old weight.old)
        (net periods.new tail.new head.new lower.new upper.new weight.new) (counted result) }
{
    if cramped(
        periods.len(),
        tail.len(),
        head.len(),
        lower.len(),
        upper.len(),
        weight.len(),
    ) {
        return Err(Refused::at(Code::Room, 0));
    }
    let first = accepted(judge_events(events), EVENTS)?;
    let second = accepted(judge_arcs(arcs), ARCS)?;
    fill_events(events, periods);
    fill_arcs(arcs, tail, head, lower, upper, weight);
    Ok(Counts {
        events: first,
        arcs: second,
    })
}
