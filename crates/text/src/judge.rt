// A text judged without its rows: nothing is written before both texts are accepted.
ghost use Rattle.std.specs.Prelude.{◌≡◌};
ghost use Rattle.text.specs.Text.{told, event_layout, arc_layout};
ghost use Rattle.text.specs.Judge.{tally};

use crate::cursor::Lines;
use crate::fields::Record;
use crate::{Arc, Fault, Period};

// The header, then the records: how many there are, if none is bad and none is missing. They are counted beside the loop, since the number is wanted after it.
fn judge<R: Record>(text: &[u8]) -> Result<usize, Fault>
    ensures { result ≡ tally (told R.layout text.now) }
{
    let mut lines = Lines::new(text);
    let header = lines.next().ok_or(Fault::Header)?;
    if header != R::header() {
        return Err(Fault::Header);
    }
    let mut records = 0;
    for line in lines {
        if records == R::MOST || R::read(line, records).is_none() {
            return Err(Fault::Record(records as u32));
        }
        records += 1;
    }
    if records < R::LEAST {
        return Err(Fault::Record(records as u32));
    }
    Ok(records)
}

// How many events the text tells, or its first fault.
pub fn judge_events(text: &[u8]) -> Result<usize, Fault>
    ensures { result ≡ tally (told event_layout text.now) }
{
    judge::<Period>(text)
}

// How many arcs the text tells, or its first fault.
pub fn judge_arcs(text: &[u8]) -> Result<usize, Fault>
    ensures { result ≡ tally (told arc_layout text.now) }
{
    judge::<Arc>(text)
}
