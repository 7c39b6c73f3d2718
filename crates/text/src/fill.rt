// The rows of an accepted text, read a second time: nothing is written before both texts are accepted.
ghost use Rattle.std.specs.Prelude.{◌≡◌, length};
ghost use Rattle.text.specs.Text.{told, event_layout, arc_layout};
ghost use Rattle.text.specs.Fill.{rows_of, onto, Fillable, ArcsFillable, ArcsFilledBy};

use crate::cursor::Lines;
use crate::fields::Record;
use crate::{Arc, Period};

// Writes the period of each event of an accepted text.
pub fn fill_events(text: &[u8], periods: &mut [u32])
    requires { Fillable event_layout text.now (length periods.old) }
    ensures { periods.new ≡ onto (rows_of (told event_layout text.now)) periods.old }
{
    for (k, line) in Lines::after_header(text).enumerate() {
        if let Some(period) = Period::read(line, k) {
            periods[k] = period;
        }
    }
}

// Writes the five numbers of each arc of an accepted text; one function of both texts would take a closure over their rows, and be no plainer.
// The five rows stand apart, as the C interface lends them.
pub fn fill_arcs(
    text: &[u8],
    tail: &mut [u32],
    head: &mut [u32],
    lower: &mut [i32],
    upper: &mut [i32],
    weight: &mut [u32],
)
    requires { ArcsFillable text.now tail.old head.old lower.old upper.old weight.old }
    ensures { ArcsFilledBy (rows_of (told arc_layout text.now)) tail head lower upper weight }
{
    for (k, line) in Lines::after_header(text).enumerate() {
        if let Some(arc) = Arc::read(line, k) {
            tail[k] = arc.tail;
            head[k] = arc.head;
            lower[k] = arc.lower;
            upper[k] = arc.upper;
            weight[k] = arc.weight;
        }
    }
}
