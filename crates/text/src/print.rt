// Rows printed as the office's texts: the bytes are counted first, and then written, by the same functions.
ghost use Rattle.std.specs.Prelude.{◌≡◌, ◌+◌, ◌*◌, ◌<◌, ◌≤◌, ◌++◌, length};
ghost use Rattle.text.specs.Text.{event_layout, arc_layout, printed};
ghost use Rattle.text.specs.Put.{Put, record_line, longest_event, longest_arc};
ghost use Rattle.text.specs.ArcRows.{arc_in, arcs_in};

mod decimal;
mod rows;
mod sink;

use decimal::Decimal;
pub use rows::ArcRows;
use sink::{Count, Page, Sink};

// What stands between two fields of a line.
const COMMA: &[u8] = b",";

// What ends a line.
const LINE_BREAK: &[u8] = b"\r\n";

// A number, and what stands after it: a comma, or the line break after a line's last.
fn put_field<S: Sink, N: Decimal>(sink: &mut S, number: N, after: &[u8])
    requires { S.room (length (N.digits number ++ after.now)) sink.old }
    ensures { S.took (N.digits number ++ after.now) sink.old sink.new }
{
    number.print(sink);
    sink.put(after);
}

// One line of the events text.
fn put_event<S: Sink>(sink: &mut S, k: u32, period: u32)
    requires { S.room (length (record_line event_layout k period)) sink.old }
    ensures took { S.took (record_line event_layout k period) sink.old sink.new }
    ensures short { length (record_line event_layout k period) ≤ longest_event }
{
    put_field(sink, k, COMMA);
    put_field(sink, period, LINE_BREAK);
}

// The events text.
fn print_events<S: Sink>(sink: &mut S, periods: &[u32])
    requires few { length periods.now ≤ 64 }
    requires room { S.room (length (printed event_layout periods.now)) sink.old }
    ensures took { S.took (printed event_layout periods.now) sink.old sink.new }
    ensures short { length (printed event_layout periods.now) ≤ longest_event * (length periods.now + 1) }
{
    sink.put(b"event,period\r\n");
    for (k, &period) in periods.iter().enumerate() {
        put_event(sink, k as u32, period);
    }
}

// How many bytes the printed events have.
pub fn events_length(periods: &[u32]) -> usize
    requires { length periods.now ≤ 64 }
    ensures { result ≡ length (printed event_layout periods.now) }
{
    let mut count = Count(0);
    print_events(&mut count, periods);
    count.0
}

// Prints the events from the row's beginning.
pub fn put_events(out: &mut [u8], periods: &[u32]) -> usize
    requires { (length periods.now ≤ 64) × (length (printed event_layout periods.now) ≤ length out.old) }
    ensures { Put (printed event_layout periods.now) 0 out.old out.new result }
{
    let mut page = Page { bytes: out, at: 0 };
    print_events(&mut page, periods);
    page.at
}

// One line of the arcs text.
fn put_arc<S: Sink>(sink: &mut S, k: usize, arcs: &ArcRows)
    requires few { k < length arcs.now.tail.now }
    requires room { S.room (length (record_line arc_layout k (arc_in arcs.now k))) sink.old }
    ensures took { S.took (record_line arc_layout k (arc_in arcs.now k)) sink.old sink.new }
    ensures short { length (record_line arc_layout k (arc_in arcs.now k)) ≤ longest_arc }
{
    put_field(sink, k as u32, COMMA);
    put_field(sink, arcs.tail[k], COMMA);
    put_field(sink, arcs.head[k], COMMA);
    put_field(sink, arcs.lower[k], COMMA);
    put_field(sink, arcs.upper[k], COMMA);
    put_field(sink, arcs.weight[k], LINE_BREAK);
}

// The arcs text.
fn print_arcs<S: Sink>(sink: &mut S, arcs: &ArcRows)
    requires { S.room (length (printed arc_layout (arcs_in arcs.now))) sink.old }
    ensures took { S.took (printed arc_layout (arcs_in arcs.now)) sink.old sink.new }
    ensures short { length (printed arc_layout (arcs_in arcs.now)) ≤ longest_arc * (length arcs.now.tail.now + 1) }
{
    sink.put(b"arc,tail,head,lower,upper,weight\r\n");
    for k in 0..arcs.tail.len() {
        put_arc(sink, k, arcs);
    }
}

// How many bytes the printed arcs have.
pub fn arcs_length(arcs: &ArcRows) -> usize
    ensures { result ≡ length (printed arc_layout (arcs_in arcs.now)) }
{
    let mut count = Count(0);
    print_arcs(&mut count, arcs);
    count.0
}

// Prints the arcs from the row's beginning.
pub fn put_arcs(out: &mut [u8], arcs: &ArcRows) -> usize
    requires { length (printed arc_layout (arcs_in arcs.now)) ≤ length out.old }
    ensures { Put (printed arc_layout (arcs_in arcs.now)) 0 out.old out.new result }
{
    let mut page = Page { bytes: out, at: 0 };
    print_arcs(&mut page, arcs);
    page.at
}
