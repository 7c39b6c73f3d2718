// Numbers with the fewest digits: counted, and written. The library's Display is no plainer: it answers a Result at every number, and here none can fail.
ghost use Rattle.std.specs.Prelude.{◌≡◌, ◌+◌, ◌≤◌, List, ℕ, length};
ghost use Rattle.text.specs.Number.{decimal, decimal_ℤ};
ghost use Rattle.text.specs.Put.{Put};

use super::sink::Sink;

// The base in which numbers are printed.
const BASE: u32 = 10;

// How many digits a number has. The library's ilog10 in place of the divisions takes three times as long at small numbers.
pub fn width(n: u32) -> usize
    ensures { result ≡ length (decimal n) }
{
    if n < BASE { 1 } else { width(n / BASE) + 1 }
}

// Writes a number from a place on, and gives the place after it. A place that is kept behind a reference takes twice the time.
pub fn write_number(out: &mut [u8], at: usize, n: u32) -> usize
    requires { at + length (decimal n) ≤ length out.old }
    ensures { Put (decimal n) at out.old out.new result }
{
    if n < BASE {
        out[at] = b'0' + n as u8;
        return at + 1;
    }
    let last = write_number(out, at, n / BASE);
    out[last] = b'0' + (n % BASE) as u8;
    last + 1
}

// A number of one of the rows.
pub trait Decimal {
    // how it is printed
    ghost digits: { Self → List ℕ };

    // Puts its digits.
    fn print<S: Sink>(self, sink: &mut S)
        requires { S.room (length (digits self)) sink.old }
        ensures { S.took (digits self) sink.old sink.new };
}

impl Decimal for u32 {
    ghost digits = { decimal };

    fn print<S: Sink>(self, sink: &mut S) {
        sink.put_number(self);
    }
}

impl Decimal for i32 {
    ghost digits = { decimal_ℤ };

    fn print<S: Sink>(self, sink: &mut S) {
        if self < 0 {
            sink.put(b"-");
        }
        sink.put_number(self.unsigned_abs());
    }
}
