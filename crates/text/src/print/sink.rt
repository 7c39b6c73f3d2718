// Where printed bytes go: they are counted, or written into a row.
ghost use Rattle.std.specs.Prelude.{◌≡◌, ◌+◌, ◌%◌, ◌^◌, ◌≤◌, List, ℕ, length, ⊤};
ghost use Rattle.std.proofs.Common.{◌∙◌};
ghost use Rattle.text.specs.Number.{decimal};
ghost use Rattle.text.specs.Put.{Put};
ghost use Rattle.text.specs.Sink.{SinkLaws, then_put, count_joins, room_fewer, room_rest};

use super::decimal::{width, write_number};

// A place that takes bytes, one part after the other.
pub trait Sink {
    // that there is room for so many bytes more
    ghost room: { ℕ → Self → Type 0 };

    // that these bytes went in
    ghost took: { List ℕ → Self → Self → Type 0 };

    // Takes these bytes.
    fn put(&mut self, bytes: &[u8])
        requires { room (length bytes.now) self.old }
        ensures { took bytes.now self.old self.new };

    // Takes the digits of a number, as few as it has.
    fn put_number(&mut self, n: u32)
        requires { room (length (decimal n)) self.old }
        ensures { took (decimal n) self.old self.new };

    ghost laws: { SinkLaws room took };
}

// Counts the bytes and keeps none. There is always room, since the count starts at zero again past the largest number: no text is so long.
#[derive(Drop)]
pub struct Count(pub usize);

impl Sink for Count {
    ghost room = { λ _ _. ⊤ };

    ghost took = { λ s c d. d.0 ≡ (c.0 + length s) % 2 ^ 64 };

    ghost laws = { record {
      fewer = λ m i h. tt;
      rest = λ n h t. tt;
      joins = λ h a b. count_joins _ _ _ a b;
    } };

    fn put(&mut self, bytes: &[u8]) {
        self.0 = self.0.wrapping_add(bytes.len());
    }

    fn put_number(&mut self, n: u32) {
        self.0 = self.0.wrapping_add(width(n));
    }
}

// A row of bytes, and how many of them are written.
#[derive(Drop)]
pub struct Page<'a> {
    pub bytes: &'a mut [u8],
    pub at: usize,
}

impl Sink for Page<'_> {
    ghost room = { λ n p. p.at + n ≤ length p.bytes.now };

    ghost took = { λ s p q. (q.bytes.ghost_name ≡ p.bytes.ghost_name) × Put s p.at p.bytes.now q.bytes.now q.at };

    ghost laws = { record {
      fewer = λ m i h. room_fewer _ m i h;
      rest = λ n h t. room_rest n h t.1;
      joins = λ h a b. (b.0 ∙ a.0, then_put h a.1 b.1);
    } };

    fn put(&mut self, bytes: &[u8]) {
        let end = self.at + bytes.len();
        self.bytes[self.at..end].copy_from_slice(bytes);
        self.at = end;
    }

    fn put_number(&mut self, n: u32) {
        self.at = write_number(self.bytes, self.at, n);
    }
}
