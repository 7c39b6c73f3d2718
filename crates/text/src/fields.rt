// A record's numbers: the fields of its line in turn, each by its rule.
ghost use Rattle.std.specs.Prelude.{◌≡◌, ◌≤◌, ◌∷◌, ℕ, Some, option_map, refl};
ghost use Rattle.std.proofs.Common.{lit≤};
ghost use Rattle.std.specs.Iterator.{YieldsFirstRef, item_count};
ghost use Rattle.text.specs.Line.{fields};
ghost use Rattle.text.specs.Text.{numbered, end, Layout, event_layout, arc_layout};
ghost use Rattle.text.specs.Cursor.{fields_of_rest, fields_left, first_by, after_first};

use crate::value::Field;
use crate::{Arc, Period};

// The first field of a line, and what follows its comma, if there is one.
fn split_field(line: &[u8]) -> (&[u8], Option<&[u8]>)
    ensures { fields line.now ≡ result.0.now ∷ fields_of_rest result.1 }
{
    match line.iter().position(|b| *b == b',') {
        Some(end) => (&line[..end], Some(&line[end + 1..])),
        None => (line, None),
    }
}

// The fields of a line that are still to be read, if any.
#[derive(Drop)]
pub struct Fields<'a> {
    rest: Option<&'a [u8]>,
}

impl<'a> Fields<'a> {
    // All fields of a line.
    pub fn new(line: &'a [u8]) -> Fields<'a>
        ensures { fields_left result ≡ fields line.now }
    {
        Fields { rest: Some(line) }
    }

    // The fields after a record's number, which is k.
    pub fn numbered(line: &'a [u8], k: usize) -> Option<Fields<'a>>
        ensures { option_map fields_left result ≡ numbered k Some (fields line.now) }
    {
        let mut fields = Fields::new(line);
        let number: u32 = fields.read()?;
        (number as usize == k).then_some(fields)
    }

    // The next field by its rule, if there is one.
    pub fn read<F: Field>(&mut self) -> Option<F>
        ensures value { result ≡ first_by F.rule (fields_left self.old) }
        ensures rest { fields_left self.new ≡ after_first (fields_left self.old) }
    {
        F::parse(self.next()?)
    }

    // The value that all fields gave, if none is left.
    pub fn end<T: Drop>(self, value: T) -> Option<T>
        ensures { result ≡ end value (fields_left self.entry) }
    {
        self.rest.is_none().then_some(value)
    }
}

// What stands between a line's commas.
impl<'a> Iterator for Fields<'a> {
    type Item = &'a [u8];

    ghost next_gives = { YieldsFirstRef fields_left };

    ghost remaining = { item_count fields_left };

    fn next(&mut self) -> Option<&'a [u8]> {
        let (field, rest) = split_field(self.rest?);
        self.rest = rest;
        Some(field)
    }
}

// A kind of record: the header of its text, how many there may be, and how one is read from its line.
pub trait Record: Drop {
    ghost layout: { Layout Self };

    ghost LEAST: { ℕ };

    ghost MOST: { ℕ };

    // The least number of records.
    const LEAST: usize;

    // The greatest number of records.
    const MOST: usize;

    // The first line of its text.
    fn header() -> &'static [u8]
        ensures { result.now ≡ layout.header };

    // Record k, if the line is one.
    fn read(line: &[u8], k: usize) -> Option<Self>
        ensures { result ≡ layout.record_of k (fields line.now) };

    ghost least: { LEAST ≡ layout.least };

    ghost most: { MOST ≡ layout.most };

    ghost few: { layout.most ≤ 256 };
}

// An event's number, and its period.
impl Record for Period {
    ghost layout = { event_layout };

    ghost LEAST = { event_layout.least };

    ghost MOST = { event_layout.most };

    const LEAST: usize = 1;

    const MOST: usize = 64;

    fn header() -> &'static [u8] {
        b"event,period"
    }

    #[tactic(auto, using(crate::proofs::Cursors::in_turn), unfolding(crate::specs::Text::event_of))]
    fn read(line: &[u8], k: usize) -> Option<Period> {
        let mut fields = Fields::numbered(line, k)?;
        let period = fields.read()?;
        fields.end(period)
    }

    ghost least = { refl };

    ghost most = { refl };

    ghost few = { lit≤ tt };
}

// An arc's number, and its five numbers.
impl Record for Arc {
    ghost layout = { arc_layout };

    ghost LEAST = { arc_layout.least };

    ghost MOST = { arc_layout.most };

    const LEAST: usize = 0;

    const MOST: usize = 256;

    fn header() -> &'static [u8] {
        b"arc,tail,head,lower,upper,weight"
    }

    #[tactic(auto, using(crate::proofs::Cursors::in_turn), unfolding(crate::specs::Text::arc_of))]
    fn read(line: &[u8], k: usize) -> Option<Arc> {
        let mut fields = Fields::numbered(line, k)?;
        let tail = fields.read()?;
        let head = fields.read()?;
        let lower = fields.read()?;
        let upper = fields.read()?;
        let weight = fields.read()?;
        fields.end(Arc {
            tail,
            head,
            lower,
            upper,
            weight,
        })
    }

    ghost least = { refl };

    ghost most = { refl };

    ghost few = { lit≤ tt };
}
