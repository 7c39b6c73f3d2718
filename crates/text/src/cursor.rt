// A text is read line by line.
ghost use Rattle.std.specs.Prelude.{◌≡◌, ◌<◌, ◌∷◌, length};
ghost use Rattle.std.specs.Iterator.{YieldsFirstRef, item_count};
ghost use Rattle.text.specs.Line.{lines};
ghost use Rattle.text.specs.Cursor.{lines_left, after_first};

// The first line of a text, without its line break, and what follows that.
fn split_line(text: &[u8]) -> (&[u8], &[u8])
    requires { 0 < length text.now }
    ensures { lines text.now ≡ result.0.now ∷ lines result.1.now }
{
    match text.windows(2).position(|pair| matches!(pair, b"\r\n")) {
        Some(end) => (&text[..end], &text[end + 2..]),
        None => (text, &[]),
    }
}

// The lines of a text that are still to be handed out.
#[derive(Drop)]
pub struct Lines<'a> {
    rest: &'a [u8],
}

impl<'a> Lines<'a> {
    // All lines of a text.
    pub fn new(text: &'a [u8]) -> Lines<'a>
        ensures { lines_left result ≡ lines text.now }
    {
        Lines { rest: text }
    }

    // The lines after the first, which is the header.
    pub fn after_header(text: &'a [u8]) -> Lines<'a>
        ensures { lines_left result ≡ after_first (lines text.now) }
    {
        let mut lines = Lines::new(text);
        lines.next();
        lines
    }
}

// Each line ends in CR LF; the last line break may be absent.
impl<'a> Iterator for Lines<'a> {
    type Item = &'a [u8];

    ghost next_gives = { YieldsFirstRef lines_left };

    ghost remaining = { item_count lines_left };

    fn next(&mut self) -> Option<&'a [u8]> {
        if self.rest.is_empty() {
            return None;
        }
        let (line, rest) = split_line(self.rest);
        self.rest = rest;
        Some(line)
    }
}
