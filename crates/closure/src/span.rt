// Spans of the difference of two times.
ghost use Rattle.closure.specs.Shapes.{Shape};

// The differences from a lower bound on, as far as a width, by a gap. 16 bits hold each number, and the table is half as large as with 32.
#[derive(Clone, Copy)]
pub struct Span {
    pub low: u16,
    pub width: u16,
    pub gap: u16,
    ghost shape: { Shape gap low width },
}

impl Span {
    ghost use Rattle.std.specs.Prelude.{◌≡◌};
    ghost use Rattle.closure.specs.Shapes.{behind_of};
    ghost use Rattle.closure.specs.Spans.{Turned, Cut};

    // The same span with its two ends exchanged.
    pub fn turned(self) -> Span
        ensures { Turned self result }
    {
        let Span { low, width, gap } = self;
        Span {
            low: (2 * gap - (low + width)) % gap,
            width,
            gap,
        }
    }

    // How far the lower bound of another span is behind this one's: by a comparison, for each is below the gap.
    fn behind(self, other: Span) -> u16
        requires { other.gap ≡ self.gap }
        ensures { result ≡ behind_of self.gap self.low other.low }
    {
        if self.low <= other.low {
            return other.low - self.low;
        }
        other.low + self.gap - self.low
    }

    // What two spans leave; where that would be two pieces, the narrower of the two.
    pub fn cut(self, other: Span) -> Option<Span>
        requires { other.gap ≡ self.gap }
        ensures { Cut self other result }
    {
        let Span { low, width, gap } = self;
        let after = self.behind(other);
        let round = after + other.width;
        if after <= width {
            if round < gap {
                let width = other.width.min(width - after);
                return Some(Span {
                    low: other.low,
                    width,
                    gap,
                });
            }
            return Some(if other.width < width { other } else { self });
        }
        if round < gap {
            return None;
        }
        let width = width.min(round - gap);
        Some(Span { low, width, gap })
    }
}
