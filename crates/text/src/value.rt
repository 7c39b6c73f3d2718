// A field's number, judged by its value.
ghost use Rattle.std.specs.Prelude.{◌≡◌, List, ℕ, Option};
ghost use Rattle.text.specs.Number.{plain, signed};

// A number that is read from a field, by the rule of its row.
pub trait Field: Drop {
    ghost rule: { List ℕ → Option Self };

    // The number, if the field is one.
    fn parse(field: &[u8]) -> Option<Self>
        ensures { result ≡ rule field.now };
}

// Digits of any length; a value too large is bad as soon as it is seen.
impl Field for u32 {
    ghost rule = { plain };

    fn parse(field: &[u8]) -> Option<u32> {
        if field.is_empty() {
            return None;
        }
        let mut value: u32 = 0;
        for b in field {
            if !(b'0'..=b'9').contains(b) {
                return None;
            }
            value = value.checked_mul(10)?.checked_add(u32::from(b - b'0'))?;
        }
        Some(value)
    }
}

// Digits with an optional minus.
impl Field for i32 {
    ghost rule = { signed };

    fn parse(field: &[u8]) -> Option<i32> {
        match field {
            [b'-', digits @ ..] => {
                let size = u32::parse(digits)?;
                0i32.checked_sub_unsigned(size)
            }
            _ => {
                let size = u32::parse(field)?;
                i32::try_from(size).ok()
            }
        }
    }
}
