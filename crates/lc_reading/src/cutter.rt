//! Cutting a text after each JSON object.

ghost use Rattle.std.specs.Prelude.{◌<◌, ◌≤◌, length, IfSome};

/// Where a byte of a JSON text is: in a string or outside of strings.
#[derive(Clone, Copy, Debug, Drop, PartialEq, Eq)]
enum Place {
    /// Outside of a string.
    Between,
    /// In a string.
    InString,
    /// After a backslash in a string.
    AfterBackslash,
}

/// A place in a JSON text, with the number of brackets and braces that are open there.
#[derive(Clone, Copy, Debug, Drop)]
struct Nesting {
    place: Place,
    open: usize,
}

impl Nesting {
    /// Returns the place after one more byte, `byte`.
    fn after(self, byte: u8) -> Nesting {
        let Nesting { place, open } = self;
        match (place, byte) {
            (Place::Between, b'"') => Nesting {
                place: Place::InString,
                open,
            },
            (Place::Between, b'{' | b'[') => Nesting {
                place,
                open: open.saturating_add(1),
            },
            (Place::Between, b'}' | b']') => Nesting {
                place,
                open: open.saturating_sub(1),
            },
            (Place::InString, b'"') => Nesting {
                place: Place::Between,
                open,
            },
            (Place::InString, b'\\') => Nesting {
                place: Place::AfterBackslash,
                open,
            },
            (Place::AfterBackslash, _) => Nesting {
                place: Place::InString,
                open,
            },
            (Place::Between | Place::InString, _) => self,
        }
    }
}

/// Returns the length of the object at the beginning of a text, with the white space before it, or `None` if the object does not end.
pub(crate) fn object_length(text: &[u8]) -> Option<usize>
    ensures { IfSome result (λ n. (0 < n) × (n ≤ length text.now)) }
{
    let mut nesting = Nesting {
        place: Place::Between,
        open: 0,
    };
    for (at, byte) in text.iter().enumerate() {
        nesting = nesting.after(*byte);
        if *byte == b'}' && nesting.open == 0 && nesting.place == Place::Between {
            return Some(at + 1);
        }
    }
    None
}
