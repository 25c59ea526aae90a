//! The states of attributes.

ghost use Rattle.std.specs.Prelude.{◌≡◌, option_map};
ghost use Rattle.lc_rules.specs.TextWords.{text_word};

/// The state of an attribute for a path: gitattributes(5), DESCRIPTION.
#[derive(Clone, Copy)]
pub enum State<'a> {
    Set,
    Unset,
    /// The bytes after the equals sign, perhaps none.
    Value(&'a [u8]),
    Unspecified,
}

/// The state of the attribute `text` for a file.
#[derive(Clone, Copy, Debug, PartialEq, Eq)]
pub enum TextState {
    Set,
    Unset,
    /// The value `auto`.
    Auto,
    /// A value other than `auto`.
    Other,
    Unspecified,
}

impl TextState {
    /// Returns the word by which reports name the state, such as `auto`. An unspecified attribute has none.
    pub fn word(self) -> Option<&'static str>
        ensures { option_map (λ word. word.now) result ≡ text_word self }
    {
        match self {
            TextState::Set => Some("set"),
            TextState::Unset => Some("unset"),
            TextState::Auto => Some("auto"),
            TextState::Other => Some("other"),
            TextState::Unspecified => None,
        }
    }
}
