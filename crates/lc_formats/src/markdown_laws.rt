//! Laws about text that is printed as Markdown. Each law is a theorem, which is the contract of a function that does nothing.

ghost use Rattle.lc_formats.specs.MarkdownLaws.{BlankLaw, EscapedLaw, LinkLaw, UnescapedLaw};

/// The law of names in a Markdown table: each markup byte is escaped, and no address becomes a link. No blank at the beginning or the end
/// of a name is dropped. A reader of the Markdown sees the name itself.
pub fn markdown_has_no_markup_of_names()
    ensures reads_back { UnescapedLaw }
    ensures escaped { EscapedLaw }
    ensures no_link { LinkLaw }
    ensures no_blank { BlankLaw }
{}
