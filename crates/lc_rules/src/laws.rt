//! Laws: theorems about the definitions of rule files that the contracts cite. Each law is the contract of a function that does nothing.

ghost use Rattle.lc_rules.specs.AttrLaws.{EmptyFileLaw, LowestFileLaw};
ghost use Rattle.lc_rules.specs.CanMatch.{CanMatchLaw};
ghost use Rattle.lc_rules.specs.IgnoreLaws.{CommandLineLaw, LastMatchLaw, LinesLaw};

/// The law that the definition `last_match` gives the last of the given rules that matches a path: it is one of the given rules, it matches
/// the path, and no later rule matches the path. No other rule meets these three conditions. If `last_match` gives no rule, no rule matches
/// the path.
pub fn the_last_match_decides()
    ensures { LastMatchLaw }
{}

/// The law that the patterns of the command line override the files. If some of these patterns match a path, the last of them decides
/// whether the path is ignored. If none of them matches, the files decide this, as they do if the command line has no patterns.
pub fn the_command_line_decides()
    ensures { CommandLineLaw }
{}

/// The law that each rule of a file has the number of the line that the rule was read from.
pub fn rules_stand_on_their_lines()
    ensures { LinesLaw }
{}

/// The law that a line for which `can_match` is false gives no rule, or a rule that matches no path of an entry.
pub fn what_cannot_match_gives_nothing()
    ensures { CanMatchLaw }
{}

/// The law about the lowest file of a chain of attribute files. If the file defines no macro, and the other files decide an attribute for a
/// path, the attribute's state is what it is without the lowest file. An empty lowest file changes no state.
pub fn the_lowest_file_is_overridden()
    ensures lowest { LowestFileLaw }
    ensures empty { EmptyFileLaw }
{}
