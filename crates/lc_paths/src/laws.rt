//! Laws: theorems about the definitions that the contracts cite. Each law is the contract of a function that does nothing.

ghost use Rattle.lc_paths.specs.Checks.Laws.{WordLaw};
ghost use Rattle.lc_paths.specs.Explanations.Laws.{EntryLaw, IntoLaw};

/// The law that the rule that a check prints for a path agrees with the printed word. For a bad path, no rule is printed. For another path
/// below an ignored directory, the verdict of the printed rule is to ignore. For all other paths, the word is the verdict of the printed
/// rule, or `none` if no rule matches.
pub fn the_rule_gives_the_word()
    ensures { WordLaw }
{}

/// The law that the explanation of an entry agrees with what a count does with the entry. Both skip the entry for the same reason, or
/// neither skips it. On the way to its path, an explanation enters a directory exactly if a count without `--only` visits this directory.
pub fn entries_are_explained_as_decided()
    ensures entry { EntryLaw }
    ensures into { IntoLaw }
{}
