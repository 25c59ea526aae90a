//! Finding the kind of line end, the error or the state that a printed word names.

ghost use Rattle.std.specs.Prelude.{◌≡◌, ◌≢◌, find, bytes_eq, MatchOption, Some};
ghost use Rattle.lc_census.specs.EolWords.{eol_word};
ghost use Rattle.lc_census.specs.declared.line_count.Eol.{Eol as EolModel};
ghost use Rattle.lc_level.specs.FaultWords.{fault_word};
ghost use Rattle.lc_level.specs.declared.fault_word.FaultWord.{FaultWord as FaultWordModel};
ghost use Rattle.lc_rules.specs.TextWords.{text_word};
ghost use Rattle.lc_rules.specs.declared.states.TextState.{TextState as TextStateModel};
ghost use Rattle.lc_reading.specs.Members.{is_word};

use lc_census::Eol;
use lc_level::FaultWord;
use lc_rules::TextState;

fn first_eol(all: &[Eol], word: &str) -> Option<Eol>
    ensures { result ≡ find (λ eol. bytes_eq (eol_word eol) word.now) all.now }
{
    all.iter().copied().find(|eol| eol.as_str() == word)
}

/// Returns the kind of line end that a word names, if it names one.
pub(crate) fn eol_of(word: &str) -> Option<Eol>
    ensures { MatchOption result ((eol : EolModel) → eol_word eol ≢ word.now) (λ eol. eol_word eol ≡ word.now) }
{
    let all = [
        Eol::NoEnd,
        Eol::Lf,
        Eol::CrLf,
        Eol::Cr,
        Eol::Mixed,
        Eol::Nul,
    ];
    first_eol(&all, word)
}

fn first_fault(all: &[FaultWord], word: &str) -> Option<FaultWord>
    ensures { result ≡ find (λ fault. bytes_eq (fault_word fault) word.now) all.now }
{
    all.iter().copied().find(|fault| fault.as_str() == word)
}

/// Returns the error that a word names, if it names one.
pub(crate) fn fault_of(word: &str) -> Option<FaultWord>
    ensures { MatchOption result ((fault : FaultWordModel) → fault_word fault ≢ word.now) (λ fault. fault_word fault ≡ word.now) }
{
    let all = [
        FaultWord::Read,
        FaultWord::Name,
        FaultWord::Twice,
        FaultWord::Many,
        FaultWord::Long,
        FaultWord::Endless,
        FaultWord::Absent,
    ];
    first_fault(&all, word)
}

fn is_word_of(state: TextState, word: &str) -> bool
    ensures { result ≡ is_word word.now (text_word state) }
{
    match state.word() {
        Some(own) => own == word,
        None => false,
    }
}

fn first_state(all: &[TextState], word: &str) -> Option<TextState>
    ensures { result ≡ find (λ state. is_word word.now (text_word state)) all.now }
{
    all.iter().copied().find(|state| is_word_of(*state, word))
}

/// Returns the state of the attribute `text` that a word names, if it names one.
pub(crate) fn text_state_of(word: &str) -> Option<TextState>
    ensures { MatchOption result ((state : TextStateModel) → text_word state ≢ Some word.now) (λ state. text_word state ≡ Some word.now) }
{
    let all = [
        TextState::Set,
        TextState::Unset,
        TextState::Auto,
        TextState::Other,
        TextState::Unspecified,
    ];
    first_state(&all, word)
}
