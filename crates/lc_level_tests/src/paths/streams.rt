//! Tests with inputs that fail or never end, and with writers that accept few bytes or fail. A call writes a prefix of the expected text,
//! and the whole text only if it succeeds.

use crate::paths::forms::{Answer, Case, Form, called, stops_there, unrefused};
use lc_io::Source;
use lc_paths::{CheckFault, Outcome};
use lc_tests::readers::{Bytewise, Counted, Endless, Failing};
use lc_tests::writers::{Narrow, WRITERS, WhenFull};
use std::alloc::{AllocError, Global};
use std::process::Abort;
use std::test::Fail;

const CHECK: Case<'static> = Case {
    form: Form::Check,
    rules: b"a\n",
    input: b"a\nb\n",
    words: &[],
    text: b"ignored\ta\nnone\tb\n",
};

const EXPLAIN: Case<'static> = Case {
    form: Form::Explain,
    text: b"ignored\t.gitignore:1\ta\ta\nnone\t-\t-\tb\n",
    ..CHECK
};

const CASES: &[Case<'static>] = &[
    CHECK,
    Case {
        form: Form::Joined,
        input: b"a\n--\na\nb\n",
        ..CHECK
    },
    EXPLAIN,
    Case {
        form: Form::CheckExplained,
        ..EXPLAIN
    },
    // Each argument is a path, whatever its bytes.
    Case {
        form: Form::ExplainWords,
        words: &["a", "a\nb", "src/", "./a", "."],
        text: b"ignored\t.gitignore:1\ta\ta\nnone\t-\t-\ta\\x0ab\nnone\t-\t-\tsrc/\nignored\t.gitignore:1\ta\t./a\nnone\t-\t-\t.\n",
        ..CHECK
    },
];

fn compare_writes<R: AllocGlobal + Abort>(
    rt: &R,
    case: &Case<'_>,
    writer: (usize, WhenFull),
) -> Result<(), Fail> {
    for room in 0..=case.text.len() {
        assert!(rt; stops_there(rt, case, writer, room)?, "at {room}");
    }
    Ok(())
}

#[test]
fn writes_stop_at_every_place(rt: HostRuntime) -> Result<(), Fail> {
    for case in CASES {
        for writer in WRITERS {
            compare_writes(&rt, case, *writer)?;
        }
    }
    Ok(())
}

/// Makes the call of a case with this input, and checks that it writes something only if it succeeds.
fn answer_to<R: AllocGlobal + Abort, S: Source>(
    rt: &R,
    case: &Case<'_>,
    input: &mut S,
) -> Result<Answer, AllocError> {
    let mut out = Narrow::new(rt.alloc(), 64, 64, WhenFull::Fails)?;
    let answer = called(rt.alloc(), case, input, &mut out);
    assert!(rt; out.taken.is_empty() != answer.is_ok());
    unrefused(rt, answer, &out)
}

const FAILED: Answer = Err(CheckFault::Read);

/// Checks the call of a case with inputs that fail at each place, and with one that does not end.
fn compare_reads<R: AllocGlobal + Abort>(rt: &R, case: &Case<'_>) -> Result<(), Fail> {
    for given in 0..=case.input.len() {
        let front = &case.input[..given];
        let whole = answer_to(rt, case, &mut Failing(front))?;
        let by_bytes = answer_to(rt, case, &mut Bytewise(Failing(front)))?;
        assert!(rt; whole == FAILED && by_bytes == FAILED, "at {given}");
    }
    let mut endless = Counted::new(Endless);
    let answer = answer_to(rt, case, &mut endless)?;
    // 256 buffers of 65,536 bytes, and the first byte past the limit.
    assert!(rt;
        answer == Err(CheckFault::InputTooLong) && endless.reads == 257,
        "{} reads",
        endless.reads
    );
    Ok(())
}

#[test]
fn reads_fail_at_every_place(rt: HostRuntime) -> Result<(), Fail> {
    for case in CASES {
        if !matches!(case.form, Form::ExplainWords) {
            compare_reads(&rt, case)?;
        }
    }
    Ok(())
}

/// Returns an input that has a rule of this many letters, a line of dashes and a path.
fn one_long_rule(alloc: Global, letters: usize) -> Result<Vec<u8>, AllocError> {
    let mut joined = vec![in alloc; b'a'; letters]?;
    joined.extend_from_slice(b"\n--\nb\n")?;
    Ok(joined)
}

/// The number of letters of a rule, and the expected result. The line feed after the rule is one of the bytes of the rules.
const LIMITS: &[(usize, Answer)] = &[
    (1_048_575, Ok(Outcome::Clean)),
    (1_048_576, Err(CheckFault::RulesTooLong)),
];

#[test]
fn joined_rules_at_their_limit(rt: HostRuntime) -> Result<(), Fail> {
    let case = Case {
        form: Form::Joined,
        ..CHECK
    };
    for (letters, wanted) in LIMITS {
        let joined = one_long_rule(rt.alloc(), *letters)?;
        let answer = answer_to(&rt, &case, &mut joined.as_slice())?;
        assert!(rt; answer == *wanted, "at {letters}");
    }
    Ok(())
}
