//! Rule files that are read a byte at a time, fail, are too long or never end.

use lc_io::Source;
use lc_level::{RulesFileFault, read_rule_text};
use lc_tests::readers::{Bytewise, Counted, Endless, Failing};
use std::alloc::AllocError;
use std::process::Abort;
use std::test::Fail;

/// Checks that reading a file as rules gives what is wanted: the number of its rules, or an error.
fn compare_rules<R: AllocGlobal + Abort, S: Source>(
    rt: &R,
    file: &mut S,
    wanted: Result<usize, RulesFileFault>,
) -> Result<(), Fail> {
    let answer = match read_rule_text(rt.alloc(), file) {
        Ok(text) => Ok(text.rules().len()),
        Err(RulesFileFault::Memory) => return Err(AllocError.into()),
        Err(fault) => Err(fault),
    };
    assert!(rt; answer == wanted, "{wanted:?}");
    Ok(())
}

const FILE: &[u8] = b"a\n# b\n\n!c";

#[test]
fn files_of_rules(rt: HostRuntime) -> Result<(), Fail> {
    for given in 0..=FILE.len() {
        compare_rules(&rt, &mut Failing(&FILE[..given]), Err(RulesFileFault::Read))?;
    }
    compare_rules(&rt, &mut Bytewise(FILE), Ok(2))?;
    let mut endless = Counted::new(Endless);
    compare_rules(&rt, &mut endless, Err(RulesFileFault::TooLong))?;
    // 16 buffers of 65,536 bytes, and the first byte past the limit.
    assert!(rt; endless.reads == 17, "{} reads", endless.reads);
    let too_long = vec![in rt.alloc(); b'a'; 1_048_577]?;
    compare_rules(&rt, &mut too_long.as_slice(), Err(RulesFileFault::TooLong))?;
    compare_rules(&rt, &mut &too_long[1..], Ok(1))
}
