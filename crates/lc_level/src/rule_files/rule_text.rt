//! Reading a single file of rules, and keeping its text.

ghost use Rattle.std.specs.Prelude.{◌≡◌, ◌≢◌, IfOk};
ghost use Rattle.std.specs.Arc.{arc_value};
ghost use Rattle.lc_level.specs.RuleTextReads.{ReadsRuleBytes, ReadsRuleText, file_fault, bytes_fault};
ghost use Rattle.lc_rules.specs.IgnoreRules.{rules_of};
ghost use Rattle.lc_level.specs.declared.rule_files.rule_text.RulesFileFault.TheVariants.{TooLong, Memory};

use lc_io::{Source, WholeFault, new_buffer, read_whole};
use lc_rules::{IgnoreFile, MAX_RULE_BYTES, RuleFault};
use std::alloc::{AllocError, Global};
use std::io;
use std::marker::Model;
use std::sync::Arc;
use thiserror::Error;

/// Why a file could not be read as rules.
#[derive(Debug, Clone, Copy, PartialEq, Eq, Error)]
pub enum RulesFileFault {
    /// The file was not opened, or a read failed.
    #[error("cannot read rules")]
    Read,
    /// The file has over [`MAX_RULE_BYTES`] bytes.
    #[error("rules too long")]
    TooLong,
    /// There is no memory for the text or the rules.
    #[error("out of memory")]
    Memory,
}

impl From<AllocError> for RulesFileFault {
    ghost from_gives = { λ _ fault. fault ≡ Memory };

    fn from(_refused: AllocError) -> RulesFileFault {
        RulesFileFault::Memory
    }
}

/// The error of opening a file becomes `Memory` if an allocation failed, and `Read` otherwise.
impl From<io::Error> for RulesFileFault {
    ghost from_gives = { λ _ fault. fault ≢ TooLong };

    fn from(error: io::Error) -> RulesFileFault {
        match error.kind() {
            io::ErrorKind::OutOfMemory => RulesFileFault::Memory,
            _ => RulesFileFault::Read,
        }
    }
}

impl From<WholeFault> for RulesFileFault {
    ghost from_gives = { λ whole fault. fault ≡ file_fault whole };

    fn from(fault: WholeFault) -> RulesFileFault {
        match fault {
            WholeFault::Read => RulesFileFault::Read,
            WholeFault::TooLong => RulesFileFault::TooLong,
            WholeFault::Memory => RulesFileFault::Memory,
        }
    }
}

impl From<RuleFault> for RulesFileFault {
    ghost from_gives = { λ rule fault. fault ≡ bytes_fault rule };

    fn from(fault: RuleFault) -> RulesFileFault {
        match fault {
            RuleFault::TooLong => RulesFileFault::TooLong,
            RuleFault::Memory => RulesFileFault::Memory,
        }
    }
}

/// The text of an ignore file, with its rules.
#[derive(Drop)]
pub struct RuleText {
    bytes: Vec<u8>,
    rules: Arc<IgnoreFile, Global>,
}

impl Model for RuleText {
    ghost use Rattle.std.specs.Prelude.{◌≡◌, ℕ, List};
    ghost use Rattle.std.specs.Arc.{arc_value};
    ghost use Rattle.lc_rules.specs.IgnoreRules.{rules_of};

    ghost Value = { List ℕ };

    ghost view = { λ t. t.bytes.items };

    ghost invariant = { λ t. arc_value t.rules ≡ rules_of t.bytes.items };
}

impl RuleText {
    /// Returns the bytes of the file.
    pub fn bytes(&self) -> &[u8]
        ensures { result.now ≡ self.now }
    {
        &self.bytes
    }

    /// Returns the rules of the file.
    pub fn rules(&self) -> &IgnoreFile
        ensures { result.now ≡ rules_of self.now }
    {
        &self.rules
    }

    /// Shares the rules of the file with another owner, without a copy.
    pub(crate) fn shared_rules(&self) -> Result<Arc<IgnoreFile, Global>, AllocError>
        ensures { IfOk result (λ rules. arc_value rules ≡ rules_of self.now) }
    {
        Ok(Arc::try_clone(&self.rules)?)
    }
}

fn read_rule_bytes<S: Source>(alloc: Global, file: &mut S) -> Result<Vec<u8>, WholeFault>
    ensures { ReadsRuleBytes S.may_give file.old result file.new }
{
    let Ok(mut buffer) = new_buffer(alloc) else {
        return Err(WholeFault::Memory);
    };
    let mut bytes = Vec::new(alloc);
    match read_whole(&mut buffer, &mut bytes, file, MAX_RULE_BYTES) {
        Ok(()) => Ok(bytes),
        Err(fault) => Err(fault),
    }
}

/// Reads a file of rules to its end, or up to the first byte past [`MAX_RULE_BYTES`], and keeps its text.
///
/// The text is kept so that reports can show the line of a rule.
///
/// ```
/// let mut file = StdSource(fs::open(rt, ".gitignore")?);
/// let rules = read_rule_text(rt.alloc(), &mut file)?;
/// check_explained(rt.alloc(), b".gitignore", &rules, PathStyle::Escaped, &mut input, &mut out)?;
/// ```
pub fn read_rule_text<S: Source>(alloc: Global, file: &mut S) -> Result<RuleText, RulesFileFault>
    ensures { ReadsRuleText S.may_give file.old result file.new }
{
    let bytes = read_rule_bytes(alloc, file)?;
    let rules = IgnoreFile::read(alloc, &bytes)?;
    match Arc::new(alloc, rules) {
        Ok(rules) => Ok(RuleText { bytes, rules }),
        Err(_) => Err(RulesFileFault::Memory),
    }
}
