//! The order of a report's errors, and the order of its skipped entries. If several errors or skipped entries have the same path, their
//! other fields decide.
ghost use Rattle.std.specs.Prelude.{◌≡◌};
ghost use Rattle.lc_level.specs.Reasons.{reason_model};
ghost use Rattle.lc_reports.specs.LineOrder.{attribute_word, fault_cmp, kind_place, reason_cmp, rule_depth, rule_line, rule_place};
ghost use Rattle.lc_reports.specs.LineOrder.{skipped_cmp, source_place};
ghost use Rattle.lc_rules.specs.Verdicts.{depth_at};

use lc_level::Reason;
use lc_rules::RuleSource;
use lc_tree::{Kind, OtherKind};
use lc_walk::{FaultLine, SkippedLine};
use std::cmp::Ordering;

/// Compares errors by their paths, then by their words, such as `read`.
#[tactic(auto, unfolding(crate::specs::LineOrder::fault_cmp))]
pub(crate) fn compare_faults(a: &FaultLine, b: &FaultLine) -> Ordering
    ensures { result ≡ fault_cmp a.now b.now }
{
    let by_path = a.path.as_slice().cmp(&b.path.as_slice());
    by_path.then(a.word.as_str().cmp(b.word.as_str()))
}

/// Returns the place of a rule's file in the order of the rule files of one directory.
fn source_rank(source: RuleSource) -> u32
    ensures { result ≡ source_place source }
{
    match source {
        RuleSource::CommandLine => 0,
        RuleSource::ExcludeFrom => 1,
        RuleSource::InfoExclude(_) => 2,
        RuleSource::Gitignore(_) => 3,
    }
}

/// Returns the depth of the directory that has a rule's file.
fn source_depth(source: RuleSource) -> u32
    ensures { result ≡ depth_at source }
{
    match source {
        RuleSource::CommandLine | RuleSource::ExcludeFrom => 0,
        RuleSource::InfoExclude(depth) | RuleSource::Gitignore(depth) => depth,
    }
}

fn rule_depth(reason: &Reason) -> u32
    ensures { result ≡ rule_depth (reason_model reason.now) }
{
    match reason.rule() {
        Some((source, _)) => source_depth(source),
        None => 0,
    }
}

fn rule_rank(reason: &Reason) -> u32
    ensures { result ≡ rule_place (reason_model reason.now) }
{
    match reason.rule() {
        Some((source, _)) => source_rank(source),
        None => 0,
    }
}

fn rule_line(reason: &Reason) -> u32
    ensures { result ≡ rule_line (reason_model reason.now) }
{
    match reason.rule() {
        Some((_, line)) => line,
        None => 0,
    }
}

fn attribute_word(reason: &Reason) -> &[u8]
    ensures { result.now ≡ attribute_word (reason_model reason.entry.now) }
{
    match reason.attribute() {
        Some(word) => word,
        None => &[],
    }
}

fn kind_rank(kind: Kind) -> u32
    ensures { result ≡ kind_place kind }
{
    match kind {
        Kind::File => 0,
        Kind::Dir => 1,
        Kind::Other(OtherKind::Special) => 2,
        Kind::Other(OtherKind::Mounted) => 3,
    }
}

/// Compares reasons by their words, such as `rule`; then by the depth and the place of the rule's file; then by the rule's line; and last
/// by the attribute.
#[tactic(auto, unfolding(crate::specs::LineOrder::reason_cmp))]
fn compare_reasons(a: &Reason, b: &Reason) -> Ordering
    ensures { result ≡ reason_cmp (reason_model a.now) (reason_model b.now) }
{
    let by_word = a.word().cmp(b.word());
    let by_depth = rule_depth(a).cmp(&rule_depth(b));
    let by_file = rule_rank(a).cmp(&rule_rank(b));
    let by_line = rule_line(a).cmp(&rule_line(b));
    let by_attribute = attribute_word(a).cmp(&attribute_word(b));
    let by_rule = by_depth.then(by_file.then(by_line.then(by_attribute)));
    by_word.then(by_rule)
}

/// Compares skipped entries by their paths, then by the reasons why they were skipped, then by their kinds.
#[tactic(auto, unfolding(crate::specs::LineOrder::skipped_cmp))]
pub(crate) fn compare_skipped(a: &SkippedLine, b: &SkippedLine) -> Ordering
    ensures { result ≡ skipped_cmp a.now b.now }
{
    let by_path = a.path.as_slice().cmp(&b.path.as_slice());
    let by_reason = compare_reasons(&a.reason, &b.reason);
    let by_kind = kind_rank(a.kind).cmp(&kind_rank(b.kind));
    by_path.then(by_reason.then(by_kind))
}
