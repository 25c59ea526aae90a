//! Views of patterns. A view shows with which part of a path a pattern is matched: the last segment alone, or all segments.

ghost use Rattle.std.specs.Prelude.{◌≡◌, ◌≤◌, ◌+◌, Bool, length};
ghost use Rattle.lc_glob.specs.{Above.{names_of, TellMatches, has_nested_wildcards}, Costs.full_cost};
ghost use Rattle.lc_glob.specs.{Views.{pattern_view_model, simple_model}, declared.simple_pattern.SimpleKind.TheVariants.Other};

use crate::match_above::{has_nested_wildcards, keep, match_above};
use crate::path_segment::{ByteTests, PathNames};
use crate::segment_ref::{SegmentsRef, TokensRef};
use crate::segments_left::SegmentsLeft;
use crate::simple_pattern::{RareKind, SimpleKind};
use std::marker::Model;

/// A view of a pattern, simple or not: whether it is for directories only, and what part of a path it is matched with.
#[derive(Drop)]
pub(crate) struct PatternView<'p> {
    pub(crate) is_dir_only: bool,
    pub(crate) kind: KindRef<'p>,
}

/// The part of a path that a pattern is matched with, and the tokens or segments that this part must match.
#[derive(Clone, Copy)]
pub(crate) enum KindRef<'p> {
    /// The pattern is dead: it matches no path.
    Dead,
    /// The pattern is matched with the last segment of a path alone, which must fit these tokens.
    LastSegment(TokensRef<'p>),
    /// The pattern is matched with all segments of a path, which must match these segments.
    WholePath(SegmentsRef<'p>),
}

impl<'p> Model for PatternView<'p> {
    ghost use Rattle.lc_glob.specs.Patterns.{PatternModel};

    ghost Value = { PatternModel };

    ghost use Rattle.lc_glob.specs.Views.{pattern_view_model};

    ghost view = { λ p. pattern_view_model p.is_dir_only p.kind };
}

impl<'p> KindRef<'p> {
    fn of_other(other: RareKind, bytes: &'p [u8]) -> Self
        ensures { (is_dir_only : Bool) → pattern_view_model is_dir_only result ≡ simple_model is_dir_only (Other other) bytes.now }
    {
        let left = SegmentsLeft::of(bytes);
        match other {
            RareKind::Dead => KindRef::Dead,
            RareKind::LastSegment => KindRef::LastSegment(TokensRef::Bytes(bytes)),
            RareKind::Exact => KindRef::WholePath(SegmentsRef::Exact(left)),
            RareKind::Ends => KindRef::WholePath(SegmentsRef::Ends(left)),
            RareKind::WholePath => KindRef::WholePath(SegmentsRef::Bytes(left)),
        }
    }
}

impl<'p> PatternView<'p> {
    /// Returns the view of a simple pattern.
    pub(crate) fn of_simple(is_dir_only: bool, kind: SimpleKind, bytes: &'p [u8]) -> Self
        ensures { result ≡ simple_model is_dir_only kind bytes.now }
    {
        let kind_ref = match kind {
            SimpleKind::Suffix { is_whole: true } => KindRef::LastSegment(TokensRef::Literal(
                bytes,
            )),
            SimpleKind::Suffix { is_whole: false } => KindRef::LastSegment(TokensRef::Suffix(
                bytes,
            )),
            SimpleKind::Other(other) => KindRef::of_other(other, bytes),
        };
        PatternView {
            is_dir_only,
            kind: kind_ref,
        }
    }

    pub(crate) fn is_dead(&self) -> bool
        ensures { result ≡ self.now.is_dead }
    {
        matches!(self.kind, KindRef::Dead)
    }

    pub(crate) fn is_anchored(&self) -> bool
        ensures { result ≡ self.now.is_anchored }
    {
        matches!(self.kind, KindRef::WholePath(_))
    }

    pub(crate) fn has_nested_wildcards(&self) -> bool
        ensures { result ≡ has_nested_wildcards self.now }
    {
        match self.kind {
            KindRef::WholePath(segments) => has_nested_wildcards(segments),
            _ => false,
        }
    }

    pub(crate) fn flag_directories(
        &self,
        names: PathNames,
        flags: &mut [bool],
        tests: &mut ByteTests,
    )
        requires { length names.names.now ≡ length flags.old }
        ensures len { length flags.new ≡ length flags.old }
        ensures told { TellMatches self.now (names_of names.entry.names.now) flags.new }
        ensures cost { tests.new.made ≤ tests.old.made + full_cost self.now.segments (names_of names.entry.names.now) }
    {
        match self.kind {
            KindRef::Dead => flags.fill(false),
            KindRef::LastSegment(tokens) => {
                flags.fill(true);
                keep(flags, names, tokens, tests);
            }
            KindRef::WholePath(segments) => match_above(segments, names, flags, tests),
        }
    }
}
