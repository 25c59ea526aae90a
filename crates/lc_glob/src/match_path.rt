//! Matching the segments of a pattern with the segments of a path.
//!
//! First, the pattern's segments after its last double star are compared one by one with the last segments of the path, from the end.
//! Second, the rest of the pattern is matched from the front. If a segment does not match there, the search goes back to the last double
//! star that it passed, but no further. A shortest match of the segments before a double star leaves the most segments of the path for the
//! rest of the pattern.

ghost use Rattle.std.specs.Prelude.{◌↔◌, ◌≤◌, ◌+◌, ◌-◌, IsTrue};
ghost use Rattle.lc_glob.specs.{Matches.MatchesPath, Path.{segments_of, segments_left}};
ghost use Rattle.lc_glob.specs.PathSteps.{PathEndStepIs, PathFrontStepIs, PathRetryIs, LeadsAt, cost_at, cost_after, front_cost_at};
ghost use Rattle.lc_glob.specs.{Costs.full_cost, Views.segments_ref_model};

use crate::candidate::Candidate;
use crate::match_segment::fits;
use crate::path_segment::{ByteTests, PathLeft};
use crate::segment_ref::{SegmentRef, SegmentsRef};

/// Returns whether the pattern's segments match the path. It is inlined, so that each kind of segments has its own code. To test the kind,
/// and to pass the segments on in memory, would cost more than to compare the last segment, which rejects most paths.
#[inline(always)]
pub(crate) fn matches_path(segments: SegmentsRef, path: &Candidate, tests: &mut ByteTests) -> bool
    ensures matches_path { IsTrue result ↔ MatchesPath (segments_ref_model segments.entry) (segments_of path.now) }
    ensures cost { tests.new.made ≤ tests.old.made + (full_cost (segments_ref_model segments.entry) (segments_of path.now) - 1) }
{
    let (above, name, lengths) = (path.above, path.last, path.lengths);
    let Some((last, front)) = segments.split_last() else {
        return false;
    };
    let SegmentRef::Plain(tokens) = last else {
        // This double star gives at least one segment, which may as well be the last.
        let all = PathCursor {
            segments,
            left: above,
        };
        return lengths.allow(segments) && all.leads_from_front(tests);
    };
    if !fits(tokens, name, tests) {
        return false;
    }
    let before = PathCursor {
        segments: front,
        left: above,
    };
    lengths.allow(front) && before.leads_from_end(tests)
}

/// A place in a match: the segments of a pattern and the segments of a path that are still to be compared.
#[derive(Clone, Copy)]
struct PathCursor<'p, 'n> {
    segments: SegmentsRef<'p>,
    left: PathLeft<'n>,
}

/// The result of comparing the last segment of a pattern with the last segment of a path.
enum PathEndStep<'p, 'n> {
    /// The pattern's last segment is a double star.
    DoubleStar,
    /// The pattern's last segment fits the path's last segment. This cursor has the segments before these two.
    Taken(PathCursor<'p, 'n>),
    /// The pattern's segments match what is left of the path: neither has a segment left, or only a double star is left of the pattern.
    Arrived,
    /// The pattern's segments don't match what is left of the path.
    Stuck,
}

/// The result of comparing the first segment of a pattern with the first segment of a path.
enum PathFrontStep<'p, 'n> {
    /// The pattern's first segment is a double star, and these segments are after it.
    DoubleStar(SegmentsRef<'p>),
    /// The pattern's first segment fits the path's first segment, and this cursor has the segments after both.
    Taken(PathCursor<'p, 'n>),
    /// The pattern's segments match what is left of the path: neither has a segment left, or only a double star is left of the pattern.
    Arrived,
    /// The pattern's segments don't match what is left of the path.
    Stuck,
}

impl<'p, 'n> PathCursor<'p, 'n> {
    /// Compares the last segment of the pattern with the last segment of the path.
    fn step_end(self, tests: &mut ByteTests) -> PathEndStep<'p, 'n>
        ensures is { PathEndStepIs result (segments_ref_model self.entry.segments) (segments_left self.entry.left.rest) }
        ensures cost { tests.new.made + cost_after result (cost_at self.entry) ≤ tests.old.made + cost_at self.entry }
    {
        let Some((segment, segments)) = self.segments.split_last() else {
            return if self.left.is_over() {
                PathEndStep::Arrived
            } else {
                PathEndStep::Stuck
            };
        };
        let SegmentRef::Plain(tokens) = segment else {
            return if segments.is_empty() {
                PathEndStep::Arrived
            } else {
                PathEndStep::DoubleStar
            };
        };
        let Some((left, name)) = self.left.split_last() else {
            return PathEndStep::Stuck;
        };
        if fits(tokens, name, tests) {
            PathEndStep::Taken(PathCursor { segments, left })
        } else {
            PathEndStep::Stuck
        }
    }

    /// Compares the first segment of the pattern with the first segment of the path.
    fn step_front(self, tests: &mut ByteTests) -> PathFrontStep<'p, 'n>
        ensures is { PathFrontStepIs result (segments_ref_model self.entry.segments) (segments_left self.entry.left.rest) }
        ensures cost { tests.new.made ≤ tests.old.made + front_cost_at self.entry }
    {
        let Some((segment, segments)) = self.segments.split_first() else {
            return if self.left.is_over() {
                PathFrontStep::Arrived
            } else {
                PathFrontStep::Stuck
            };
        };
        let SegmentRef::Plain(tokens) = segment else {
            return if segments.is_empty() {
                PathFrontStep::Arrived
            } else {
                PathFrontStep::DoubleStar(segments)
            };
        };
        let Some((name, left)) = self.left.split_first() else {
            return PathFrontStep::Stuck;
        };
        if fits(tokens, name, tests) {
            PathFrontStep::Taken(PathCursor { segments, left })
        } else {
            PathFrontStep::Stuck
        }
    }

    /// Returns a cursor that gives one more segment of the path to the double star before the pattern's segments, if one is left.
    fn retry(self) -> Option<Self>
        ensures { PathRetryIs self.entry result }
    {
        let (_, left) = self.left.split_first()?;
        Some(PathCursor {
            segments: self.segments,
            left,
        })
    }

    /// Returns whether the pattern's segments match what is left of the path. It compares from the end. A last double star may here match
    /// no segment.
    #[inline(never)]
    fn leads_from_end(self, tests: &mut ByteTests) -> bool
        ensures leads { IsTrue result ↔ LeadsAt self.entry }
        ensures cost { tests.new.made ≤ tests.old.made + cost_at self.entry }
    {
        let mut here = self;
        'ends: loop {
            match here.step_end(tests) {
                PathEndStep::DoubleStar => return here.leads_from_front(tests),
                PathEndStep::Taken(before) => here = before,
                PathEndStep::Arrived => return true,
                PathEndStep::Stuck => return false,
            }
        }
    }

    /// Returns whether the pattern's segments match what is left of the path. It compares from the front. A last double star may here match
    /// no segment.
    #[inline(never)]
    fn leads_from_front(self, tests: &mut ByteTests) -> bool
        ensures leads { IsTrue result ↔ LeadsAt self.entry }
        ensures cost { tests.new.made ≤ tests.old.made + cost_at self.entry }
    {
        let mut here = self;
        let mut double_star: Option<PathCursor> = None;
        'steps: loop {
            match here.step_front(tests) {
                PathFrontStep::DoubleStar(segments) => {
                    here = PathCursor {
                        segments,
                        left: here.left,
                    };
                    double_star = Some(here);
                }
                PathFrontStep::Taken(after) => here = after,
                PathFrontStep::Arrived => return true,
                PathFrontStep::Stuck => {
                    let Some(back) = double_star else {
                        return false;
                    };
                    let Some(next) = back.retry() else {
                        return false;
                    };
                    here = next;
                    double_star = Some(next);
                }
            }
        }
    }
}
