//! Paths relative to the directory of a rule file.

ghost use Rattle.std.specs.Prelude.{◌≡◌};
ghost use Rattle.std.specs.List.{after_first};
ghost use Rattle.lc_glob.specs.Bytes.{slash};
ghost use Rattle.lc_glob.specs.Pieces.{is_byte};
ghost use Rattle.lc_rules.specs.Verdicts.{below};

use lc_glob::cut_at_first;

/// A path, and the rest of it after its first `depth` segments. For the files of a chain, the path is cut from the top down, and `at` moves
/// on from the directory of one file to the directory of the next file. So a path is read once for all files of the chain.
#[derive(Clone, Copy)]
pub(crate) struct PathBelow<'a> {
    pub(crate) path: &'a [u8],
    pub(crate) depth: u32,
    pub(crate) rest: &'a [u8],
    ghost cut: { rest.now ≡ below depth path.now },
}

impl<'a> PathBelow<'a> {
    pub(crate) fn new(path: &'a [u8]) -> PathBelow<'a>
        ensures { result.path.now ≡ path.now }
    {
        PathBelow {
            path,
            depth: 0,
            rest: path,
        }
    }

    /// Moves on to the part of the path that is below a file's directory. `depth` is the number of segments of that directory's path.
    pub(crate) fn at(self, depth: u32) -> PathBelow<'a>
        ensures path { result.path.now ≡ self.entry.path.now }
        ensures depth { result.depth ≡ depth }
    {
        if depth < self.depth {
            return PathBelow {
                path: self.path,
                depth,
                rest: below(self.path, depth),
            };
        }
        PathBelow {
            path: self.path,
            depth,
            rest: below(self.rest, depth - self.depth),
        }
    }
}

/// Returns a path without its first `depth` segments.
fn below<'a>(path: &'a [u8], depth: u32) -> &'a [u8]
    ensures { result.now ≡ below depth path.now }
{
    let mut levels = depth;
    let mut rest = path;
    'depths: while levels > 0 {
        rest = after_slash(rest);
        levels -= 1;
    }
    rest
}

fn after_slash<'a>(path: &'a [u8]) -> &'a [u8]
    ensures { result.now ≡ after_first (is_byte slash) path.now }
{
    match cut_at_first(b'/', path).1 {
        None => &[],
        Some(rest) => rest,
    }
}
