//! Rules and paths in one input.

ghost use Rattle.std.specs.Prelude.{◌≡◌};
ghost use Rattle.lc_paths.specs.Checks.Joined.{is_dashes, rules_part, paths_part};

use lc_glob::cut_at_first;

fn is_dashes(line: &[u8]) -> bool
    ensures { result ≡ is_dashes line.now }
{
    line == b"--".as_slice() || line == b"--\r".as_slice()
}

/// Splits an input at its first line of two dashes into rules and paths. Without such a line all of the input is rules.
pub(crate) fn split_joined(bytes: &[u8]) -> (&[u8], &[u8])
    ensures rules { result.0.now ≡ rules_part bytes.now }
    ensures paths { result.1.now ≡ paths_part bytes.now }
{
    let mut rest = bytes;
    'lines: loop {
        let (line, others) = cut_at_first(b'\n', rest);
        if is_dashes(line) {
            return (&bytes[..bytes.len() - rest.len()], others.unwrap_or(&[]));
        }
        let Some(after) = others else {
            return (bytes, &[]);
        };
        rest = after;
    }
}
