//! The scan that reads one byte at a time.
ghost use Rattle.std.specs.Prelude.{◌≡◌, length};
ghost use Rattle.lc_census.specs.Scan.{after, after_all, HasRoom};

use crate::scan::Scan;

#[inline(always)]
fn scan_byte(scan: Scan, byte: u8) -> Scan
    requires { HasRoom scan 1 }
    ensures { result ≡ after scan byte }
{
    let mut next = scan;
    match byte {
        b'\n' => {
            next.lf += 1;
            if scan.after_cr {
                next.crlf += 1;
            } else if scan.is_blank {
                next.blank += 1;
            }
            next.after_cr = false;
            next.is_blank = true;
        }
        b'\r' => {
            next.cr += 1;
            if scan.is_blank {
                next.blank += 1;
            }
            next.after_cr = true;
            next.is_blank = true;
        }
        b' ' | b'\t' => next.after_cr = false,
        0 => {
            next.nul += 1;
            next.after_cr = false;
            next.is_blank = false;
        }
        _ => {
            next.after_cr = false;
            next.is_blank = false;
        }
    }
    next
}

/// Continues `scan` over all of `bytes`, one byte at a time, and returns the state of the scan at the end of `bytes`.
pub fn scan_scalar(scan: Scan, bytes: &[u8]) -> Scan
    requires { HasRoom scan (length bytes.now) }
    ensures { result ≡ after_all scan bytes.now }
{
    let mut so_far = scan;
    for byte in bytes {
        so_far = scan_byte(so_far, *byte);
    }
    so_far
}
