//! The scan that reads vectors of 64 bytes. Each comparison of a vector gives a word, which has one bit for each byte.
ghost use Rattle.std.specs.Prelude.{◌≡◌, ◌≤◌, ◌||◌, ◌==◌, length};
ghost use Rattle.std.specs.Int.RustNames.{count_ones};
ghost use Rattle.lc_census.specs.Bytes.{is_lf, is_cr, is_end, is_space, is_nul};
ghost use Rattle.lc_census.specs.Scan.{after_all, HasRoom};
ghost use Rattle.lc_census.specs.Lanes.{Bits, Marks, blank_before, cr_before};

use crate::scalar::scan_scalar;
use crate::scan::Scan;
use std::simd::prelude::*;

#[inline(always)]
fn equal_to(v: u8x64, byte: u8) -> u64
    ensures { Marks result (λ x. x == byte) v }
{
    v.simd_eq(u8x64::splat(byte)).to_bitmask()
}

#[inline(always)]
fn equal_to_either(v: u8x64, one: u8, other: u8) -> u64
    ensures { Marks result (λ x. x == one || x == other) v }
{
    (v.simd_eq(u8x64::splat(one)) | v.simd_eq(u8x64::splat(other))).to_bitmask()
}

// Marks the bytes before which the line so far is blank: those after an end, and those with only spaces in between. `first` is whether byte
// 0 is such a byte. The carry of a sum goes on through the spaces after an end or after the block's start.
#[inline(always)]
fn blank_befores(first: bool, v: u8x64, ends: u64, space: u64) -> u64
    requires ends { Marks ends is_end v }
    requires space { Marks space is_space v }
    ensures { Bits result (blank_before first v) }
{
    let starts = (ends << 1) | first as u64;
    let lone = starts & space;
    starts | (lone.wrapping_add(space) ^ lone ^ space)
}

// Marks the bytes right after a CR. `first` is whether byte 0 is one.
#[inline(always)]
fn cr_befores(first: bool, v: u8x64, cr: u64) -> u64
    requires { Marks cr is_cr v }
    ensures { Bits result (cr_before first v) }
{
    (cr << 1) | first as u64
}

#[inline(always)]
fn ones(x: u64) -> u64
    ensures value { result ≡ count_ones x }
    ensures bound { result ≤ 64 }
{
    u64::from(x.count_ones())
}

// Goes on over a block, by its bytes that are LF, CR, a space or a tab, and NUL. `v` is for the contract alone.
#[inline(always)]
fn scan_marks(scan: &mut Scan, v: u8x64, lf: u64, cr: u64, space: u64, nul: u64)
    requires room { HasRoom scan.old 64 }
    requires lf { Marks lf is_lf v }
    requires cr { Marks cr is_cr v }
    requires space { Marks space is_space v }
    requires nul { Marks nul is_nul v }
    requires long { length v ≡ 64 }
    ensures { scan.new ≡ after_all scan.old v }
{
    let ends = lf | cr;
    let blank = blank_befores(scan.is_blank, v, ends, space);
    let crlf = lf & cr_befores(scan.after_cr, v, cr);
    let blanks = blank & (cr | (lf ^ crlf));
    scan.lf += ones(lf);
    scan.cr += ones(cr);
    scan.crlf += ones(crlf);
    scan.blank += ones(blanks);
    scan.nul += ones(nul);
    scan.after_cr = cr >> 63 == 1;
    scan.is_blank = (ends | (blank & space)) >> 63 == 1;
}

// Goes on over a block. Most blocks of a text have no CR and no NUL, and are spared the work for them.
#[inline(always)]
fn scan_block(scan: &mut Scan, v: u8x64)
    requires { HasRoom scan.old 64 }
    ensures { scan.new ≡ after_all scan.old v }
{
    let lf = equal_to(v, b'\n');
    let space = equal_to_either(v, b' ', b'\t');
    if equal_to_either(v, b'\r', 0) == 0 {
        scan_marks(scan, v, lf, 0, space, 0);
    } else {
        scan_marks(scan, v, lf, equal_to(v, b'\r'), space, equal_to(v, 0));
    }
}

/// Continues `scan` over all of `bytes`, 64 bytes at a time, and returns the state of the scan at the end of `bytes`. If fewer than 64
/// bytes are left, these bytes are read one at a time.
pub fn scan_simd(scan: Scan, bytes: &[u8]) -> Scan
    requires { HasRoom scan (length bytes.now) }
    ensures { result ≡ after_all scan bytes.now }
{
    let mut so_far = scan;
    let mut at = 0;
    while 64 <= bytes.len() - at {
        scan_block(&mut so_far, u8x64::from_slice(&bytes[at..]));
        at += 64;
    }
    scan_scalar(so_far, &bytes[at..])
}
