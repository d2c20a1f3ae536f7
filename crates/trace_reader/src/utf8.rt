ghost use Rattle.std.specs.Prelude.{◌≡◌, ◌≤◌, ◌+◌, ◌↔◌, map, length, IsTrue, MatchOption};
ghost use Rattle.std.specs.Str.{IsAscii, IsUtf8};
ghost use Rattle.std.specs.Simd.Lanes.{mask_l};
ghost use Rattle.trace_reader.specs.Ascii.{IsAsciiFrom, is_wide};

use simdutf8::is_utf8_baseline;
use std::simd::prelude::*;

// So many bytes are looked at in one step.
const STEP: usize = 16;

/// The bytes as a text where they are UTF-8 (RFC 3629), and `None` exactly where they are not.
#[inline(always)]
pub(crate) fn text_of(bytes: &[u8]) -> Option<&str>
    ensures { MatchOption result (¬ (IsUtf8 bytes.now)) (λ text. (text.now ≡ bytes.now) × IsUtf8 bytes.now) }
{
    if is_utf8(bytes) {
        // SAFETY: the bytes are UTF-8.
        Some(unsafe { str::from_utf8_unchecked(bytes) })
    } else {
        None
    }
}

// Most lines are ASCII alone. What `from_utf8` does to see that of a line takes about three times as many instructions, and of others it
// takes byte after byte.
#[inline(always)]
fn is_utf8(bytes: &[u8]) -> bool
    ensures { IsTrue result ↔ IsUtf8 bytes.now }
{
    is_ascii(bytes) || is_utf8_baseline(bytes)
}

// Whether all bytes are below 128. The last step begins where it ends with the bytes, so it may look again at some of them.
#[inline(always)]
fn is_ascii(bytes: &[u8]) -> bool
    ensures { IsTrue result → IsAscii bytes.now }
{
    if bytes.len() < STEP {
        return bytes.iter().all(|b| *b < 128);
    }
    let mut at = 0;
    'steps: while bytes.len() - at > STEP {
        if !is_ascii_from(bytes, at) {
            return false;
        }
        at += STEP;
    }
    is_ascii_from(bytes, bytes.len() - STEP)
}

// Whether the bytes of the step that begins here are below 128.
#[inline(always)]
fn is_ascii_from(bytes: &[u8], at: usize) -> bool
    requires { at + 16 ≤ length bytes.now }
    ensures { IsTrue result → IsAsciiFrom at bytes.now }
{
    wide_bytes(u8x16::from_slice(&bytes[at..])) == 0
}

// A bit for each byte, from the lowest on, which is set where the byte is 128 or more.
#[inline(always)]
fn wide_bytes(bytes: u8x16) -> u64
    requires { length bytes ≡ 16 }
    ensures { result ≡ mask_l (map is_wide bytes) }
{
    bytes.simd_ge(u8x16::splat(128)).to_bitmask()
}
