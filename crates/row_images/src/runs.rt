//! Runs of bytes of one class; the search tests 16 bytes at a time.
ghost use Rattle.std.specs.Prelude.{◌≡◌, ◌+◌, ◌≤◌, ℕ, Bool, length};
ghost use Rattle.std.specs.Char.{is_ascii_digit};
ghost use Rattle.memchr.specs.Find.{IsFirstByte, is_byte};
ghost use Rattle.row_images.specs.Values.{is_lower_digit};
ghost use Rattle.row_images.specs.Runs.{is_word_byte, is_line_byte, first_set, MarksStops, IsRunAt};

use std::simd::prelude::*;

/// How many bytes one step tests.
const LANES: usize = 16;

/// How many bytes one step tests when fewer than `LANES` are left.
const FEW_LANES: usize = 8;

/// A class of bytes.
pub(crate) trait ByteClass {
    ghost holds: { ℕ → Bool };

    /// Whether a byte is of the class.
    fn has(byte: u8) -> bool
        ensures { result ≡ holds byte };

    /// A bit for each of the 16 bytes at a place, set if the byte is not of the class.
    fn stops(text: &[u8], at: usize) -> u64
        requires { at + 16 ≤ length text.now }
        ensures { MarksStops holds text.now at 16 result };

    /// A bit for each of the 8 bytes at a place, set if the byte is not of the class.
    fn few_stops(text: &[u8], at: usize) -> u64
        requires { at + 8 ≤ length text.now }
        ensures { MarksStops holds text.now at 8 result };
}

/// The place of the lowest bit that is set, or the number of lanes.
#[inline(always)]
fn first_set(mask: u64, lanes: usize) -> usize
    ensures { result ≡ first_set mask lanes }
{
    if mask == 0 {
        lanes
    } else {
        mask.trailing_zeros() as usize
    }
}

/// The bytes of a word: all but the blank.
pub(crate) struct WordBytes;

impl ByteClass for WordBytes {
    ghost holds = { is_word_byte };

    #[inline(always)]
    fn has(byte: u8) -> bool {
        byte != b' '
    }

    #[inline(always)]
    fn stops(text: &[u8], at: usize) -> u64 {
        let bytes = u8x16::from_slice(&text[at..]);
        bytes.simd_eq(u8x16::splat(b' ')).to_bitmask()
    }

    #[inline(always)]
    fn few_stops(text: &[u8], at: usize) -> u64 {
        let bytes = u8x8::from_slice(&text[at..]);
        bytes.simd_eq(u8x8::splat(b' ')).to_bitmask()
    }
}

/// The bytes of a line: all but the line feed.
pub(crate) struct LineBytes;

impl ByteClass for LineBytes {
    ghost holds = { is_line_byte };

    #[inline(always)]
    fn has(byte: u8) -> bool {
        byte != b'\n'
    }

    #[inline(always)]
    fn stops(text: &[u8], at: usize) -> u64 {
        let bytes = u8x16::from_slice(&text[at..]);
        bytes.simd_eq(u8x16::splat(b'\n')).to_bitmask()
    }

    #[inline(always)]
    fn few_stops(text: &[u8], at: usize) -> u64 {
        let bytes = u8x8::from_slice(&text[at..]);
        bytes.simd_eq(u8x8::splat(b'\n')).to_bitmask()
    }
}

/// The decimal digits.
pub(crate) struct DecimalDigits;

impl ByteClass for DecimalDigits {
    ghost holds = { is_ascii_digit };

    #[inline(always)]
    fn has(byte: u8) -> bool {
        byte.is_ascii_digit()
    }

    #[inline(always)]
    fn stops(text: &[u8], at: usize) -> u64 {
        let from_zero = u8x16::from_slice(&text[at..]) - u8x16::splat(b'0');
        from_zero.simd_ge(u8x16::splat(10)).to_bitmask()
    }

    #[inline(always)]
    fn few_stops(text: &[u8], at: usize) -> u64 {
        let from_zero = u8x8::from_slice(&text[at..]) - u8x8::splat(b'0');
        from_zero.simd_ge(u8x8::splat(10)).to_bitmask()
    }
}

/// The digits that lower case writes bytes with.
pub(crate) struct LowerDigits;

impl ByteClass for LowerDigits {
    ghost holds = { is_lower_digit };

    #[inline(always)]
    fn has(byte: u8) -> bool {
        ((48 <= byte) & (byte <= 57)) | ((97 <= byte) & (byte <= 102))
    }

    #[inline(always)]
    fn stops(text: &[u8], at: usize) -> u64 {
        let bytes = u8x16::from_slice(&text[at..]);
        let no_digit = (bytes - u8x16::splat(b'0')).simd_ge(u8x16::splat(10));
        let no_letter = (bytes - u8x16::splat(b'a')).simd_ge(u8x16::splat(6));
        (no_digit & no_letter).to_bitmask()
    }

    #[inline(always)]
    fn few_stops(text: &[u8], at: usize) -> u64 {
        let bytes = u8x8::from_slice(&text[at..]);
        let no_digit = (bytes - u8x8::splat(b'0')).simd_ge(u8x8::splat(10));
        let no_letter = (bytes - u8x8::splat(b'a')).simd_ge(u8x8::splat(6));
        (no_digit & no_letter).to_bitmask()
    }
}

/// Where the bytes of a class that begin at a place end.
#[inline(always)]
pub(crate) fn run_end<C: ByteClass>(text: &[u8], at: usize) -> usize
    requires { at ≤ length text.now }
    ensures { IsRunAt C.holds text.now at result }
{
    let mut end = at;
    'blocks: while text.len() - end >= LANES {
        let stops = C::stops(text, end);
        if stops != 0 {
            return end + first_set(stops, LANES);
        }
        end += LANES;
    }
    if text.len() - end >= FEW_LANES {
        end += first_set(C::few_stops(text, end), FEW_LANES);
    }
    while end < text.len() && C::has(text[end]) {
        end += 1;
    }
    end
}

/// The first line feed of a text.
pub fn first_line_feed(text: &[u8]) -> Option<usize>
    ensures { IsFirstByte (is_byte 10) text.now result }
{
    let end = run_end::<LineBytes>(text, 0);
    if end < text.len() { Some(end) } else { None }
}
