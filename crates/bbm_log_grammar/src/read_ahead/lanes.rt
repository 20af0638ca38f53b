//! Digits and bytes of labels, 16 and 32 at once.
//! Source: project's own choice.

ghost use Rattle.std.specs.Prelude.{◌≡◌, ◌≤◌};
ghost use Rattle.std.specs.List.{prefix_len};
ghost use Rattle.bbm_events.specs.Label.{is_label_byte};
ghost use Rattle.bbm_log_grammar.specs.Ahead.{first_set, worth_after};
ghost use Rattle.bbm_log_grammar.specs.Digits.{is_lower_digit};

use std::simd::prelude::*;

/// The number of the lowest bit of the mask that is set, or of its lanes where none is.
#[inline(always)]
fn first_set(mask: u64, lanes: u32) -> u32
    ensures { result ≡ first_set mask lanes }
{
    if mask == 0 {
        lanes
    } else {
        mask.trailing_zeros()
    }
}

/// How many lanes are hex digits, up to the first that is none.
#[inline(always)]
pub(crate) fn digit_run(lanes: u8x16) -> u32
    ensures run { result ≡ prefix_len (is_lower_digit 16) lanes }
    ensures few { result ≤ 16 }
{
    let no_digit = (lanes - u8x16::splat(b'0')).simd_ge(u8x16::splat(10));
    let no_letter = (lanes - u8x16::splat(b'a')).simd_ge(u8x16::splat(6));
    first_set((no_digit & no_letter).to_bitmask(), 16)
}

/// How many lanes can stand in a label, up to the first that can't.
#[inline(always)]
pub(crate) fn label_run(lanes: u8x32) -> u32
    ensures run { result ≡ prefix_len is_label_byte lanes }
    ensures few { result ≤ 32 }
{
    let no_letter = ((lanes | u8x32::splat(32)) - u8x32::splat(b'a')).simd_ge(u8x32::splat(26));
    let no_other = (lanes - u8x32::splat(b'-')).simd_ge(u8x32::splat(14));
    let no_line = lanes.simd_ne(u8x32::splat(b'_'));
    first_set((no_letter & no_other & no_line).to_bitmask(), 32)
}

/// The number that the lanes write in hex. Of a lane that is no digit some four bits count.
#[inline(always)]
pub(crate) fn number_in(lanes: u8x16) -> u64
    ensures { result ≡ worth_after 0 lanes }
{
    let worth = (lanes - u8x16::splat(48)).simd_min(lanes - u8x16::splat(87));
    let even = worth.swizzle::<8>([0, 2, 4, 6, 8, 10, 12, 14]);
    let odd = worth.swizzle::<8>([1, 3, 5, 7, 9, 11, 13, 15]);
    let pairs = even * u8x8::splat(16) + (odd & u8x8::splat(15));
    u64::from_be_bytes(pairs.to_array())
}
