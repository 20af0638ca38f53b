//! Words, numbers and labels, appended to a line that has room for them.

ghost use Rattle.std.specs.Prelude.{◌≡◌, ◌+◌, ◌^◌, ◌≤◌, ◌<◌, false, ◌++◌, length, decimal};
ghost use Rattle.std.specs.Fmt.{digits, digit_glyph};
ghost use Rattle.arrayvec.specs.ArrayVec.{array_vec_len};
ghost use Rattle.bbm_events.specs.Spelling.{hex};
ghost use Rattle.bbm_log_grammar.specs.Ahead.{label_part};
ghost use Rattle.bbm_log_grammar.specs.Digits.{two, four};

use arrayvec::ArrayVec;
use bbm_events::Label;
use itoa::Buffer;

/// Appends the bytes of the piece, for which there has to be room.
#[inline]
pub fn add<const N: usize>(out: &mut ArrayVec<u8, N>, piece: &[u8])
    requires room { array_vec_len out.old + length piece.now ≤ N }
    ensures appended { out.new.items ≡ out.old.items ++ piece.now }
    ensures longer { array_vec_len out.new ≡ array_vec_len out.old + length piece.now }
{
    let _fits = out.try_extend_from_slice(piece);
}

/// Appends the one decimal spelling of the number, whatever its length.
#[inline(never)]
fn add_any_decimal<const N: usize>(out: &mut ArrayVec<u8, N>, n: u64)
    requires room { array_vec_len out.old + 20 ≤ N }
    ensures appended { out.new.items ≡ out.old.items ++ decimal n }
    ensures longer { array_vec_len out.new ≤ array_vec_len out.old + 20 }
{
    let mut buffer = Buffer::new();
    add(out, buffer.format(n).as_bytes());
}

/// Appends the one decimal spelling of the number, which has at most 20 digits.
#[inline]
#[tactic(auto, using(crate::proofs::Spelled::decimal_single))]
pub fn add_decimal<const N: usize>(out: &mut ArrayVec<u8, N>, n: u64)
    requires room { array_vec_len out.old + 20 ≤ N }
    ensures appended { out.new.items ≡ out.old.items ++ decimal n }
    ensures longer { array_vec_len out.new ≤ array_vec_len out.old + 20 }
{
    if n < 10 {
        out.push(b'0' + n as u8);
    } else {
        add_any_decimal(out, n);
    }
}

/// The lower-case digit of a value below 16.
#[inline(always)]
fn hex_digit(value: u64) -> u8
    requires { value < 16 }
    ensures { result ≡ digit_glyph false value }
{
    match value {
        0 => b'0',
        1 => b'1',
        2 => b'2',
        3 => b'3',
        4 => b'4',
        5 => b'5',
        6 => b'6',
        7 => b'7',
        8 => b'8',
        9 => b'9',
        10 => b'a',
        11 => b'b',
        12 => b'c',
        13 => b'd',
        14 => b'e',
        _ => b'f',
    }
}

/// The two digits of each value below 2^8, one pair behind another.
const PAIRS: [u8; 512] = *b"000102030405060708090a0b0c0d0e0f\
      101112131415161718191a1b1c1d1e1f\
      202122232425262728292a2b2c2d2e2f\
      303132333435363738393a3b3c3d3e3f\
      404142434445464748494a4b4c4d4e4f\
      505152535455565758595a5b5c5d5e5f\
      606162636465666768696a6b6c6d6e6f\
      707172737475767778797a7b7c7d7e7f\
      808182838485868788898a8b8c8d8e8f\
      909192939495969798999a9b9c9d9e9f\
      a0a1a2a3a4a5a6a7a8a9aaabacadaeaf\
      b0b1b2b3b4b5b6b7b8b9babbbcbdbebf\
      c0c1c2c3c4c5c6c7c8c9cacbcccdcecf\
      d0d1d2d3d4d5d6d7d8d9dadbdcdddedf\
      e0e1e2e3e4e5e6e7e8e9eaebecedeeef\
      f0f1f2f3f4f5f6f7f8f9fafbfcfdfeff";

/// Appends the two digits of a value below 2^8, with its leading zero.
#[inline(always)]
#[tactic(auto, using(crate::proofs::Spelled::pair_at))]
fn add_two<const N: usize>(out: &mut ArrayVec<u8, N>, value: u64)
    requires small { value < 256 }
    requires room { array_vec_len out.old + 2 ≤ N }
    ensures appended { out.new.items ≡ out.old.items ++ two value }
    ensures longer { array_vec_len out.new ≡ array_vec_len out.old + 2 }
{
    let from = value as usize * 2;
    add(out, &[PAIRS[from], PAIRS[from + 1]]);
}

/// Appends the four digits of a value below 2^16, with its leading zeros.
#[inline(always)]
fn add_four<const N: usize>(out: &mut ArrayVec<u8, N>, value: u64)
    requires small { value < 65536 }
    requires room { array_vec_len out.old + 4 ≤ N }
    ensures appended { out.new.items ≡ out.old.items ++ four value }
    ensures longer { array_vec_len out.new ≡ array_vec_len out.old + 4 }
{
    add_two(out, value / 256);
    add_two(out, value % 256);
}

/// Appends the digits of a number below 2^16, without leading zeros.
#[inline(always)]
#[tactic(auto, using(crate::proofs::Spelled::first_digits))]
fn add_first<const N: usize>(out: &mut ArrayVec<u8, N>, n: u64)
    requires small { n < 65536 }
    requires room { array_vec_len out.old + 4 ≤ N }
    ensures appended { out.new.items ≡ out.old.items ++ digits 16 false n }
    ensures longer { array_vec_len out.new ≤ array_vec_len out.old + 4 }
{
    if n < 16 {
        out.push(hex_digit(n));
    } else if n < 256 {
        add_two(out, n);
    } else if n < 4096 {
        out.push(hex_digit(n / 256));
        add_two(out, n % 256);
    } else {
        add_four(out, n);
    }
}

/// Appends the digits of a number below 2^32, without leading zeros.
#[inline(always)]
#[tactic(auto, using(crate::proofs::Spelled::four_more))]
fn add_low<const N: usize>(out: &mut ArrayVec<u8, N>, n: u64)
    requires small { n < 2 ^ 32 }
    requires room { array_vec_len out.old + 8 ≤ N }
    ensures appended { out.new.items ≡ out.old.items ++ digits 16 false n }
    ensures longer { array_vec_len out.new ≤ array_vec_len out.old + 8 }
{
    if n < 65536 {
        add_first(out, n);
    } else {
        add_first(out, n / 65536);
        add_four(out, n % 65536);
    }
}

/// Appends the digits of the number in base 16, at most 16, without leading zeros.
#[inline(always)]
#[tactic(auto, using(crate::proofs::Spelled::eight_more))]
pub(crate) fn add_digits<const N: usize>(out: &mut ArrayVec<u8, N>, n: u64)
    requires room { array_vec_len out.old + 16 ≤ N }
    ensures appended { out.new.items ≡ out.old.items ++ digits 16 false n }
    ensures longer { array_vec_len out.new ≤ array_vec_len out.old + 16 }
{
    let high = n / 0x1_0000_0000;
    if high == 0 {
        add_low(out, n);
    } else {
        add_low(out, high);
        add_four(out, n / 65536 % 65536);
        add_four(out, n % 65536);
    }
}

/// Appends the one hex spelling of the number, `0x` and at most 16 digits.
pub fn add_hex<const N: usize>(out: &mut ArrayVec<u8, N>, n: u64)
    requires room { array_vec_len out.old + 18 ≤ N }
    ensures appended { out.new.items ≡ out.old.items ++ hex n }
    ensures longer { array_vec_len out.new ≤ array_vec_len out.old + 18 }
{
    add(out, b"0x");
    add_digits(out, n);
}

/// Appends a space, the mark `@` and the label, at most 34 bytes, where there is one; nothing where there is none.
#[tactic(auto, using(bbm_events::proofs::Labels::label_length))]
pub fn add_label<const N: usize>(out: &mut ArrayVec<u8, N>, label: Option<Label>)
    requires room { array_vec_len out.old + 34 ≤ N }
    ensures appended { out.new.items ≡ out.old.items ++ label_part label }
    ensures longer { array_vec_len out.new ≤ array_vec_len out.old + 34 }
{
    if let Some(label) = label {
        add(out, b" @");
        add(out, label.bytes());
    }
}
