//! Labels of event lines.

ghost use Rattle.std.specs.Prelude.{◌≡◌, true, if◌then◌else◌, Some, None};
ghost use Rattle.std.specs.List.{list_all};
ghost use Rattle.bbm_events.specs.Label as labels;

use std::marker::Model;

/// Where an event comes from, as the log says it: 1 to 32 bytes, each a letter, a digit or one of `.`, `/`,
/// `:`, `_` and `-`. It lies in the value itself, and takes no memory. A clause sees the list of its bytes.
/// Source: project's own choice.
#[derive(Clone, Copy, PartialEq, Eq)]
pub struct Label {
    bytes: [u8; 32],
    len: usize,
}

impl Model for Label {
    ghost use Rattle.std.specs.Prelude.{◌≡◌, ℕ, List, true, length, take};
    ghost use Rattle.bbm_events.specs.Label.{is_label, padded};

    ghost Value = { List ℕ };

    ghost view = { λ l. take l.len l.bytes };

    ghost invariant = { λ l. (is_label (take l.len l.bytes) ≡ true) × (length (take l.len l.bytes) ≡ l.len)
        × (padded (take l.len l.bytes) ≡ l.bytes) };

    ghost inverse = { λ text. record { bytes = padded text; len = length text } };

    ghost inverse_ok = { λ l h i. record {
      bytes = h.2 i;
      len = h.1 i;
    } };
}

/// Whether each byte can stand in a label.
const IN_LABEL: [bool; 256] = [
    false, false, false, false, false, false, false, false, false, false, false, false, false,
    false, false, false, false, false, false, false, false, false, false, false, false, false,
    false, false, false, false, false, false, false, false, false, false, false, false, false,
    false, false, false, false, false, false, true, true, true, true, true, true, true, true, true,
    true, true, true, true, true, false, false, false, false, false, false, true, true, true, true,
    true, true, true, true, true, true, true, true, true, true, true, true, true, true, true, true,
    true, true, true, true, true, true, false, false, false, false, true, false, true, true, true,
    true, true, true, true, true, true, true, true, true, true, true, true, true, true, true, true,
    true, true, true, true, true, true, true, false, false, false, false, false, false, false,
    false, false, false, false, false, false, false, false, false, false, false, false, false,
    false, false, false, false, false, false, false, false, false, false, false, false, false,
    false, false, false, false, false, false, false, false, false, false, false, false, false,
    false, false, false, false, false, false, false, false, false, false, false, false, false,
    false, false, false, false, false, false, false, false, false, false, false, false, false,
    false, false, false, false, false, false, false, false, false, false, false, false, false,
    false, false, false, false, false, false, false, false, false, false, false, false, false,
    false, false, false, false, false, false, false, false, false, false, false, false, false,
    false, false, false, false, false, false, false, false, false, false, false, false, false,
    false, false, false, false, false, false, false, false, false,
];

/// Whether the byte can stand in a label.
#[inline]
#[tactic(auto, using(crate::proofs::Labels::told))]
fn is_label_byte(byte: u8) -> bool
    ensures { result ≡ labels.is_label_byte byte }
{
    IN_LABEL[byte as usize]
}

/// Whether each of the bytes can stand in a label. They are asked one at a time.
fn are_few_label_bytes(bytes: &[u8]) -> bool
    ensures { result ≡ list_all labels.is_label_byte bytes.now }
{
    bytes.iter().all(|byte| is_label_byte(*byte))
}

/// Whether each of the bytes can stand in a label. They are asked four at a time.
#[inline]
#[tactic(auto, using(crate::proofs::Labels::first_four))]
fn are_label_bytes(bytes: &[u8]) -> bool
    ensures { result ≡ list_all labels.is_label_byte bytes.now }
{
    let mut left = bytes;
    while let [a, b, c, d, rest @ ..] = left {
        if !(is_label_byte(*a) & is_label_byte(*b) & is_label_byte(*c) & is_label_byte(*d)) {
            return false;
        }
        left = rest;
    }
    are_few_label_bytes(left)
}

#[tactic(auto, using(crate::proofs::Labels::kept))]
impl Label {
    /// Whether the bytes are those of a label: 1 to 32, each a letter, a digit or one of `.`, `/`, `:`,
    /// `_` and `-`.
    #[inline]
    pub fn is_text(bytes: &[u8]) -> bool
        ensures { result ≡ labels.is_label bytes.now }
    {
        !bytes.is_empty() && bytes.len() <= 32 && are_label_bytes(bytes)
    }

    /// The label of these bytes; None exactly where they aren't 1 to 32 bytes, each a letter, a digit or
    /// one of `.`, `/`, `:`, `_` and `-`.
    pub fn new(bytes: &[u8]) -> Option<Label>
        ensures { result ≡ (if labels.is_label bytes.now then Some bytes.now else None) }
    {
        if !Label::is_text(bytes) {
            return None;
        }
        let len = bytes.len();
        let mut kept = [0; 32];
        kept[..len].copy_from_slice(bytes);
        Some(Label { bytes: kept, len })
    }

    /// The bytes of the label, 1 to 32.
    pub fn bytes(&self) -> &[u8]
        ensures bytes { result.now ≡ self.now }
        ensures label { labels.is_label result.now ≡ true }
    {
        &self.bytes[..self.len]
    }
}
