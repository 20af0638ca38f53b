//! An item as it stands in its line.
//! Source: project's own choice, where no other is named.

ghost use Rattle.std.specs.Prelude.{◌≡◌, Some, None, if◌then◌else◌, true};
ghost use Rattle.bbm_events.specs.Label.{is_label};

use bbm_events::{Event, Item, Label};
use std::marker::Model;

/// The bytes of a label where they stand in a line. A clause sees the list of them, as of a `Label`.
#[derive(Drop)]
pub struct LabelText<'a> {
    bytes: &'a [u8],
}

impl<'a> Model for LabelText<'a> {
    ghost use Rattle.std.specs.Prelude.{◌≡◌, ℕ, List, true};
    ghost use Rattle.bbm_events.specs.Label.{is_label};

    ghost Value = { List ℕ };

    ghost view = { λ text. text.bytes.now };

    ghost invariant = { λ text. is_label text.bytes.now ≡ true };
}

impl<'a> LabelText<'a> {
    /// The label of these bytes; None exactly where they are none of a `Label`.
    pub(crate) fn of(bytes: &'a [u8]) -> Option<LabelText<'a>>
        ensures { result ≡ (if is_label bytes.now then Some bytes.now else None) }
    {
        if Label::is_text(bytes) {
            Some(LabelText { bytes })
        } else {
            None
        }
    }

    /// The label of these bytes, which are those of one.
    pub(crate) fn told(bytes: &'a [u8]) -> LabelText<'a>
        requires { is_label bytes.now ≡ true }
        ensures { result ≡ bytes.now }
    {
        LabelText { bytes }
    }

    /// A copy of the label.
    pub fn kept(&self) -> Label
        ensures { result ≡ self.now }
    {
        Label::new(self.bytes).unwrap()
    }
}

/// What a line after the header says: an `Item`, with its label where that stands in the line.
#[derive(Drop)]
pub enum LineItem<'a> {
    /// An event line. Only a line under version 3 or later has a label.
    Event(Event, Option<LabelText<'a>>),
    /// The last line, with its count.
    End(u32),
}

impl<'a> LineItem<'a> {
    ghost use Rattle.bbm_log_grammar.specs.InLine.{item_in};

    /// The item, with a copy of its label.
    pub fn kept(&self) -> Item
        ensures { result ≡ item_in self.now }
    {
        match self {
            LineItem::Event(event, label) => Item::Event(*event, kept_label(label)),
            LineItem::End(count) => Item::End(*count),
        }
    }
}

/// A copy of the label, if there is one.
pub fn kept_label(label: &Option<LabelText>) -> Option<Label>
    ensures { result ≡ label.now }
{
    match label {
        Some(text) => Some(text.kept()),
        None => None,
    }
}
