//! The keys of tags.
//! Source: project's own choice.

ghost use Rattle.std.specs.Prelude.{◌≡◌, ℕ, ◌<◌};
ghost use Rattle.bbm_roots.specs.Holds as spec;

use bbm_regimes::Tag;
use std::marker::Model;

/// The key of a tag, 0 to 131073: each of them is that of one tag.
#[derive(Clone, Copy, PartialEq, Eq, Hash)]
pub struct TagKey {
    number: u32,
}

impl Model for TagKey {
    ghost Value = { ℕ };

    ghost view = { λ k. k.number };

    ghost invariant = { (λ k. k.number < 131074) };

    ghost inverse = { λ n. record { number = n } };
}

impl TagKey {
    /// The key of the tag.
    pub fn new(tag: Tag) -> TagKey
        ensures { result ≡ spec.tag_key tag }
    {
        let number = match tag {
            Tag::El2 => 0,
            Tag::Ttbr1 => 1,
            Tag::Vmid(v) => 2 * v as u32 + 2,
            Tag::Asid(a) => 2 * a as u32 + 3,
        };
        TagKey { number }
    }

    /// The tag with the key.
    pub fn tag(self) -> Tag
        ensures { result ≡ spec.tag_with self }
    {
        tag_with(self.number)
    }
}

/// The tag with the key of this number.
fn tag_with(number: u32) -> Tag
    requires { number < 131074 }
    ensures { spec.tag_key result ≡ number }
{
    let half = number / 2;
    if half == 0 {
        return if number == 0 { Tag::El2 } else { Tag::Ttbr1 };
    }
    let value = (half - 1) as u16;
    if number % 2 == 0 {
        Tag::Vmid(value)
    } else {
        Tag::Asid(value)
    }
}
