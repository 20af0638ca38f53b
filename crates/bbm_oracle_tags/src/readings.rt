//! Readable tags.

ghost use Rattle.std.specs.Prelude.{◌≡◌, reverse, IfOk};
ghost use Rattle.bbm_rules.specs.Tags as spec;
ghost use Rattle.bbm_oracle_tags.specs.Moments as moments;

use crate::moment::Moment;
use bbm_events::{Event, Header};
use bbm_regimes::{NoMemory, Pe, Tag, same_tag};
use std::alloc::Global;
use std::marker::Model;

/// A tag that is readable for a root. A clause sees it as the reading of the definitions. Source: project's own choice.
#[derive(Clone, Copy, PartialEq, Eq)]
pub struct Reading {
    /// The tag.
    pub tag: Tag,
    /// The address of the root's first page, in bytes.
    pub root: u64,
}

impl Model for Reading {
    ghost use Rattle.bbm_rules.specs.Tags.{Reading};

    ghost Value = { Reading };

    ghost view = { λ r. record { tag = r.tag; root = r.root } };

    ghost inverse = { λ r. record { tag = r.tag; root = r.root } };
}

/// Whether the tag is among the readings for the root.
pub fn is_read(readings: &[Reading], tag: Tag, root: u64) -> bool
    ensures { result ≡ moments.is_read readings.now tag root }
{
    readings.iter().any(|reading| same_tag(reading.tag, tag) && reading.root == root)
}

/// Whether the tag is among the readings for some root.
pub fn is_read_for_some(readings: &[Reading], tag: Tag) -> bool
    ensures { result ≡ moments.is_read_for_some readings.now tag }
{
    readings.iter().any(|reading| same_tag(reading.tag, tag))
}

/// The tags that are readable at the PE, each with its root: `El2` for the base of each readable value of TTBR0_EL2;
/// `Vmid` of a readable value of VTTBR_EL2 for its base; `Ttbr1` for the base of each readable value of TTBR1_EL1;
/// `Asid` for the base of a readable value of TTBR0_EL1, with the ASID of that value or of a readable value of
/// TTBR1_EL1, as the header says. Only bases of declared roots of the register's kind count. `NoMemory` where there is
/// none. Source: Arm ARM (DDI 0487), "Translation Lookaside Buffers", and TCR_EL1.A1 of "AArch64 System register
/// descriptions".
pub fn readings_at(
    alloc: Global,
    header: &Header,
    events: &[Event],
    pe: Pe,
) -> Result<Vec<Reading>, NoMemory>
    ensures { IfOk result (λ readings. readings.items ≡ spec.readings header.now (reverse events.now) pe) }
{
    let mut moment = Moment::new(alloc)?;
    for event in events {
        moment.take(header, event, pe)?;
    }
    moment.readings(alloc, header)
}
