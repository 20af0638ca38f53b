//! Where the pages of a root begin, and which input pages its descriptors translate.

ghost use Rattle.std.specs.Prelude.{◌≡◌, ◌+◌, ◌<◌, ◌≤◌, ◌^◌, ◌/◌, ◌*◌, ◌-◌};
ghost use Rattle.bbm_regimes.specs.World as spec;
ghost use Rattle.bbm_tlb_machine.specs.Step.{root_of as root_with};

use bbm_events::{Header, input_pages};
use bbm_regimes::{Kind, PAGE_BYTES, Place};

/// The bytes of all pages of a root of the kind.
fn root_size(header: &Header, kind: Kind) -> u64
    ensures value { result ≡ PAGE_BYTES * spec.page_count header.now.world kind }
    ensures some { 0 < result }
    ensures within { result ≤ 2 ^ 16 }
{
    PAGE_BYTES * u64::from(header.page_count(kind))
}

/// The first page of the root of the kind that has the place in one of its pages, in bytes.
#[tactic(auto, using(crate::proofs::RootSizes::root_is))]
pub fn root_of(header: &Header, kind: Kind, place: Place) -> u64
    ensures { result ≡ root_with header.now.world kind place }
{
    let size = root_size(header, kind);
    place.get() - place.get() % size
}

/// The first input page that the place of a root's page translates.
#[tactic(auto, using(crate::proofs::RootSizes::rest_is))]
pub fn first_of(header: &Header, kind: Kind, place: Place) -> u64
    ensures value { result ≡ spec.first_input_page header.now.world kind
        + (place - root_with header.now.world kind place) / 8 * spec.input_pages (spec.start_of header.now.world kind) }
    ensures within { result < 2 ^ 46 }
{
    let offset = place.get() % root_size(header, kind);
    header.first_input_page(kind) + offset / 8 * input_pages(header.start_level(kind))
}
