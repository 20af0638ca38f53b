//! Which events fit a header.
//! Source: project's own choice, where no other is named.

ghost use Rattle.std.specs.Prelude.{◌≡◌};
ghost use Rattle.bbm_events.specs.Heading as heading;
ghost use Rattle.bbm_events.specs.Fits as spec;
ghost use Rattle.bbm_events.specs.Fits.{fits_heading, is_pe};

use crate::event::Event;
use crate::header::Header;
use bbm_regimes::{Kind, PAGE_BYTES, Page, Pe, Place};
use bbm_tlbi_scope::TlbiOp;

/// Locks have numbers below 1,024.
const LOCKS: u16 = 1024;

fn has_pe(header: &Header, pe: Pe) -> bool
    ensures { result ≡ is_pe header.now pe }
{
    pe.get() < header.pes
}

/// Each page and each place is one by its type.
fn is_page(page: Page) -> bool
    ensures { result ≡ spec.is_page page }
{
    let _ = page.get();
    true
}

fn is_place(place: Place) -> bool
    ensures { result ≡ spec.is_place place }
{
    let _ = place.get();
    true
}

fn is_root_page(header: &Header, kind: Kind, page: Page) -> bool
    ensures { result ≡ spec.is_root_page header.now.world kind page }
{
    page.get() % (PAGE_BYTES * header.page_count(kind) as u64) == 0
}

fn is_root_lock(lock: Option<u16>) -> bool
    ensures { result ≡ spec.is_root_lock lock }
{
    lock.is_none_or(|lock| lock < LOCKS)
}

/// Whether the header's version has the operation: those for a range of pages came with version 4.
pub fn has_op(header: &Header, op: TlbiOp) -> bool
    ensures { result ≡ heading.has_op header.now.version op }
{
    header.version >= 4 || !op.is_range()
}

/// Whether a null page may be the base of every root register, in both worlds, as from version 5 on; before, it may be
/// that of TTBR0_EL1 alone.
pub fn nulls_everywhere(header: &Header) -> bool
    ensures { result ≡ heading.nulls_everywhere header.now.version }
{
    header.version >= 5
}

fn is_operand(op: TlbiOp, xt: u64) -> bool
    ensures { result ≡ spec.is_operand op xt }
{
    op.has_operand() || xt == 0
}

/// Whether the event can stand in a log with this header: its PE is below the header's number, its
/// lock is below 1,024, its operand is 0 where the operation has none, and a root is aligned to its
/// number of pages, which is 1 but for stage 2 of the Hyp world. An operation for a range of pages asks for
/// version 4 or later. Source: project's own choice, but for
/// the alignment: Arm ARM (DDI 0487), "VMSAv8-64 translation table walks", concatenated translation tables.
pub fn fits(header: &Header, event: Event) -> bool
    ensures { result ≡ fits_heading header.now event }
{
    match event {
        Event::Init { pe, page } => has_pe(header, pe) && is_page(page),
        Event::Null { pe, page } => has_pe(header, pe) && is_page(page),
        Event::Root {
            pe,
            kind,
            lock,
            page,
        } => has_pe(header, pe) && is_root_lock(lock) && is_root_page(header, kind, page),
        Event::Unroot { pe, page } => has_pe(header, pe) && is_page(page),
        Event::Write {
            pe,
            place,
            value: _,
        } => has_pe(header, pe) && is_place(place),
        Event::Dsb { pe, dsb: _ } => has_pe(header, pe),
        Event::Dmb { pe, dsb: _ } => has_pe(header, pe),
        Event::Isb { pe } => has_pe(header, pe),
        Event::Tlbi { pe, op, xt } => has_pe(header, pe)
            && has_op(header, op)
            && is_operand(op, xt),
        Event::Msr {
            pe,
            reg: _,
            value: _,
        } => has_pe(header, pe),
        Event::Lock { pe, lock } => has_pe(header, pe) && lock < LOCKS,
        Event::Unlock { pe, lock } => has_pe(header, pe) && lock < LOCKS,
    }
}
