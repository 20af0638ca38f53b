//! Which PEs an event reaches, and which TLBIs a DSB completes.

ghost use Rattle.std.specs.Prelude.{◌≡◌};
ghost use Rattle.bbm_rules.specs.Reach as spec;
ghost use Rattle.bbm_rules.specs.Values as values;

use bbm_barriers::{Domain, Dsb, Types, answers, is_non};
use bbm_events::{Event, Header};
use bbm_regimes::Pe;

/// Whether the event is a TLBI that reaches the PE: a broadcast one, or one of the PE itself unless the TLBs share
/// entries. Source: Arm ARM (DDI 0487), "TLB maintenance instructions"; where TLBs share entries it is the project's
/// own choice.
pub fn reaches(header: &Header, event: &Event, pe: Pe) -> bool
    ensures { result ≡ spec.reaches header.now event.now pe }
{
    match *event {
        Event::Tlbi { pe: issuer, op, .. } => op.is_broadcast() || (!header.cnp && issuer == pe),
        _ => false,
    }
}

/// Whether the event is a TLBI of a kind that the DSB completes, where its issuer is the same. Source: Arm ARM (DDI
/// 0487), "TLB maintenance instructions".
pub fn completes(dsb: Dsb, event: &Event) -> bool
    ensures { result ≡ spec.completes dsb event.now }
{
    match *event {
        Event::Tlbi { op, .. } => answers(dsb, op.is_broadcast()),
        _ => false,
    }
}

/// Whether a DSB of the issuer publishes its earlier writes to the PE.
fn publishes_to(header: &Header, dsb: Dsb, issuer: Pe, pe: Pe) -> bool
    ensures { result ≡ values.publishes_to header.now dsb issuer pe }
{
    if header.cnp && is_non(dsb.domain) {
        return false;
    }
    match dsb.types {
        Types::Loads => false,
        Types::All | Types::Stores => match dsb.domain {
            Domain::Non => pe == issuer,
            Domain::Full | Domain::Inner | Domain::Outer => pe.get() < header.pes,
        },
    }
}

/// Whether the event is a DSB of the issuer that publishes its earlier writes to the PE. Source: Arm ARM (DDI 0487),
/// "Memory barriers"; where TLBs share entries it is the project's own choice.
pub fn publishes_for(header: &Header, issuer: Pe, pe: Pe, event: &Event) -> bool
    ensures { result ≡ values.publishes_for header.now issuer pe event.now }
{
    match *event {
        Event::Dsb { pe: by, dsb } => by == issuer && publishes_to(header, dsb, by, pe),
        _ => false,
    }
}
