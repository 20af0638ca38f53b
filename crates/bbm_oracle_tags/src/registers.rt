//! The root registers of a PE, the VMID that it uses, and what its TLBIs name.
//! Source: project's own choice, where no other is named.

ghost use Rattle.std.specs.Prelude.{◌≡◌, ◌==◌, List, ◌∷◌, reverse, map, IfOk, OnOk};
ghost use Rattle.bbm_events.specs.declared.event.Event.{Event};
ghost use Rattle.bbm_rules.specs.Lists.{every, one_number as only_number};
ghost use Rattle.bbm_rules.specs.RegisterValues as spec;

use bbm_events::{Event, Header};
use bbm_regimes::{NoMemory, Pe, Reg, World, same_reg, tag_number};
use bbm_tlbi_scope::{Scope, TlbiOp, decode, lacks_vmid};
use std::alloc::Global;

/// Puts the value in front.
fn put_value(values: &mut Vec<u64>, value: u64) -> Result<(), NoMemory>
    ensures { OnOk result (values.new.items ≡ value ∷ values.old.items) }
{
    values.insert(0, value)?;
    Ok(())
}

/// The readable values of the PE's register after one more event. `NoMemory` where there is none.
pub fn take_value(values: &mut Vec<u64>, event: &Event, pe: Pe, reg: Reg) -> Result<(), NoMemory>
    ensures { OnOk result ((h : List Event) → values.old.items ≡ spec.register_values h pe reg
        → values.new.items ≡ spec.register_values (event.now ∷ h) pe reg) }
{
    match *event {
        Event::Msr {
            pe: writer,
            reg: written,
            value,
        } => {
            if writer == pe && same_reg(written, reg) {
                put_value(values, value)
            } else {
                Ok(())
            }
        }
        Event::Isb { pe: issuer } => {
            if issuer == pe {
                values.truncate(1);
            }
            Ok(())
        }
        _ => Ok(()),
    }
}

/// The values of the PE's register that may still be in use, the newest first. `NoMemory` where there is none. Source:
/// Arm ARM (DDI 0487), "Context synchronization event".
pub fn register_values(
    alloc: Global,
    events: &[Event],
    pe: Pe,
    reg: Reg,
) -> Result<Vec<u64>, NoMemory>
    ensures { IfOk result (λ values. values.items ≡ spec.register_values (reverse events.now) pe reg) }
{
    let mut values = Vec::new(alloc);
    put_value(&mut values, 0)?;
    for event in events {
        take_value(&mut values, event, pe, reg)?;
    }
    Ok(values)
}

/// Whether each value has this VMID or ASID.
fn all_numbered(values: &[u64], number: u16) -> bool
    ensures { result ≡ every (λ value. spec.tag_number value == number) values.now }
{
    values.iter().all(|value| tag_number(*value) == number)
}

/// The one VMID of the values, None where there are several or none.
fn one_number(values: &[u64]) -> Option<u16>
    ensures { result ≡ only_number (map spec.tag_number values.now) }
{
    if values.is_empty() {
        return None;
    }
    let number = tag_number(values[0]);
    if all_numbered(values, number) {
        Some(number)
    } else {
        None
    }
}

/// The VMID under which the PE issues its TLBIs: the one VMID of the values of VTTBR_EL2 that it may still use, None
/// where there are several; 0 in the Kernel world. `NoMemory` where there is none.
pub fn vmid_of(
    alloc: Global,
    header: &Header,
    events: &[Event],
    pe: Pe,
) -> Result<Option<u16>, NoMemory>
    ensures { IfOk result (λ vmid. vmid ≡ spec.vmid_of header.now (reverse events.now) pe) }
{
    match header.world {
        World::Hyp(_) => {
            let values = register_values(alloc, events, pe, Reg::VttbrEl2)?;
            Ok(one_number(&values))
        }
        World::Kernel(_) => Ok(Some(0)),
    }
}

/// What a TLBI names at its issue: its scope, or None where its operand can't be decoded, or where it needs a VMID and
/// there are several. `NoMemory` where there is none.
pub fn named_scope(
    alloc: Global,
    header: &Header,
    events: &[Event],
    pe: Pe,
    op: TlbiOp,
    xt: u64,
) -> Result<Option<Scope>, NoMemory>
    ensures { IfOk result (λ scope. scope ≡ spec.named_scope header.now (reverse events.now) pe op xt) }
{
    let vmid = vmid_of(alloc, header, events, pe)?;
    if lacks_vmid(op.scoped_by_vmid(), vmid) {
        return Ok(None);
    }
    match decode(op, xt) {
        Ok(scope) => Ok(Some(scope)),
        Err(_) => Ok(None),
    }
}
