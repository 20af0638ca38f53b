//! The readable standings of a PE.

ghost use Rattle.std.specs.Prelude.{◌≡◌, ◌==◌, ℕ, true, List, [], ◌∷◌, IfOk, OnOk};
ghost use Rattle.bbm_events.specs.declared.event.Event.{Event};
ghost use Rattle.bbm_events.specs.declared.event.Event.TheVariants.{Msr};
ghost use Rattle.bbm_rules.specs.RegisterValues as spec;

use bbm_events::Event;
use bbm_regimes::{NoMemory, Pe, Reg};
use std::alloc::Global;
use std::marker::Model;

/// What the root registers of the Kernel world have at one moment. A clause sees it as the standing of the definitions.
/// Source: project's own choice.
#[derive(Clone, Copy)]
pub struct Standing {
    /// The value of TTBR0_EL1.
    pub first: u64,
    /// The value of TTBR1_EL1.
    pub second: u64,
}

impl Model for Standing {
    ghost use Rattle.bbm_rules.specs.RegisterValues.{Standing};

    ghost Value = { Standing };

    ghost view = { λ s. record { first = s.first; second = s.second } };

    ghost inverse = { λ s. record { first = s.first; second = s.second } };
}

/// The readable standings before any event: each register has 0. `NoMemory` where there is none.
pub fn at_start(alloc: Global) -> Result<Vec<Standing>, NoMemory>
    ensures { IfOk result (λ standings. (p : ℕ) → standings.items ≡ spec.standings [] p) }
{
    let mut standings = Vec::new(alloc);
    standings.push(Standing {
        first: 0,
        second: 0,
    })?;
    Ok(standings)
}

/// The standing after a register write.
fn after_write(standing: Standing, reg: Reg, value: u64) -> Standing
    ensures { (pe p : ℕ) (h : List Event) → (pe == p) ≡ true → standing ≡ spec.standing_of h p
        → result ≡ spec.standing_of (Msr pe reg value ∷ h) p }
{
    match reg {
        Reg::Ttbr0El1 => Standing {
            first: value,
            second: standing.second,
        },
        Reg::Ttbr1El1 => Standing {
            first: standing.first,
            second: value,
        },
        _ => standing,
    }
}

/// Puts the standing after a register write in front of the readable ones.
fn put_standing(standings: &mut Vec<Standing>, reg: Reg, value: u64) -> Result<(), NoMemory>
    ensures { OnOk result ((pe p : ℕ) (h : List Event) → (pe == p) ≡ true
        → standings.old.items ≡ spec.standings h p
        → standings.new.items ≡ spec.standing_of (Msr pe reg value ∷ h) p ∷ standings.old.items) }
{
    if let Some(newest) = standings.first().copied() {
        standings.insert(0, after_write(newest, reg, value))?;
    }
    Ok(())
}

/// The readable standings of the PE after one more event. `NoMemory` where there is none.
pub fn take_standing(standings: &mut Vec<Standing>, event: &Event, pe: Pe) -> Result<(), NoMemory>
    ensures { OnOk result ((h : List Event) → standings.old.items ≡ spec.standings h pe
        → standings.new.items ≡ spec.standings (event.now ∷ h) pe) }
{
    match *event {
        Event::Msr {
            pe: writer,
            reg,
            value,
        } => {
            if writer == pe {
                put_standing(standings, reg, value)
            } else {
                Ok(())
            }
        }
        Event::Isb { pe: issuer } => {
            if issuer == pe {
                standings.truncate(1);
            }
            Ok(())
        }
        _ => Ok(()),
    }
}
