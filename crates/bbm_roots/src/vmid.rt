//! The VMID that a PE uses.

ghost use Rattle.std.specs.Prelude.{◌≡◌, map};
ghost use Rattle.std.specs.List.{list_all};
ghost use Rattle.bbm_lemmas.specs.ListWords.{one_number as spec_one_number};
ghost use Rattle.bbm_roots.specs.Readings.{numbered};
ghost use Rattle.bbm_roots.specs.declared.load.RootValue.{RootValue as TheValue};

use crate::load::RootValue;

/// Whether each of the values has this VMID.
fn all_numbered(loads: &[RootValue], number: u16) -> bool
    ensures { result ≡ list_all (numbered number) loads.now }
{
    loads.iter().all(|load| load.number == number)
}

/// The one VMID of the values; None where there are several, or none.
pub fn one_number(loads: &[RootValue]) -> Option<u16>
    ensures { result ≡ spec_one_number (map (λ (l : TheValue). l.number) loads.now) }
{
    if loads.is_empty() {
        return None;
    }
    let number = loads[0].number;
    if all_numbered(loads, number) {
        Some(number)
    } else {
        None
    }
}
