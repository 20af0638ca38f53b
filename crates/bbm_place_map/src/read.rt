//! What vectors of values, cells and parts tell.

ghost use Rattle.std.specs.Prelude.{◌≡◌, ◌<◌, length, ◌≤◌, ◌+◌, ◌↔◌, ℕ, true, ◌/◌, None};
ghost use Rattle.bbm_place_map.specs.Cells.{cell_by, number_of, slot_in, value_in};
ghost use Rattle.bbm_place_map.specs.States.{state_from};

use bbm_descriptor::Core;
use bbm_entry_state::EntryState;
use bbm_regimes::PLACES;

/// The number of values of a page. Pages have theirs one after another, in the order in which they were tracked. A page
/// has as many cells from its first broken place on.
pub const VALUES: usize = PLACES as usize;

/// The state of a place that isn't broken: live with this core, or clean without one.
pub fn unbroken(live: Option<Core>) -> EntryState
    ensures { result ≡ state_from live None }
{
    match live {
        Some(core) => EntryState::Live { core },
        None => EntryState::Clean,
    }
}

/// The number that a cell stands for: None where it is 0, else the one below it.
#[inline(always)]
fn number(cell: u32) -> Option<u32>
    ensures { result ≡ number_of cell }
{
    if cell == 0 { None } else { Some(cell - 1) }
}

/// The number of a cell's entry; None where it has none, or there is no such cell.
#[inline(always)]
pub fn slot_of(cells: &[u32], j: usize) -> Option<u32>
    ensures { result ≡ slot_in cells.now j }
{
    number(*cells.get(j)?)
}

/// The number of the cell of the value with this number; None where no place of its page was broken yet.
#[inline(always)]
pub fn cell(parts: &[u32], j: usize) -> Option<usize>
    requires { j / VALUES < length parts.now }
    ensures { result ≡ cell_by parts.now j }
{
    Some(number(parts[j / VALUES])? as usize + j % VALUES)
}

/// Whether these values are all 0.
fn are_zero(values: &[u64]) -> bool
    ensures { (result ≡ true) ↔ ((i : ℕ) → i < length values.now → value_in values.now i ≡ 0) }
{
    for i in 0..values.len() {
        if values[i] != 0 {
            return false;
        }
    }
    true
}

/// Whether each of the 512 values from the base on is 0.
pub fn is_zero(values: &[u64], base: usize) -> bool
    requires { base + VALUES ≤ length values.now }
    ensures { (result ≡ true) ↔ ((i : ℕ) → i < VALUES → value_in values.now (base + i) ≡ 0) }
{
    are_zero(&values[base..base + VALUES])
}
