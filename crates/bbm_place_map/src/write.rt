//! Writes of values, and of cells and their entries.

ghost use Rattle.std.specs.Prelude.{◌≡◌, ◌≤◌, ◌<◌, ◌+◌, ℕ, nat_eq, vec_len, vec_capacity, count_by, if◌then◌else◌};
ghost use Rattle.bbm_place_map.specs.Cells.{value_in, in_page, is_listed};
ghost use Rattle.bbm_place_map.specs.Sound.{KeepsSlots};

use crate::read::VALUES;

/// Writes a value.
#[inline(always)]
pub fn put_value(values: &mut Vec<u64>, j: usize, value: u64)
    requires { j < vec_len values.old }
    ensures len { vec_len values.new ≡ vec_len values.old }
    ensures values { (i : ℕ) → value_in values.new.items i
        ≡ (if nat_eq i j then value else value_in values.old.items i) }
{
    values[j] = value;
}

/// The 512 values from the base on are 0.
pub fn zero_page(values: &mut Vec<u64>, base: usize)
    requires { base + VALUES ≤ vec_len values.old }
    ensures len { vec_len values.new ≡ vec_len values.old }
    ensures values { (i : ℕ) → value_in values.new.items i
        ≡ (if in_page base VALUES i then 0 else value_in values.old.items i) }
{
    for i in 0..VALUES {
        put_value(values, base + i, 0);
    }
}

/// Adds 512 values that are 0, where there is room for them: half at a time, which are written by wide stores.
pub fn add_values(values: &mut Vec<u64>)
    requires { vec_len values.old + VALUES ≤ vec_capacity values.old }
    ensures len { vec_len values.new ≡ vec_len values.old + VALUES }
    ensures room { vec_capacity values.old ≤ vec_capacity values.new }
    ensures values { (i : ℕ) → value_in values.new.items i ≡ value_in values.old.items i }
{
    for _half in 0..2usize {
        let all = values.len() + VALUES / 2;
        let _ = values.resize(all, 0);
    }
}

/// Adds cells that have no entry, so many, where there is room for them.
pub fn add_cells(cells: &mut Vec<u32>, count: usize)
    requires { vec_len cells.old + count ≤ vec_capacity cells.old }
    ensures len { vec_len cells.new ≡ vec_len cells.old + count }
    ensures room { vec_capacity cells.old ≤ vec_capacity cells.new }
    ensures kept { KeepsSlots cells.old.items cells.new.items }
    ensures count { count_by is_listed cells.new.items ≡ count_by is_listed cells.old.items }
{
    let all = cells.len() + count;
    let _ = cells.resize(all, 0);
}
