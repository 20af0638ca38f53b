//! The register values of each PE that may still be in use.
//! Source: project's own choice, where no other is named.
#![tactic(auto)]

ghost use Rattle.std.specs.Prelude.{◌≡◌, ℕ, ◌<◌, ◌≤◌, ◌+◌, ◌∷◌, ◌++◌, [], nat_eq, nat_le, length, vec_len, ◌&&◌, ◌||◌};
ghost use Rattle.std.specs.Prelude.{true};
ghost use Rattle.std.specs.Prelude.{IfOk, OnOk, if◌then◌else◌};
ghost use Rattle.bbm_regimes.specs.PeMask.{pe_in};
ghost use Rattle.bbm_roots.specs.Columns.{ChangesLoads, loads_in};
ghost use Rattle.bbm_roots.specs.RootRegisters.{at_start, newest};

use crate::load::{self, RootValue, is_first};
use crate::reading::{Readings, readings, reads_tag};
use crate::standing::{in_order, new_standing, reading_world};
use arrayvec::ArrayVec;
use bbm_events::Header;
use bbm_regimes::{NoMemory, Page, Pe, PeCount, PeMask, Reg, Tag, World};
use std::alloc::Global;

/// The values of one register that may still be in use, the newest first: one that every PE starts with or
/// made its own by an ISB, and eight written since.
pub type Loads = ArrayVec<RootValue, 9>;

/// The readable standings of a PE, the newest first: one that it starts with or made its own by an ISB, and one for
/// each of eight values of each register written since.
pub type Standings = ArrayVec<RootValue, 17>;

/// The values of one register of a PE that may still be in use, or its readable standings, the newest first.
pub fn loads_at<const N: usize>(column: &Vec<ArrayVec<RootValue, N>>, pe: Pe) -> &[RootValue]
    requires { pe < length column.now.items }
    ensures value { result.now ≡ loads_in column.now.items pe }
    ensures fits { length result.now ≤ N }
{
    column[pe.get() as usize].as_slice()
}

/// Whether the PE wrote the register eight times without an ISB between.
pub fn is_full(column: &Vec<Loads>, pe: Pe) -> bool
    requires { pe < length column.now.items }
    ensures { result ≡ nat_le 9 (length (loads_in column.now.items pe)) }
{
    column[pe.get() as usize].is_full()
}

/// Puts the value in front of the others.
fn put_front<const N: usize>(loads: &mut ArrayVec<RootValue, N>, number: u16, root: Option<Page>)
    requires { length loads.old.items < N }
    ensures { loads.new.items ≡ record { number = number; root = root } ∷ loads.old.items }
{
    loads.insert(0, RootValue { number, root });
}

/// Puts a value in front.
fn put<const N: usize>(column: &mut Vec<ArrayVec<RootValue, N>>, pe: Pe, load: RootValue)
    requires known { pe < length column.old.items }
    requires room { length (loads_in column.old.items pe) < N }
    ensures { ChangesLoads (λ loads. load ∷ loads) pe column.old.items column.new.items }
{
    put_front(&mut column[pe.get() as usize], load.number, load.root);
}

/// Leaves the newest value alone.
fn sync<const N: usize>(column: &mut Vec<ArrayVec<RootValue, N>>, pe: Pe)
    requires known { pe < length column.old.items }
    ensures { ChangesLoads newest pe column.old.items column.new.items }
{
    column[pe.get() as usize].truncate(1);
}

/// The values that a register starts with.
fn start_loads<const N: usize>(number: u16, root: Option<Page>) -> ArrayVec<RootValue, N>
    requires { 0 < N }
    ensures { result.items ≡ record { number = number; root = root } ∷ [] }
{
    let mut loads = ArrayVec::new();
    loads.push(RootValue { number, root });
    loads
}

/// One more PE, with the value 0.
#[tactic(auto, using(crate::proofs::Columns::growing))]
fn add_pe<const N: usize>(column: &mut Vec<ArrayVec<RootValue, N>>) -> Result<(), NoMemory>
    requires { 0 < N }
    ensures pes { OnOk result (length column.new.items ≡ length column.old.items + 1) }
    ensures start { OnOk result (((p : ℕ) → p < length column.old.items → loads_in column.old.items p ≡ at_start ∷ [])
        → (p : ℕ) → p < length column.old.items + 1 → loads_in column.new.items p ≡ at_start ∷ []) }
{
    match column.push(start_loads(0, None)) {
        Ok(()) => Ok(()),
        Err(_) => Err(NoMemory),
    }
}

/// A column of as many PEs as the number says, each with the value 0.
fn new_column<const N: usize>(
    alloc: Global,
    pes: u8,
) -> Result<Vec<ArrayVec<RootValue, N>>, NoMemory>
    requires { 0 < N }
    ensures pes { IfOk result (λ column. length column.items ≡ pes) }
    ensures start { IfOk result (λ column. (p : ℕ) → p < pes → loads_in column.items p ≡ at_start ∷ []) }
{
    let mut column = Vec::new(alloc);
    for _pe in 0..pes {
        add_pe(&mut column)?;
    }
    Ok(column)
}

/// The root registers of every PE: what the values name that may still be in use, the newest first, for each of
/// the two registers of the world; and what its readable standings give, where readings go by them.
#[derive(Drop)]
pub struct Registers {
    /// The number of PEs.
    pub pes: PeCount,
    /// The world by which readings go.
    pub world: World,
    /// Whether the ASIDs of TTBR0_EL1 roots go by the standings.
    pub in_order: bool,
    /// TTBR0_EL2 or TTBR0_EL1, by the PE's number.
    pub first: Vec<Loads>,
    /// VTTBR_EL2 or TTBR1_EL1, by the PE's number.
    pub second: Vec<Loads>,
    /// The readable standings, by the PE's number; none where readings don't go by them.
    pub standings: Vec<Standings>,
    ghost first_pes: { vec_len first ≡ pes },
    ghost second_pes: { vec_len second ≡ pes },
    ghost standing_pes: { in_order ≡ true → vec_len standings ≡ pes },
}

impl Registers {
    ghost use Rattle.std.specs.Prelude.{not, nat_lt};
    ghost use Rattle.bbm_roots.specs.LeastOf.{IsLeast, UpTo};
    ghost use Rattle.bbm_roots.specs.LoadsOf.{firsts_of, loads_of, other_loads, readings_after, reads_at, uses_at};
    ghost use Rattle.bbm_roots.specs.LoadsOf.{standings_of, HasSpace};
    ghost use Rattle.bbm_roots.specs.RootChanges.{LeavesNewest, PutsLoad};
    ghost use Rattle.bbm_roots.specs.RootRegisters as spec;

    /// The registers of the header's PEs, each with the value 0.
    pub fn new(alloc: Global, header: &Header) -> Result<Registers, NoMemory>
        ensures pes { IfOk result (λ r. r.pes ≡ header.now.pes) }
        ensures world { IfOk result (λ r. r.world ≡ spec.reading_world header.now) }
        ensures in_order { IfOk result (λ r. r.in_order ≡ spec.in_order header.now) }
        ensures first { IfOk result (λ r. (p : ℕ) → p < r.pes → loads_in r.first.items p ≡ at_start ∷ []) }
        ensures second { IfOk result (λ r. (p : ℕ) → p < r.pes → loads_in r.second.items p ≡ at_start ∷ []) }
        ensures standings { IfOk result (λ r. r.in_order ≡ true → (p : ℕ) → p < r.pes → standings_of r p
            ≡ at_start ∷ []) }
    {
        let first = new_column(alloc, header.pes)?;
        let second = new_column(alloc, header.pes)?;
        let in_order = in_order(header);
        let standings = new_column(alloc, if in_order { header.pes } else { 0 })?;
        Ok(Registers {
            pes: header.pe_count(),
            world: reading_world(header),
            in_order,
            first,
            second,
            standings,
        })
    }

    /// Whether the PE wrote the register eight times without an ISB between.
    pub fn is_full(&self, pe: Pe, reg: Reg) -> bool
        requires { pe < self.now.pes }
        ensures { result ≡ nat_le 9 (length (loads_of self.now pe reg)) }
    {
        if is_first(reg) {
            is_full(&self.first, pe)
        } else {
            is_full(&self.second, pe)
        }
    }

    /// The PEs of the set at which the tag is readable for no root.
    pub fn unread(&self, reach: PeMask, tag: Tag) -> PeMask
        ensures { (p : ℕ) → pe_in result p ≡ (nat_lt p self.now.pes && (pe_in reach p
            && not (reads_at self.now p tag))) }
    {
        let mut unread = PeMask::none();
        for number in 0..self.pes.get() {
            let pe = Pe::new(number).unwrap();
            unread = unread.with(pe, reach.has(pe) && !self.reads(pe, tag));
        }
        unread
    }

    /// The first PE of the set at which the tag is readable for no root. None where there is none.
    pub fn first_unread(&self, pes: PeMask, tag: Tag) -> Option<Pe>
        ensures { IsLeast UpTo (λ p. nat_lt p self.now.pes && (pe_in pes p && not (reads_at self.now p tag))) result }
    {
        for number in 0..self.pes.get() {
            let pe = Pe::new(number).unwrap();
            if pes.has(pe) && !self.reads(pe, tag) {
                return Some(pe);
            }
        }
        None
    }

    /// Whether the tag is readable at the PE for some root.
    #[inline(always)]
    fn reads(&self, pe: Pe, tag: Tag) -> bool
        requires { pe < self.now.pes }
        ensures { result ≡ reads_at self.now pe tag }
    {
        reads_tag(self.world, self.firsts(pe), loads_at(&self.second, pe), tag)
    }

    /// By what the readings of the first register of the PE go: its values, or the standings.
    #[inline(always)]
    fn firsts(&self, pe: Pe) -> &[RootValue]
        requires { pe < self.now.pes }
        ensures { result.now ≡ firsts_of self.now pe }
    {
        if self.in_order {
            loads_at(&self.standings, pe)
        } else {
            loads_at(&self.first, pe)
        }
    }

    /// The readable tags of the PE after it writes the register with this value. `NoMemory` where there is none.
    pub fn readings_with(
        &self,
        alloc: Global,
        pe: Pe,
        reg: Reg,
        load: &RootValue,
    ) -> Result<Readings, NoMemory>
        requires known { pe < self.now.pes }
        ensures after { IfOk result (λ readings. readings.items ≡ readings_after self.now pe reg load.now) }
        ensures fits { self.now.in_order ≡ true → length (other_loads self.now pe reg) ≤ 9 }
    {
        let first = self.firsts(pe);
        let second = loads_at(&self.second, pe);
        if !self.in_order {
            if is_first(reg) {
                readings(alloc, self.world, &[*load], first, &[], second)
            } else {
                readings(alloc, self.world, &[], first, &[*load], second)
            }
        } else {
            let standing = new_standing(is_first(reg), load, self.others(pe, reg));
            if is_first(reg) {
                readings(alloc, self.world, &[standing], first, &[], second)
            } else {
                readings(alloc, self.world, &[standing], first, &[*load], second)
            }
        }
    }

    /// The values of the other register of the PE.
    pub fn others(&self, pe: Pe, reg: Reg) -> &[RootValue]
        requires { pe < self.now.pes }
        ensures value { result.now ≡ other_loads self.now pe reg }
        ensures fits { length result.now ≤ 9 }
    {
        if is_first(reg) {
            loads_at(&self.second, pe)
        } else {
            loads_at(&self.first, pe)
        }
    }

    /// Whether a readable value of the PE names the root with this first page.
    fn uses(&self, pe: Pe, page: Page) -> bool
        requires { pe < self.now.pes }
        ensures { result ≡ uses_at self.now pe page }
    {
        load::names_in(loads_at(&self.first, pe), page)
            || load::names_in(loads_at(&self.second, pe), page)
    }

    /// The first PE with a readable value that names the root with this first page. None where there is none.
    pub fn first_user(&self, page: Page) -> Option<Pe>
        ensures { IsLeast UpTo (λ p. nat_lt p self.now.pes && uses_at self.now p page) result }
    {
        for number in 0..self.pes.get() {
            let pe = Pe::new(number).unwrap();
            if self.uses(pe, page) {
                return Some(pe);
            }
        }
        None
    }

    /// Puts the value in front of those of the register, which isn't full, and a new standing in front of those of
    /// the PE, where readings go by them.
    pub fn put(&mut self, pe: Pe, reg: Reg, load: RootValue)
        requires known { pe < self.old.pes }
        requires room { HasSpace self.old pe reg }
        ensures { PutsLoad pe reg load self.old self.new }
    {
        if self.in_order {
            let standing = new_standing(is_first(reg), &load, self.others(pe, reg));
            put(&mut self.standings, pe, standing);
        }
        if is_first(reg) {
            put(&mut self.first, pe, load);
        } else {
            put(&mut self.second, pe, load);
        }
    }

    /// Leaves the newest values of the registers of the PE alone, and its newest standing.
    pub fn sync(&mut self, pe: Pe)
        requires { pe < self.old.pes }
        ensures { LeavesNewest pe self.old self.new }
    {
        sync(&mut self.first, pe);
        sync(&mut self.second, pe);
        if self.in_order {
            sync(&mut self.standings, pe);
        }
    }
}
