//! Register writes: each is judged, and then taken.
//! Source: project's own choice, where no other is named.

ghost use Rattle.bbm_roots.specs.TagsByRoot.{is_listed};

use crate::anew::{self, Shortcut};
use crate::laws_below::laws_below;
use crate::load::{RootValue, is_first, names_null};
use crate::reading::Reading;
use crate::root::same_kind;
use crate::roots::Roots;
use crate::{hold, pending, search};
use bbm_regimes::{Kind, Page, Pe, Reg, Which, base_of, kind_of, tag_number};
use bbm_rules::{Rule, StepFault};
use std::alloc::Global;

impl Roots {
    ghost use Rattle.std.specs.Prelude.{◌≡◌, ◌<◌, ◌&&◌, ◌||◌, ◌%◌, ◌==◌, not, ℕ, List, ◌∷◌, Option, None, Some, true};
    ghost use Rattle.std.specs.Prelude.{false, length, nat_le, IfOk, IfErr, IfSome, OnOk, OnErr};
    ghost use Rattle.bbm_regimes.specs.SameRegister.{kind_of_reg};
    ghost use Rattle.bbm_regimes.specs.World.{kind_in_world};
    ghost use Rattle.bbm_regimes.specs.declared.regime.Tag.{Tag as TheTag};
    ghost use Rattle.bbm_events.specs.Heading.{Heading};
    ghost use Rattle.bbm_events.specs.declared.event.Event.{Event as TheEvent};
    ghost use Rattle.bbm_rules.specs.Answers.{Answers, MayAsk};
    ghost use Rattle.bbm_rules.specs.Broken.{broken};
    ghost use Rattle.bbm_rules.specs.Claims.{Patterns};
    ghost use Rattle.bbm_rules.specs.Limits.{limit_of};
    ghost use Rattle.bbm_rules.specs.Roots as spec;
    ghost use Rattle.bbm_roots.specs.Holds.{has_entry, conflict_in, tag_key, IsCalm, Marks};
    ghost use Rattle.bbm_roots.specs.LoadsOf.{loads_of, HasSpace};
    ghost use Rattle.bbm_roots.specs.Readings.{has_reading, has_tag};
    ghost use Rattle.bbm_roots.specs.Refusals.{missing_root, JudgesReadings};
    ghost use Rattle.bbm_roots.specs.RootChanges.{Keeps, TakesWhere, Writes};
    ghost use Rattle.bbm_roots.specs.RootJudgements.{IsSettled, IsShared};
    ghost use Rattle.bbm_roots.specs.declared.reading.Reading.{Reading as TheReading};
    ghost use Rattle.bbm_roots.specs.RootRegisters.{has_null_base, root_of};
    ghost use Rattle.bbm_roots.specs.RootsStand.{Stands, pes_of};

    /// Whether a write of the value breaks the rule wrong-world: the register is none of the header's world, or the
    /// value has bit 0 set under a header of version 2 or later without `cnp`.
    fn is_wrong_write(&self, reg: Reg, value: u64) -> bool
        ensures { result ≡ (not (kind_in_world self.now.header.world (kind_of_reg reg))
            || (nat_le 2 self.now.header.version && not self.now.header.cnp && value % 2 == 1)) }
    {
        !self.header.has_kind(kind_of(reg))
            || (self.header.version >= 2 && !self.header.cnp && value % 2 == 1)
    }

    /// The root that a value names, None where it names none; `Broken(NoRoot)` with its base where that is no declared
    /// root.
    fn named_root(&self, reg: Reg, value: u64, null: bool) -> Result<Option<Page>, StepFault>
        ensures named { IfOk result (λ root. (heading : Heading) (h : List TheEvent) → Stands self.now heading h
            → root ≡ root_of heading reg value null) }
        ensures found { OnOk result ((heading : Heading) (h : List TheEvent) → Stands self.now heading h
            → missing_root heading h reg value null ≡ None) }
        ensures missing { IfErr result (λ fault. (base : ℕ) × (fault ≡ StepFault.Broken Rule.NoRoot base)
            × ((heading : Heading) (h : List TheEvent) → Stands self.now heading h
            → missing_root heading h reg value null ≡ Some base)) }
    {
        if names_null(&self.header, reg, null) {
            return Ok(None);
        }
        match base_of(value) {
            Some(base) => match self.root_page(kind_of(reg), base) {
                Some(page) => Ok(Some(page)),
                None => Err(StepFault::Broken(Rule::NoRoot, base)),
            },
            None => Ok(None),
        }
    }

    /// The page of the declared root of the kind with this base.
    fn root_page(&self, kind: Kind, base: u64) -> Option<Page>
        ensures found { IfSome result (λ page. (heading : Heading) (h : List TheEvent) → Stands self.now heading h
            → (page ≡ base) × (spec.is_root h kind base ≡ true)) }
        ensures missing { result ≡ None → (heading : Heading) (h : List TheEvent) → Stands self.now heading h
            → spec.is_root h kind base ≡ false }
    {
        match self.declared.get(&base) {
            Some(root) => {
                if same_kind(root.kind, kind) {
                    Some(root.page)
                } else {
                    None
                }
            }
            None => None,
        }
    }

    /// Takes the value of a register that names what was judged, under the readable tags that it gives.
    fn take(&mut self, pe: Pe, reg: Reg, load: &RootValue, seen: &[Reading])
        requires known { pe < pes_of self.old }
        requires room { HasSpace self.old.registers pe reg }
        requires entries { (g : TheTag) → has_tag g seen.now ≡ true → has_entry self.old.holds g ≡ true }
        requires listed { (g : TheTag) (r : ℕ) → has_reading g r seen.now ≡ true
            → is_listed self.old.by_root r (tag_key g) ≡ true }
        ensures written { Writes pe reg load.now seen.now self.old self.new }
        ensures marked { IsCalm self.old.holds seen.now → Marks self.old.holds self.new.holds pe seen.now }
    {
        hold::mark(&mut self.holds, seen, pe);
        pending::clear(&mut self.pendings, seen, pe);
        self.registers.put(pe, reg, *load);
    }

    /// What is known of a write of this value, where readings don't go by standings, the register isn't full and no
    /// TLBI waits: that it changes the register alone, since the PE holds each tag, for its root, that the value makes
    /// readable anew; or that this one tag is all that it makes readable anew, and held by its root.
    fn shortcut(&self, pe: Pe, reg: Reg, load: &RootValue) -> Shortcut
        requires { pe < pes_of self.now }
        ensures held { result ≡ Shortcut.Held → IsSettled pe reg load.now self.now }
        ensures shared { (x : TheReading) → result ≡ Shortcut.Shared x → IsShared pe reg load.now x self.now }
    {
        if self.registers.in_order
            || !self.pendings.issuers.is_empty()
            || self.registers.is_full(pe, reg)
        {
            return Shortcut::Open;
        }
        let world = self.registers.world;
        match anew::own_tag(world, is_first(reg), load.number) {
            Some(tag) => anew::known_tag(&self.holds, self.registers.pes, tag, load.root, pe),
            None => {
                let others = self.registers.others(pe, reg);
                if anew::holds_anew(&self.holds, is_first(reg), load, others, pe) {
                    Shortcut::Held
                } else {
                    Shortcut::Open
                }
            }
        }
    }

    /// A register write of the PE, judged and taken. `null` tells whether the base of the value is a null page, which
    /// under a header of version 4 or older counts in TTBR0_EL1 alone: such a value names no root, as 0 does. Ok
    /// exactly where it breaks no rule and reaches no limit, and there is memory. `Broken` with the least rule that it
    /// breaks: wrong-world; no-root, where the value names another base than that of a declared root of the register's
    /// kind; or tag-conflict, with the least first page of another root that holds a tag which would be readable, or of
    /// one that was given up and left it. Else `Limit(Values)` where it is the ninth write of the register without an
    /// ISB between. `NoMemory` may come in the place of tag-conflict, the limit, and Ok. After any answer but Ok
    /// nothing changes.
    pub fn write_reg(
        &mut self,
        alloc: Global,
        pe: Pe,
        reg: Reg,
        value: u64,
        null: bool,
    ) -> Result<(), StepFault>
        requires { MayAsk (Stands self.old) pe }
        ensures judged { (heading : Heading) (h : List TheEvent) → Stands self.old heading h → null
            ≡ has_null_base h value
            → Answers result (broken heading Patterns h (TheEvent.Msr pe reg value))
            (limit_of h (TheEvent.Msr pe reg value)) }
        ensures taken { OnOk result (TakesWhere (λ _ h. null ≡ has_null_base h value)
            (TheEvent.Msr pe reg value) self.old self.new) }
        ensures kept { OnErr result (Keeps self.old self.new) }
    {
        laws_below();
        if self.is_wrong_write(reg, value) {
            return Err(StepFault::Broken(Rule::WrongWorld, 0));
        }
        let root = self.named_root(reg, value, null)?;
        let number = tag_number(value);
        let load = RootValue { number, root };
        match self.shortcut(pe, reg, &load) {
            Shortcut::Held => {
                self.registers.put(pe, reg, load);
                return Ok(());
            }
            Shortcut::Shared(reading) => {
                self.take(pe, reg, &load, &[reading]);
                return Ok(());
            }
            Shortcut::Open => {}
        }
        let seen = match self.registers.readings_with(alloc, pe, reg, &load) {
            Ok(seen) => seen,
            Err(_) => return Err(StepFault::NoMemory),
        };
        self.judge(pe, reg, &seen)?;
        match hold::make_room(&mut self.holds, &mut self.by_root, alloc, &seen) {
            Ok(()) => {}
            Err(_) => return Err(StepFault::NoMemory),
        }
        self.take(pe, reg, &load, &seen);
        Ok(())
    }

    /// Judges the write of a value whose root isn't missing and which makes these tags readable at the PE.
    fn judge(&self, pe: Pe, reg: Reg, seen: &[Reading]) -> Result<(), StepFault>
        requires { pe < pes_of self.now }
        ensures { JudgesReadings (conflict_in self.now.holds (pes_of self.now) seen.now)
            (length (loads_of self.now.registers pe reg)) result }
    {
        match search::least_conflict(&self.holds, self.registers.pes, seen) {
            Some(held) => Err(StepFault::Broken(Rule::TagConflict, held.root.get())),
            None => {
                if self.registers.is_full(pe, reg) {
                    Err(StepFault::Limit(Which::Values))
                } else {
                    Ok(())
                }
            }
        }
    }
}
