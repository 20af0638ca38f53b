//! What every checker of events promises.

ghost use Rattle.std.specs.Prelude.{◌≡◌, ◌≢◌, ℕ, List, [], ◌∷◌, Bool, true, length, reverse, IfOk, OnOk, OnErr, Err};
ghost use Rattle.bbm_events.specs.declared.event.Event.{Event};
ghost use Rattle.bbm_events.specs.Heading.{Heading};
ghost use Rattle.bbm_rules.specs.Answers.{Answers, MayAsk, MayTake, takes_no_memory, rewrites};
ghost use Rattle.bbm_rules.specs.Broken.{broken};
ghost use Rattle.bbm_rules.specs.Claims.{Patterns};
ghost use Rattle.bbm_rules.specs.Limits.{limit_of};
ghost use Rattle.bbm_rules.specs.Pages.{initialised};
ghost use Rattle.bbm_rules.specs.Phases.{phase_of, restless_of};
ghost use Rattle.bbm_rules.specs.Roots as roots;
ghost use Rattle.bbm_rules.specs.Values.{value_of};

use crate::phase::Phase;
use crate::step_fault::StepFault;
use bbm_descriptor::Memory;
use bbm_events::{Event, Header};
use bbm_regimes::{Kind, NoMemory, Page, Pe, Place};
use std::alloc::Global;

/// A checker takes the events of a log one by one. It stands for a history of a header, the newest event
/// first, and judges by the rules over all patterns of events. As a `Memory` it tells the values of places
/// after that history. Source: project's own choice.
pub trait Checker: Memory {
    /// The checker stands for this history of this header.
    ghost stands: { Self → Heading → List Event → Type 0 };

    /// Whether `step` takes memory only where it needs new room.
    ghost frugal: { Self → Bool };

    /// Takes an event that fits the header, after fewer than 2^64 - 1 events. Ok exactly where the event
    /// breaks no rule and reaches no limit, and there is memory; then the checker stands for the history
    /// with the event. After any other answer it stands for what it stood for: `Broken` with the least rule
    /// that the event breaks and the number that the rule names; `Limit` with the limit of pages, roots or
    /// values that an event which keeps the rules reaches; `NoMemory`, in the place of any answer.
    fn step(&mut self, alloc: Global, event: Event) -> Result<(), StepFault>
        requires { MayTake (stands self.old) event }
        ensures judged { (heading : Heading) (h : List Event) → stands self.old heading h
            → Answers result (broken heading Patterns h event) (limit_of h event) }
        ensures taken { OnOk result ((heading : Heading) (h : List Event) → stands self.old heading h
            → stands self.new heading (event ∷ h)) }
        ensures unchanged { OnErr result ((heading : Heading) (h : List Event)
            → stands self.old heading h → stands self.new heading h) }
        ensures frugal_barriers { frugal self.old ≡ true → takes_no_memory event ≡ true
            → result ≢ Err StepFault.NoMemory }
        ensures frugal_writes { (heading : Heading) (h : List Event) → stands self.old heading h
            → frugal self.old ≡ true → rewrites heading h event ≡ true
            → result ≢ Err StepFault.NoMemory }
        ensures stays_frugal { frugal self.new ≡ frugal self.old };

    /// How far the place has been taken through break-before-make at a PE of the header: `Clean` where it
    /// is in no tree or holds nothing.
    fn phase(&self, place: Place, pe: Pe) -> Phase
        requires { MayAsk (stands self.now) pe }
        ensures { (heading : Heading) (h : List Event) → stands self.now heading h
            → result ≡ phase_of heading Patterns h place pe };

    /// The number of events taken.
    fn events(&self) -> u64
        ensures { (heading : Heading) (h : List Event) → stands self.now heading h
            → result ≡ length h };

    /// The number of pages that were ever initialised.
    fn pages(&self) -> u64
        ensures { (heading : Heading) (h : List Event) → stands self.now heading h
            → result ≡ length (initialised h) };

    /// The number of places of trees that hold a value and whose value is invalid.
    fn restless(&self) -> u64
        ensures { (heading : Heading) (h : List Event) → stands self.now heading h
            → result ≡ restless_of heading Patterns h };

    /// Whether the page is the first page of a declared root of this kind.
    fn is_root(&self, kind: Kind, page: Page) -> bool
        ensures { (heading : Heading) (h : List Event) → stands self.now heading h
            → result ≡ roots.is_root h kind page };

    /// As a memory it tells the value of each place after the history.
    ghost values: { (checker : Self) (heading : Heading) (h : List Event) → stands checker heading h
        → (place : ℕ) → Self.value_at checker place ≡ value_of h place };
}

/// A checker that can be made.
pub trait Fresh: Checker {
    /// A checker of this header that took no event.
    fn fresh(alloc: Global, header: &Header) -> Result<Self, NoMemory>
        ensures { IfOk result (λ checker. Self.stands checker header.now []) };
}

/// A checker that can tell its events.
pub trait Logged: Checker {
    /// The events taken, the oldest first.
    fn log(&self) -> &[Event]
        ensures { (heading : Heading) (h : List Event) → Self.stands self.now heading h
            → reverse result.now ≡ h };
}
