//! The limits that an event reaches.

ghost use Rattle.std.specs.Prelude.{◌≡◌, reverse, IfOk};
ghost use Rattle.bbm_rules.specs.Limits as spec;

use bbm_events::Event;
use bbm_oracle_tags::{count_initialised, is_initialised, register_values, roots_of};
use bbm_regimes::{NoMemory, Which};
use std::alloc::Global;

/// The limit that the event reaches after these events, or none: an `init` of a page that was never initialised
/// before, after 16,384 pages were; a `root` while 1,024 roots are declared; a ninth write of one register by a PE
/// without an ISB of it between. `NoMemory` where there is none. Source: project's own choice.
pub fn limit_of(alloc: Global, events: &[Event], event: &Event) -> Result<Option<Which>, NoMemory>
    ensures { IfOk result (λ limit. limit ≡ spec.limit_of (reverse events.now) event.now) }
{
    match *event {
        Event::Init { pe: _, page } => {
            if !is_initialised(events, page) && count_initialised(events) >= 16384 {
                Ok(Some(Which::Pages))
            } else {
                Ok(None)
            }
        }
        Event::Root { .. } => {
            let roots = roots_of(alloc, events)?;
            if roots.len() >= 1024 {
                Ok(Some(Which::Roots))
            } else {
                Ok(None)
            }
        }
        Event::Msr { pe, reg, value: _ } => {
            let values = register_values(alloc, events, pe, reg)?;
            if values.len() >= 9 {
                Ok(Some(Which::Values))
            } else {
                Ok(None)
            }
        }
        _ => Ok(None),
    }
}
