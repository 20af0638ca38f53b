//! The first root of a log, put to use.

ghost use Rattle.std.specs.Prelude.{◌≡◌, true, [], ◌∷◌, None, IfOk};
ghost use Rattle.bbm_events.specs.declared.event.Event.TheVariants.{Init, Msr, Root};
ghost use Rattle.bbm_rules.specs.Broken.{keeps};
ghost use Rattle.bbm_rules.specs.Claims.{Patterns};
ghost use Rattle.bbm_roots.specs.RootsStand.{Stands};

use bbm_events::Header;
use bbm_regimes::{Kind, Page, Pe, Reg};
use bbm_roots::{Roots, law_others};
use bbm_rules::StepFault;
use std::alloc::Global;

/// The roots of a log after its first three events: a page is made zero, a root of the EL2 regime with this first page
/// is declared, and PE 0 writes it into TTBR0_EL2. The first two break no rule. Source: project's own choice.
pub fn first_root(alloc: Global, header: &Header, page: Page) -> Result<Roots, StepFault>
    requires { keeps header.now Patterns (Root 0 Kind.El2 None page ∷ Init 0 page ∷ []) ≡ true }
    ensures { IfOk result (λ roots. Stands roots header.now
        (Msr 0 Reg.Ttbr0El2 page ∷ Root 0 Kind.El2 None page ∷ Init 0 page ∷ [])) }
{
    law_others();
    let _pes = header.pe_count();
    let mut roots = match Roots::new(alloc, header) {
        Ok(roots) => roots,
        Err(_) => return Err(StepFault::NoMemory),
    };
    roots.prepare(alloc)?;
    roots.declare(Kind::El2, page, None);
    let pe = Pe::new(0).unwrap();
    roots.write_reg(alloc, pe, Reg::Ttbr0El2, page.get(), false)?;
    Ok(roots)
}
