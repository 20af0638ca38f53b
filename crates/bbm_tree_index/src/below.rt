//! Going down from a place of a tree, without a look-up.

ghost use Rattle.std.specs.Prelude.{◌≡◌, ℕ, suc, true, Some, IfSome};
ghost use Rattle.std.specs.Option.{option_map};
ghost use Rattle.bbm_rules.specs.Tree.{Node, node_below};
ghost use Rattle.bbm_tree_index.specs.Descent.{MayHang, Translates};
ghost use Rattle.bbm_tree_index.specs.HeldCores.{is_at};
ghost use Rattle.bbm_tree_index.specs.Nodes.{path_at};

use crate::role::Path;
use crate::spot::Spot;
use bbm_regimes::{Page, Place};

/// The place that translates the input page, of a page that hangs at the place with this path, which is of level 0 to
/// 2, with what is known of it: where one goes on the way down along the input page. None where no place of the page
/// translates the input page. Nothing is looked up.
pub fn place_below(above: &Path, page: Page, input: u64) -> Option<(Place, Path)>
    requires { MayHang above.now }
    ensures inside { IfSome result (λ met. is_at page met.0 ≡ true) }
    ensures path { IfSome result (λ met. (n : Node) (a : ℕ) → above.now ≡ path_at n a
        → met.1 ≡ path_at (node_below n a page) met.0) }
    ensures level { IfSome result (λ met. met.1.level ≡ suc above.now.level) }
    ensures translates { IfSome result (λ met. (n : Node) (a : ℕ) → above.now ≡ path_at n a
        → Translates page (node_below n a page) input met.0) }
    ensures met { (n : Node) (a b : ℕ) → above.now ≡ path_at n a → Translates page (node_below n a page) input b
        → option_map (λ met. met.0) result ≡ Some b }
{
    let spot = Spot {
        kind: above.kind,
        level: above.level.below().unwrap(),
        base: above.region.lo,
        first: above.first,
    };
    let place = spot.place_at(page, input)?;
    Some((place, spot.path(place)))
}
