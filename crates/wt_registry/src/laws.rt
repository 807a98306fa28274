//! Facts that follow from the contracts, each carried by a call.

ghost use Rattle.std.specs.Prelude.{◌≡◌, ◌↔◌, IsTrue, IsSome};
ghost use Rattle.wt_model.specs.Indices.{locate, closed_tree};
ghost use Rattle.wt_model.specs.Holds.{hold_feed};

use crate::registered_type::RegisteredType;
use crate::registry::TypeRegistry;

/// Whether two holds of an engine are equal. They are exactly where the closed trees of their types are
/// equal, and then they have one hash.
pub fn are_one_type(registry: &TypeRegistry, left: &RegisteredType, right: &RegisteredType) -> bool
    requires engine { left.now.engine ≡ right.now.engine }
    requires left { IsSome (locate registry.now.made left.now.index) }
    requires right { IsSome (locate registry.now.made right.now.index) }
    ensures trees { IsTrue result ↔ (closed_tree registry.now.made left.now.index ≡ closed_tree registry.now.made right.now.index) }
    ensures hashes { IsTrue result → hold_feed left.now ≡ hold_feed right.now }
{
    registry.tell_invariant();
    left == right
}
