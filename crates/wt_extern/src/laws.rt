//! A law of external types: each is what its data give back.

ghost use Rattle.std.specs.Prelude.{◌≡◌, IsTrue};
ghost use Rattle.wt_heap.specs.Engines.{IsOfEngine};
ghost use Rattle.wt_extern.specs.Entities.{extern_to_entity, extern_engine};
ghost use Rattle.wt_extern.specs.EntityRules.{obeys_limits};

use crate::extern_type::ExternType;

/// An external type as its data give it back, where what it names is of this engine, and a table has limits that a table
/// can have.
pub fn extern_comes_back(engine: u64, ty: &ExternType) -> ExternType
    requires engine { IsOfEngine engine (extern_engine ty.now) }
    requires limits { IsTrue (obeys_limits (extern_to_entity ty.now)) }
    ensures law { result ≡ ty.now }
{
    ExternType::from_entity(engine, &ty.to_entity())
}
