//! What compares types by their indices: whoever knows the closed tree of each index.

ghost use Rattle.std.specs.Prelude.{◌≡◌, ◌↔◌, IsSome, IfSome, Option, option_and_then};
ghost use Rattle.wt_env.specs.declared.types.VMSharedTypeIndex.{VMSharedTypeIndex as Shared};
ghost use Rattle.wt_tree.specs.Tree.{ClosedTree};
ghost use Rattle.wt_tree.specs.Subtyping.{TellsSteps, IsTypeMap, engine_index as engine_index_of};
ghost use Rattle.wt_tree.specs.Fit.{ShowsAt};

use wt_env::types::{EngineOrModuleTypeIndex, VMSharedTypeIndex, WasmSubType};

/// Closed trees by index, and whether declared supertype steps lead from one to another. Different indices have
/// different closed trees, and what a type declares as its supertype has an index too, and is before the type.
pub trait Supers {
    /// The closed tree of each index that has one.
    ghost types: { Self → Shared → Option ClosedTree };

    /// Whether zero or more declared supertype steps lead from `sub` to `sup` (WebAssembly 3.0, "Matching"). Both
    /// have closed trees.
    fn is_subtype(&self, sub: VMSharedTypeIndex, sup: VMSharedTypeIndex) -> bool
        requires sub { IsSome (types self.now sub) }
        requires sup { IsSome (types self.now sup) }
        ensures steps { TellsSteps (types self.now) sub sup result }
        ensures map { IsTypeMap (types self.now) };
}

/// The sub type of each index too.
pub trait Types: Supers {
    /// The sub type that has this index, with every type index in it as one of these; `None` exactly where the index
    /// has no closed tree.
    fn borrow(&self, index: VMSharedTypeIndex) -> Option<&WasmSubType>
        ensures found { IsSome result ↔ IsSome (Self.types self.now index) }
        ensures shows { IfSome result (λ ty. ShowsAt (Self.types self.now) index ty.now) };
}

fn engine_index(named: EngineOrModuleTypeIndex) -> Option<VMSharedTypeIndex>
    ensures { result ≡ engine_index_of named }
{
    match named {
        EngineOrModuleTypeIndex::Engine(index) => Some(index),
        _ => None,
    }
}

/// The engine index that a sub type declares as its supertype.
pub fn declared_index(ty: &WasmSubType) -> Option<VMSharedTypeIndex>
    ensures { result ≡ option_and_then engine_index_of ty.now.supertype }
{
    match ty.supertype {
        Some(named) => engine_index(named),
        None => None,
    }
}
