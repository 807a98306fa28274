//! The registry as what compares types by their indices, for `wt_tree::fit`.

use crate::registry::TypeRegistry;
use wt_env::types::{VMSharedTypeIndex, WasmSubType};
use wt_tree::supers::{Supers, Types};

impl Supers for TypeRegistry {
    ghost use Rattle.wt_model.specs.Indices.{closed_tree};

    ghost types = { λ registry. closed_tree registry.made };

    fn is_subtype(&self, sub: VMSharedTypeIndex, sup: VMSharedTypeIndex) -> bool {
        self.tell_invariant();
        self.is_subtype(sub, sup)
    }
}

impl Types for TypeRegistry {
    fn borrow(&self, index: VMSharedTypeIndex) -> Option<&WasmSubType> {
        self.tell_invariant();
        self.borrow(index)
    }
}
