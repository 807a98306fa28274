//! A plain list of sub types, which is walked: the slow and simple way to know closed trees by index.

ghost use Rattle.std.specs.Prelude.{◌≡◌, IsSome, IfSome, Option, option_and_then};
ghost use Rattle.wt_env.specs.declared.types.EngineOrModuleTypeIndex.TheVariants as type_index;
ghost use Rattle.wt_tree.specs.Subtyping.{is_sub, supertype_of as supertype_tree, IsTypeMap};
ghost use Rattle.wt_tree.specs.Fit.{named_by, StepsFit};
ghost use Rattle.wt_tree.specs.PlainTypes.{plain_types, ArePlain};

use crate::supers::{Supers, Types, declared_index};
use std::marker::Model;
use wt_env::seq::Seq;
use wt_env::types::{VMSharedTypeIndex, WasmSubType};

/// Sub types, each a recursion group of its own, by their places in a list.
#[derive(Debug, Drop)]
pub struct PlainSupers {
    types: Seq<WasmSubType>,
}

impl Model for PlainSupers {
    ghost use Rattle.std.specs.Prelude.{List};
    ghost use Rattle.wt_env.specs.declared.types.WasmSubType.{WasmSubType as SubType};
    ghost use Rattle.wt_tree.specs.PlainTypes.{ArePlain};

    ghost Value = { List SubType };

    ghost view = { λ plain. plain.types };

    ghost invariant = { λ plain. ArePlain plain.types };
}

impl PlainSupers {
    /// A list of sub types. Every type index in an entry is an engine index, which is the place of the entry itself or
    /// of an earlier one; a supertype is an earlier one, and the shape of the entry may stand for its. Different entries
    /// have different closed trees.
    pub fn new(types: Seq<WasmSubType>) -> PlainSupers
        requires { ArePlain types }
        ensures { result ≡ types }
    {
        PlainSupers { types }
    }

    /// Tells what is true of every such list: different indices have different closed trees, what a type declares as its
    /// supertype has an index too and is before the type, and the shape of each type may stand for that of its declared supertype.
    pub fn tell_invariant(&self)
        ensures map { IsTypeMap (plain_types self.now) }
        ensures fit { StepsFit (plain_types self.now) }
    {
        let _held = self.types.len();
    }

    /// The index that the type with this index declares as its supertype.
    fn supertype(&self, index: VMSharedTypeIndex) -> Option<VMSharedTypeIndex>
        requires { IsSome (plain_types self.now index) }
        ensures declared { option_and_then (plain_types self.now) result ≡ option_and_then supertype_tree (plain_types self.now index) }
        ensures known { IfSome result (λ supertype. IsSome (plain_types self.now supertype)) }
    {
        match self.types.get(index.bits() as usize) {
            Some(ty) => declared_index(ty),
            None => None,
        }
    }

    /// Whether zero or more declared supertype steps lead from `sub` to `sup`.
    fn leads(&self, sub: VMSharedTypeIndex, sup: VMSharedTypeIndex) -> bool
        requires sub { IsSome (plain_types self.now sub) }
        requires sup { IsSome (plain_types self.now sup) }
        ensures { result ≡ is_sub (named_by (plain_types self.now) (type_index.Engine sub)) (named_by (plain_types self.now) (type_index.Engine sup)) }
    {
        self.tell_invariant();
        let mut current = sub;
        while current.bits() != sup.bits() {
            match self.supertype(current) {
                Some(supertype) => current = supertype,
                None => return false,
            }
        }
        true
    }
}

impl Supers for PlainSupers {
    ghost types = { plain_types };

    fn is_subtype(&self, sub: VMSharedTypeIndex, sup: VMSharedTypeIndex) -> bool {
        self.tell_invariant();
        self.leads(sub, sup)
    }
}

impl Types for PlainSupers {
    fn borrow(&self, index: VMSharedTypeIndex) -> Option<&WasmSubType> {
        self.types.get(index.bits() as usize)
    }
}
