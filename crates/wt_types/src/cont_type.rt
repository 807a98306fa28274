//! Continuation types.

ghost use Rattle.std.specs.Prelude.{◌≡◌, ◌↔◌, ◌<◌, ◌∷◌, [], map, slice_get, true, None, IsSome, IsTrue, IfOk, IfErr, OnOk, OnErr, Ok, Err, Some, option_map};
ghost use Rattle.std.specs.Option.{option_copied};
ghost use Rattle.wt_env.specs.declared.types.Kind.TheVariants as kind;
ghost use Rattle.wt_tree.specs.Fit.{TellsFit};
ghost use Rattle.wt_tree.specs.Subtyping.{TellsSteps};
ghost use Rattle.wt_rules.specs.HostTypes.{is_host_type};
ghost use Rattle.wt_model.specs.Indices.{closed_tree};
ghost use Rattle.wt_model.specs.Shown.{sub_type_at};
ghost use Rattle.wt_model.specs.Subtyping.{is_subtype_index};
ghost use Rattle.wt_model.specs.Holds.{IsHeld};
ghost use Rattle.wt_model.specs.Registration.{host_type, trees_of, registration_refusal, IsRefusal, register};
ghost use Rattle.wt_model.specs.Sound.{IsSound};
ghost use Rattle.wt_model.specs.Changes.{HoldChanges};
ghost use Rattle.wt_core.specs.CoreTypes.{IsOfKind, root_of_kind, finality_of, supertype_at};
ghost use Rattle.wt_types.specs.CoreTexts.{text_at};

use crate::show::{Shown, show};
use std::marker::Model;
use wt_core::core_type::{finality, leads_to, root_of_kind, supertype};
use wt_env::types::{Kind, VMSharedTypeIndex};
use wt_heap::mutability::Finality;
use wt_heap::names::ContName;
use wt_registry::refusal::Full;
use wt_registry::registered_type::{PartyNumber, RegisteredType};
use wt_registry::registry::TypeRegistry;

/// A registered continuation type, and one hold of it by a party (after wasmtime). It is never dropped by
/// itself, so it must be spent. Two are equal, by `==` and by hash, where their engine and their index are.
#[derive(Debug, PartialEq, Eq, Hash)]
pub struct ContType {
    registered_type: RegisteredType,
}

impl Model for ContType {
    ghost use Rattle.wt_model.specs.Holds.{Hold};

    ghost Value = { Hold };

    ghost view = { λ ty. ty.registered_type };

    ghost inverse = { λ hold. record { registered_type = hold } };
}

impl ContType {
    /// One more hold of the continuation type that has this index; `None` exactly where the index names no registered continuation
    /// type. It is refused exactly where the party's holds of the type's group would pass the limit. It takes no memory.
    pub fn from_shared_type_index(
        registry: &mut TypeRegistry,
        party: &mut PartyNumber,
        index: VMSharedTypeIndex,
    ) -> Result<Option<ContType>, Full>
        requires { party.old < registry.old.engine.limits.parties }
        ensures ok { IfOk result (λ found. root_of_kind kind.Cont registry.old party.old index ≡ Ok (found, registry.new)) }
        ensures found { IfOk result (λ found. IsSome found ↔ IsOfKind registry.old.made kind.Cont index) }
        ensures kind { IfOk result (λ found. (hold : _) → found ≡ Some hold → IsOfKind registry.new.made kind.Cont hold.index) }
        ensures owner { IfOk result (λ found. (hold : _) → found ≡ Some hold → hold.party ≡ party.old) }
        ensures held { IfOk result (λ found. (hold : _) → found ≡ Some hold → IsHeld registry.new hold) }
        ensures changes { IfOk result (λ found. (hold : _) → found ≡ Some hold → HoldChanges registry.old registry.new party.old (hold.number ∷ [])) }
        ensures full { (full : _) → result ≡ Err full → root_of_kind kind.Cont registry.old party.old index ≡ Err full }
        ensures err { OnErr result (registry.new ≡ registry.old) }
        ensures party { party.new ≡ party.old }
        ensures sound { IsSound registry.new }
    {
        match root_of_kind(registry, party, Kind::Cont, index) {
            Ok(Some(registered_type)) => Ok(Some(ContType { registered_type })),
            Ok(None) => Ok(None),
            Err(full) => Err(full),
        }
    }

    /// The hold alone.
    pub fn into_registered(self) -> RegisteredType
        ensures { result ≡ self }
    {
        let ContType { registered_type } = self;
        registered_type
    }

    /// The name of the type, which holds nothing.
    pub fn name(&self) -> ContName
        ensures engine { result.engine ≡ self.now.engine }
        ensures index { result.index ≡ self.now.index }
    {
        ContName {
            engine: self.registered_type.engine(),
            index: self.registered_type.index(),
        }
    }

    /// The number of the engine.
    pub fn engine(&self) -> u64
        ensures { result ≡ self.now.engine }
    {
        self.registered_type.engine()
    }

    /// Whether the type may have subtypes.
    pub fn finality(&self, registry: &TypeRegistry) -> Finality
        requires { IsHeld registry.now self.now }
        ensures { Some result ≡ option_map finality_of (sub_type_at registry.now.made self.now.index) }
    {
        finality(&self.registered_type, registry)
    }

    /// The name of the type's declared supertype, if it has one.
    pub fn supertype(&self, registry: &TypeRegistry) -> Option<ContName>
        requires { IsHeld registry.now self.now }
        ensures { result ≡ option_map (λ index. record { engine = self.now.engine; index = index }) (supertype_at registry.now.made self.now.index) }
    {
        match supertype(&self.registered_type, registry) {
            Some(index) => Some(ContName {
                engine: self.engine(),
                index,
            }),
            None => None,
        }
    }

    /// Whether the type matches the other, and so may stand for it: zero or more declared supertype steps lead from it to
    /// the other (WebAssembly 3.0, "Matching"). It takes no memory.
    pub fn matches(&self, other: &ContType, registry: &TypeRegistry) -> bool
        requires held { IsHeld registry.now self.now }
        requires other_held { IsHeld registry.now other.now }
        ensures value { result ≡ is_subtype_index registry.now.made self.now.index other.now.index }
        ensures steps { TellsSteps (closed_tree registry.now.made) self.now.index other.now.index result }
    {
        leads_to(&self.registered_type, &other.registered_type, registry)
    }

    /// The type to be written by `{}`, as wasmtime writes it. Finality and supertype aren't told.
    pub fn show<'a>(&'a self, registry: &'a TypeRegistry) -> Shown<'a>
        requires { IsHeld registry.now self.now }
        ensures { Some result ≡ text_at registry.now.made self.entry.now.index }
    {
        show(&self.registered_type, registry)
    }
}
