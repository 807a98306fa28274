//! Function types.

ghost use Rattle.std.specs.Prelude.{◌≡◌, ◌↔◌, ◌<◌, ◌∷◌, [], map, slice_get, true, None, IsSome, IsTrue, IfOk, IfErr, OnOk, OnErr, Ok, Err, Some, option_map};
ghost use Rattle.std.specs.Option.{option_copied};
ghost use Rattle.wt_env.specs.declared.types.Kind.TheVariants as kind;
ghost use Rattle.wt_tree.specs.Fit.{TellsFit};
ghost use Rattle.wt_tree.specs.Subtyping.{TellsSteps};
ghost use Rattle.wt_rules.specs.HostTypes.{is_host_type};
ghost use Rattle.wt_model.specs.Indices.{closed_tree};
ghost use Rattle.wt_model.specs.Shown.{sub_type_at};
ghost use Rattle.wt_model.specs.Subtyping.{is_subtype_index};
ghost use Rattle.wt_model.specs.Holds.{IsHeld};
ghost use Rattle.wt_model.specs.Registration.{host_type, trees_of, registration_refusal, IsRefusal, register};
ghost use Rattle.wt_model.specs.Sound.{IsSound};
ghost use Rattle.wt_model.specs.Changes.{HoldChanges};
ghost use Rattle.wt_heap.specs.declared.mutability.Finality.TheVariants as finality;
ghost use Rattle.wt_heap.specs.Engines.{IsOfEngine};
ghost use Rattle.wt_core.specs.CoreTypes.{func_sub_type, ValsAreOfEngine, IsOfKind, root_of_kind, finality_of, supertype_at, params_at, results_at};
ghost use Rattle.wt_core.specs.FromWasm.{val_of};
ghost use Rattle.wt_types.specs.CoreTexts.{text_at};

use crate::show::{Shown, show};
use std::alloc::Global;
use std::marker::Model;
use wt_core::core_type::{finality, register_type, root_of_kind, shapes_fit, sub_type, supertype};
use wt_core::iterators::ValTypes;
use wt_core::sub_types::func_sub_type;
use wt_env::memory::OutOfMemory;
use wt_env::types::{Kind, VMSharedTypeIndex, WasmCompositeInnerType};
use wt_heap::mutability::Finality;
use wt_heap::names::FuncName;
use wt_heap::val_type::ValType;
use wt_registry::refusal::{BuildRefusal, Full};
use wt_registry::registered_type::{PartyNumber, RegisteredType};
use wt_registry::registry::TypeRegistry;

/// A registered function type, and one hold of it by a party (WebAssembly 3.0, "Function Types"). It is never dropped by
/// itself, so it must be spent. Two are equal, by `==` and by hash, where their engine and their index are.
#[derive(Debug, PartialEq, Eq, Hash)]
pub struct FuncType {
    registered_type: RegisteredType,
}

impl Model for FuncType {
    ghost use Rattle.wt_model.specs.Holds.{Hold};

    ghost Value = { Hold };

    ghost view = { λ ty. ty.registered_type };

    ghost inverse = { λ hold. record { registered_type = hold } };
}

impl FuncType {
    /// Registers the final function type, with no supertype, that takes values of these types and gives those. What it
    /// names is registered, of the kind that its place needs and of the registry's engine.
    ///
    /// It is refused with the first cause of the build checks, as `RegisteredType::new`, and then all is as before.
    pub fn new(
        alloc: Global,
        registry: &mut TypeRegistry,
        party: &mut PartyNumber,
        params: &[ValType],
        results: &[ValType],
    ) -> Result<FuncType, BuildRefusal>
        requires host { is_host_type (closed_tree registry.old.made) (func_sub_type finality.Final None params.now results.now) ≡ true }
        requires params_engine { ValsAreOfEngine registry.old.engine.number params.now }
        requires results_engine { ValsAreOfEngine registry.old.engine.number results.now }
        requires party { party.old < registry.old.engine.limits.parties }
        ensures ok { IfOk result (λ hold. register registry.old party.old (func_sub_type finality.Final None params.now results.now) ≡ Ok (hold, registry.new)) }
        ensures kind { IfOk result (λ hold. IsOfKind registry.new.made kind.Func hold.index) }
        ensures accepted { OnOk result (registration_refusal registry.old party.old (host_type (func_sub_type finality.Final None params.now results.now)) ≡ None) }
        ensures refused { IfErr result (λ why. IsRefusal (registration_refusal registry.old party.old (host_type (func_sub_type finality.Final None params.now results.now))) why) }
        ensures named { IfOk result (λ hold. closed_tree registry.new.made hold.index ∷ [] ≡ map Some (trees_of registry.old.made (host_type (func_sub_type finality.Final None params.now results.now)))) }
        ensures err { OnErr result (registry.new ≡ registry.old) }
        ensures party { party.new ≡ party.old }
        ensures changes { IfOk result (λ hold. HoldChanges registry.old registry.new party.old (hold.number ∷ [])) }
        ensures owner { IfOk result (λ hold. hold.party ≡ party.old) }
        ensures held { IfOk result (λ hold. IsHeld registry.new hold) }
        ensures sound { IsSound registry.new }
    {
        FuncType::with_finality_and_supertype(
            alloc,
            registry,
            party,
            Finality::Final,
            None,
            params,
            results,
        )
    }

    /// The same as `FuncType::new`.
    pub fn try_new(
        alloc: Global,
        registry: &mut TypeRegistry,
        party: &mut PartyNumber,
        params: &[ValType],
        results: &[ValType],
    ) -> Result<FuncType, BuildRefusal>
        requires host { is_host_type (closed_tree registry.old.made) (func_sub_type finality.Final None params.now results.now) ≡ true }
        requires params_engine { ValsAreOfEngine registry.old.engine.number params.now }
        requires results_engine { ValsAreOfEngine registry.old.engine.number results.now }
        requires party { party.old < registry.old.engine.limits.parties }
        ensures ok { IfOk result (λ hold. register registry.old party.old (func_sub_type finality.Final None params.now results.now) ≡ Ok (hold, registry.new)) }
        ensures kind { IfOk result (λ hold. IsOfKind registry.new.made kind.Func hold.index) }
        ensures accepted { OnOk result (registration_refusal registry.old party.old (host_type (func_sub_type finality.Final None params.now results.now)) ≡ None) }
        ensures refused { IfErr result (λ why. IsRefusal (registration_refusal registry.old party.old (host_type (func_sub_type finality.Final None params.now results.now))) why) }
        ensures named { IfOk result (λ hold. closed_tree registry.new.made hold.index ∷ [] ≡ map Some (trees_of registry.old.made (host_type (func_sub_type finality.Final None params.now results.now)))) }
        ensures err { OnErr result (registry.new ≡ registry.old) }
        ensures party { party.new ≡ party.old }
        ensures changes { IfOk result (λ hold. HoldChanges registry.old registry.new party.old (hold.number ∷ [])) }
        ensures owner { IfOk result (λ hold. hold.party ≡ party.old) }
        ensures held { IfOk result (λ hold. IsHeld registry.new hold) }
        ensures sound { IsSound registry.new }
    {
        FuncType::new(alloc, registry, party, params, results)
    }

    /// Registers the function type that may have subtypes or not, has this supertype, takes values of these types and
    /// gives those. What it names is registered, of the kind that its place needs and of the registry's engine.
    ///
    /// It is refused with the first cause of the build checks, as `RegisteredType::new`, and then all is as before.
    pub fn with_finality_and_supertype(
        alloc: Global,
        registry: &mut TypeRegistry,
        party: &mut PartyNumber,
        finality: Finality,
        supertype: Option<&FuncName>,
        params: &[ValType],
        results: &[ValType],
    ) -> Result<FuncType, BuildRefusal>
        requires host { is_host_type (closed_tree registry.old.made) (func_sub_type finality (option_copied supertype) params.now results.now) ≡ true }
        requires supertype_engine { IsOfEngine registry.old.engine.number (option_map (λ name. name.engine) (option_copied supertype)) }
        requires params_engine { ValsAreOfEngine registry.old.engine.number params.now }
        requires results_engine { ValsAreOfEngine registry.old.engine.number results.now }
        requires party { party.old < registry.old.engine.limits.parties }
        ensures ok { IfOk result (λ hold. register registry.old party.old (func_sub_type finality (option_copied supertype.entry) params.now results.now) ≡ Ok (hold, registry.new)) }
        ensures kind { IfOk result (λ hold. IsOfKind registry.new.made kind.Func hold.index) }
        ensures accepted { OnOk result (registration_refusal registry.old party.old (host_type (func_sub_type finality (option_copied supertype.entry) params.now results.now)) ≡ None) }
        ensures refused { IfErr result (λ why. IsRefusal (registration_refusal registry.old party.old (host_type (func_sub_type finality (option_copied supertype.entry) params.now results.now))) why) }
        ensures named { IfOk result (λ hold. closed_tree registry.new.made hold.index ∷ [] ≡ map Some (trees_of registry.old.made (host_type (func_sub_type finality (option_copied supertype.entry) params.now results.now)))) }
        ensures err { OnErr result (registry.new ≡ registry.old) }
        ensures party { party.new ≡ party.old }
        ensures changes { IfOk result (λ hold. HoldChanges registry.old registry.new party.old (hold.number ∷ [])) }
        ensures owner { IfOk result (λ hold. hold.party ≡ party.old) }
        ensures held { IfOk result (λ hold. IsHeld registry.new hold) }
        ensures sound { IsSound registry.new }
    {
        registry.tell_invariant();
        let ty = func_sub_type(alloc, finality, supertype, params, results)?;
        match register_type(registry, party, ty) {
            Ok(registered_type) => Ok(FuncType { registered_type }),
            Err(why) => Err(why),
        }
    }

    /// Whether this is a function type that a host may register, which its constructors ask for: each type that it names is
    /// registered, and of the kind that its place needs.
    pub fn is_host_type(
        alloc: Global,
        registry: &TypeRegistry,
        finality: Finality,
        supertype: Option<&FuncName>,
        params: &[ValType],
        results: &[ValType],
    ) -> Result<bool, OutOfMemory>
        ensures { IfOk result (λ told. told ≡ is_host_type (closed_tree registry.now.made) (func_sub_type finality (option_copied supertype.entry) params.now results.now)) }
    {
        let ty = func_sub_type(alloc, finality, supertype, params, results)?;
        Ok(registry.is_host_type(&ty))
    }

    /// One more hold of the function type that has this index; `None` exactly where the index names no registered function
    /// type. It is refused exactly where the party's holds of the type's group would pass the limit. It takes no memory.
    pub fn from_shared_type_index(
        registry: &mut TypeRegistry,
        party: &mut PartyNumber,
        index: VMSharedTypeIndex,
    ) -> Result<Option<FuncType>, Full>
        requires { party.old < registry.old.engine.limits.parties }
        ensures ok { IfOk result (λ found. root_of_kind kind.Func registry.old party.old index ≡ Ok (found, registry.new)) }
        ensures found { IfOk result (λ found. IsSome found ↔ IsOfKind registry.old.made kind.Func index) }
        ensures kind { IfOk result (λ found. (hold : _) → found ≡ Some hold → IsOfKind registry.new.made kind.Func hold.index) }
        ensures owner { IfOk result (λ found. (hold : _) → found ≡ Some hold → hold.party ≡ party.old) }
        ensures held { IfOk result (λ found. (hold : _) → found ≡ Some hold → IsHeld registry.new hold) }
        ensures changes { IfOk result (λ found. (hold : _) → found ≡ Some hold → HoldChanges registry.old registry.new party.old (hold.number ∷ [])) }
        ensures full { (full : _) → result ≡ Err full → root_of_kind kind.Func registry.old party.old index ≡ Err full }
        ensures err { OnErr result (registry.new ≡ registry.old) }
        ensures party { party.new ≡ party.old }
        ensures sound { IsSound registry.new }
    {
        match root_of_kind(registry, party, Kind::Func, index) {
            Ok(Some(registered_type)) => Ok(Some(FuncType { registered_type })),
            Ok(None) => Ok(None),
            Err(full) => Err(full),
        }
    }

    /// The hold alone.
    pub fn into_registered(self) -> RegisteredType
        ensures { result ≡ self }
    {
        let FuncType { registered_type } = self;
        registered_type
    }

    /// The name of the type, which holds nothing.
    pub fn name(&self) -> FuncName
        ensures engine { result.engine ≡ self.now.engine }
        ensures index { result.index ≡ self.now.index }
    {
        FuncName {
            engine: self.registered_type.engine(),
            index: self.registered_type.index(),
        }
    }

    /// The number of the engine.
    pub fn engine(&self) -> u64
        ensures { result ≡ self.now.engine }
    {
        self.registered_type.engine()
    }

    /// Whether the type may have subtypes.
    pub fn finality(&self, registry: &TypeRegistry) -> Finality
        requires { IsHeld registry.now self.now }
        ensures { Some result ≡ option_map finality_of (sub_type_at registry.now.made self.now.index) }
    {
        finality(&self.registered_type, registry)
    }

    /// The name of the type's declared supertype, if it has one.
    pub fn supertype(&self, registry: &TypeRegistry) -> Option<FuncName>
        requires { IsHeld registry.now self.now }
        ensures { result ≡ option_map (λ index. record { engine = self.now.engine; index = index }) (supertype_at registry.now.made self.now.index) }
    {
        match supertype(&self.registered_type, registry) {
            Some(index) => Some(FuncName {
                engine: self.engine(),
                index,
            }),
            None => None,
        }
    }

    /// The type of the value that the function takes at a place, counted from 0; `None` exactly past the end.
    pub fn param(&self, registry: &TypeRegistry, i: usize) -> Option<ValType>
        requires held { IsHeld registry.now self.now }
        requires kind { IsOfKind registry.now.made kind.Func self.now.index }
        ensures { result ≡ slice_get (map (val_of registry.now.engine.number) (params_at registry.now.made self.now.index)) i }
    {
        self.params(registry).get(i)
    }

    /// The types of the values that the function takes, in order.
    pub fn params<'r>(&self, registry: &'r TypeRegistry) -> ValTypes<'r>
        requires held { IsHeld registry.now self.now }
        requires kind { IsOfKind registry.now.made kind.Func self.now.index }
        ensures { result ≡ map (val_of registry.now.engine.number) (params_at registry.now.made self.now.index) }
    {
        match &sub_type(&self.registered_type, registry).composite_type {
            WasmCompositeInnerType::Func(func) => {
                ValTypes::new(self.engine(), func.params.as_slice())
            }
            _ => unreachable!(),
        }
    }

    /// The type of the value that the function gives at a place, counted from 0; `None` exactly past the end.
    pub fn result(&self, registry: &TypeRegistry, i: usize) -> Option<ValType>
        requires held { IsHeld registry.now self.now }
        requires kind { IsOfKind registry.now.made kind.Func self.now.index }
        ensures { result ≡ slice_get (map (val_of registry.now.engine.number) (results_at registry.now.made self.now.index)) i }
    {
        self.results(registry).get(i)
    }

    /// The types of the values that the function gives, in order.
    pub fn results<'r>(&self, registry: &'r TypeRegistry) -> ValTypes<'r>
        requires held { IsHeld registry.now self.now }
        requires kind { IsOfKind registry.now.made kind.Func self.now.index }
        ensures { result ≡ map (val_of registry.now.engine.number) (results_at registry.now.made self.now.index) }
    {
        match &sub_type(&self.registered_type, registry).composite_type {
            WasmCompositeInnerType::Func(func) => {
                ValTypes::new(self.engine(), func.results.as_slice())
            }
            _ => unreachable!(),
        }
    }

    /// Whether the type matches the other, and so may stand for it: it has as many parameters and results, each of the
    /// other's parameters matches its own, and each of its results matches the other's (WebAssembly 3.0, "Matching",
    /// "Function Types"). It takes no memory.
    pub fn matches(&self, other: &FuncType, registry: &TypeRegistry) -> bool
        requires held { IsHeld registry.now self.now }
        requires other_held { IsHeld registry.now other.now }
        ensures { TellsFit (closed_tree registry.now.made) self.now.index other.now.index result }
    {
        shapes_fit(&self.registered_type, &other.registered_type, registry)
    }

    /// Whether the two are one type of their engine: they have one index.
    pub fn eq(a: &FuncType, b: &FuncType) -> bool
        requires { a.now.engine ≡ b.now.engine }
        ensures { IsTrue result ↔ (a.now.index ≡ b.now.index) }
    {
        a.registered_type.index() == b.registered_type.index()
    }

    /// The type to be written by `{}`, as wasmtime writes it. Finality and supertype aren't told.
    pub fn show<'a>(&'a self, registry: &'a TypeRegistry) -> Shown<'a>
        requires { IsHeld registry.now self.now }
        ensures { Some result ≡ text_at registry.now.made self.entry.now.index }
    {
        show(&self.registered_type, registry)
    }
}
