//! Exception types.

ghost use Rattle.std.specs.Prelude.{◌≡◌, ◌↔◌, ◌<◌, ◌∷◌, [], map, slice_get, true, None, IsSome, IsTrue, IfOk, IfErr, OnOk, OnErr, Ok, Err, Some, option_map};
ghost use Rattle.std.specs.Option.{option_copied};
ghost use Rattle.wt_env.specs.declared.types.Kind.TheVariants as kind;
ghost use Rattle.wt_tree.specs.Fit.{TellsFit};
ghost use Rattle.wt_tree.specs.Subtyping.{TellsSteps};
ghost use Rattle.wt_rules.specs.HostTypes.{is_host_type};
ghost use Rattle.wt_model.specs.Indices.{closed_tree};
ghost use Rattle.wt_model.specs.Shown.{sub_type_at};
ghost use Rattle.wt_model.specs.Subtyping.{is_subtype_index};
ghost use Rattle.wt_model.specs.Holds.{IsHeld};
ghost use Rattle.wt_heap.specs.ToWasm.{val_to_wasm};
ghost use Rattle.wt_model.specs.HostExceptions.{exception_function};
ghost use Rattle.wt_model.specs.Registration.{host_type, host_exception, trees_of, registration_refusal, IsRefusal, register, register_exception as exception_registered};
ghost use Rattle.wt_model.specs.Sound.{IsSound};
ghost use Rattle.wt_model.specs.Changes.{HoldChanges};
ghost use Rattle.wt_core.specs.CoreTypes.{tag_sub_type, ValsAreOfEngine, IsOfKind, root_of_kind, finality_of, supertype_at, fields_at, function_at};
ghost use Rattle.wt_core.specs.FromWasm.{field_of};
ghost use Rattle.wt_types.specs.CoreTexts.{text_at};

use crate::show::{Shown, show};
use std::alloc::Global;
use std::marker::Model;
use wt_core::core_type::{
    finality, leads_to, register_exception, register_type, root_of_kind, shared, sub_type,
    supertype,
};
use wt_core::iterators::FieldTypes;
use wt_core::sub_types::{all_to_wasm, tag_sub_type};
use wt_env::memory::OutOfMemory;
use wt_env::types::{Kind, VMSharedTypeIndex, WasmCompositeInnerType};
use wt_extern::tag_type::TagType;
use wt_heap::field_type::FieldType;
use wt_heap::mutability::Finality;
use wt_heap::names::{ExnName, FuncName};
use wt_heap::val_type::ValType;
use wt_registry::host_exception::exception_function;
use wt_registry::refusal::{BuildRefusal, Full};
use wt_registry::registered_type::{PartyNumber, RegisteredType};
use wt_registry::registry::TypeRegistry;

/// A registered exception type, and one hold of it by a party (after wasmtime). It is never dropped by
/// itself, so it must be spent. Two are equal, by `==` and by hash, where their engine and their index are.
#[derive(Debug, PartialEq, Eq, Hash)]
pub struct ExnType {
    registered_type: RegisteredType,
}

impl Model for ExnType {
    ghost use Rattle.wt_model.specs.Holds.{Hold};

    ghost Value = { Hold };

    ghost view = { λ ty. ty.registered_type };

    ghost inverse = { λ hold. record { registered_type = hold } };
}

impl ExnType {
    /// Registers the exception that holds values of these types, and its function type, which has them as its parameters;
    /// the party holds the exception alone (after wasmtime). What is named is registered, of the kind that its place needs
    /// and of the registry's engine.
    ///
    /// It is refused with the first cause of the build checks, as `RegisteredType::new_exn`, and then all is as before.
    pub fn new(
        alloc: Global,
        registry: &mut TypeRegistry,
        party: &mut PartyNumber,
        fields: &[ValType],
    ) -> Result<ExnType, BuildRefusal>
        requires host { is_host_type (closed_tree registry.old.made) (exception_function (map val_to_wasm fields.now)) ≡ true }
        requires engine { ValsAreOfEngine registry.old.engine.number fields.now }
        requires party { party.old < registry.old.engine.limits.parties }
        ensures ok { IfOk result (λ hold. exception_registered registry.old party.old (map val_to_wasm fields.now) ≡ Ok (hold, registry.new)) }
        ensures kind { IfOk result (λ hold. IsOfKind registry.new.made kind.Exn hold.index) }
        ensures accepted { OnOk result (registration_refusal registry.old party.old (host_exception (map val_to_wasm fields.now)) ≡ None) }
        ensures refused { IfErr result (λ why. IsRefusal (registration_refusal registry.old party.old (host_exception (map val_to_wasm fields.now))) why) }
        ensures named { IfOk result (λ hold. closed_tree registry.new.made hold.index ∷ [] ≡ map Some (trees_of registry.old.made (host_exception (map val_to_wasm fields.now)))) }
        ensures err { OnErr result (registry.new ≡ registry.old) }
        ensures party { party.new ≡ party.old }
        ensures changes { IfOk result (λ hold. HoldChanges registry.old registry.new party.old (hold.number ∷ [])) }
        ensures owner { IfOk result (λ hold. hold.party ≡ party.old) }
        ensures held { IfOk result (λ hold. IsHeld registry.new hold) }
        ensures sound { IsSound registry.new }
    {
        registry.tell_invariant();
        let values = all_to_wasm(alloc, fields)?;
        match register_exception(registry, party, values.as_slice()) {
            Ok(registered_type) => Ok(ExnType { registered_type }),
            Err(why) => Err(why),
        }
    }

    /// Whether a host may register an exception that holds values of these types, which `ExnType::new` asks for: each type
    /// that they name is registered, and of the kind that its place needs.
    pub fn is_host_type(
        alloc: Global,
        registry: &TypeRegistry,
        fields: &[ValType],
    ) -> Result<bool, OutOfMemory>
        ensures { IfOk result (λ told. told ≡ is_host_type (closed_tree registry.now.made) (exception_function (map val_to_wasm fields.now))) }
    {
        let values = all_to_wasm(alloc, fields)?;
        let function = exception_function(alloc, values.as_slice())?;
        Ok(registry.is_host_type(&function))
    }

    /// Registers the exception over the tag's own function type, which is registered: its constant fields hold the
    /// function's parameters (after wasmtime).
    ///
    /// It is refused with the first cause of the build checks, as `RegisteredType::new`: `TagHasResults` where the function
    /// has results, before `NoGc`. Then all is as before.
    pub fn from_tag_type(
        registry: &mut TypeRegistry,
        party: &mut PartyNumber,
        tag: &TagType,
    ) -> Result<ExnType, BuildRefusal>
        requires function { IsOfKind registry.old.made kind.Func tag.now.ty.index }
        requires engine { tag.now.ty.engine ≡ registry.old.engine.number }
        requires party { party.old < registry.old.engine.limits.parties }
        ensures ok { IfOk result (λ hold. register registry.old party.old (tag_sub_type registry.old.made tag.now.ty.index) ≡ Ok (hold, registry.new)) }
        ensures kind { IfOk result (λ hold. IsOfKind registry.new.made kind.Exn hold.index) }
        ensures accepted { OnOk result (registration_refusal registry.old party.old (host_type (tag_sub_type registry.old.made tag.now.ty.index)) ≡ None) }
        ensures refused { IfErr result (λ why. IsRefusal (registration_refusal registry.old party.old (host_type (tag_sub_type registry.old.made tag.now.ty.index))) why) }
        ensures named { IfOk result (λ hold. closed_tree registry.new.made hold.index ∷ [] ≡ map Some (trees_of registry.old.made (host_type (tag_sub_type registry.old.made tag.now.ty.index)))) }
        ensures err { OnErr result (registry.new ≡ registry.old) }
        ensures party { party.new ≡ party.old }
        ensures changes { IfOk result (λ hold. HoldChanges registry.old registry.new party.old (hold.number ∷ [])) }
        ensures owner { IfOk result (λ hold. hold.party ≡ party.old) }
        ensures held { IfOk result (λ hold. IsHeld registry.new hold) }
        ensures sound { IsSound registry.new }
    {
        registry.tell_invariant();
        let ty = tag_sub_type(registry, tag.ty().index)?;
        match register_type(registry, party, ty) {
            Ok(registered_type) => Ok(ExnType { registered_type }),
            Err(why) => Err(why),
        }
    }

    /// One more hold of the exception type that has this index; `None` exactly where the index names no registered exception
    /// type. It is refused exactly where the party's holds of the type's group would pass the limit. It takes no memory.
    pub fn from_shared_type_index(
        registry: &mut TypeRegistry,
        party: &mut PartyNumber,
        index: VMSharedTypeIndex,
    ) -> Result<Option<ExnType>, Full>
        requires { party.old < registry.old.engine.limits.parties }
        ensures ok { IfOk result (λ found. root_of_kind kind.Exn registry.old party.old index ≡ Ok (found, registry.new)) }
        ensures found { IfOk result (λ found. IsSome found ↔ IsOfKind registry.old.made kind.Exn index) }
        ensures kind { IfOk result (λ found. (hold : _) → found ≡ Some hold → IsOfKind registry.new.made kind.Exn hold.index) }
        ensures owner { IfOk result (λ found. (hold : _) → found ≡ Some hold → hold.party ≡ party.old) }
        ensures held { IfOk result (λ found. (hold : _) → found ≡ Some hold → IsHeld registry.new hold) }
        ensures changes { IfOk result (λ found. (hold : _) → found ≡ Some hold → HoldChanges registry.old registry.new party.old (hold.number ∷ [])) }
        ensures full { (full : _) → result ≡ Err full → root_of_kind kind.Exn registry.old party.old index ≡ Err full }
        ensures err { OnErr result (registry.new ≡ registry.old) }
        ensures party { party.new ≡ party.old }
        ensures sound { IsSound registry.new }
    {
        match root_of_kind(registry, party, Kind::Exn, index) {
            Ok(Some(registered_type)) => Ok(Some(ExnType { registered_type })),
            Ok(None) => Ok(None),
            Err(full) => Err(full),
        }
    }

    /// The hold alone.
    pub fn into_registered(self) -> RegisteredType
        ensures { result ≡ self }
    {
        let ExnType { registered_type } = self;
        registered_type
    }

    /// The name of the type, which holds nothing.
    pub fn name(&self) -> ExnName
        ensures engine { result.engine ≡ self.now.engine }
        ensures index { result.index ≡ self.now.index }
    {
        ExnName {
            engine: self.registered_type.engine(),
            index: self.registered_type.index(),
        }
    }

    /// The number of the engine.
    pub fn engine(&self) -> u64
        ensures { result ≡ self.now.engine }
    {
        self.registered_type.engine()
    }

    /// Whether the type may have subtypes.
    pub fn finality(&self, registry: &TypeRegistry) -> Finality
        requires { IsHeld registry.now self.now }
        ensures { Some result ≡ option_map finality_of (sub_type_at registry.now.made self.now.index) }
    {
        finality(&self.registered_type, registry)
    }

    /// The name of the type's declared supertype, if it has one.
    pub fn supertype(&self, registry: &TypeRegistry) -> Option<ExnName>
        requires { IsHeld registry.now self.now }
        ensures { result ≡ option_map (λ index. record { engine = self.now.engine; index = index }) (supertype_at registry.now.made self.now.index) }
    {
        match supertype(&self.registered_type, registry) {
            Some(index) => Some(ExnName {
                engine: self.engine(),
                index,
            }),
            None => None,
        }
    }

    /// The exception's field at a place, counted from 0; `None` exactly past the end.
    pub fn field(&self, registry: &TypeRegistry, i: usize) -> Option<FieldType>
        requires held { IsHeld registry.now self.now }
        requires kind { IsOfKind registry.now.made kind.Exn self.now.index }
        ensures { result ≡ slice_get (map (field_of registry.now.engine.number) (fields_at registry.now.made self.now.index)) i }
    {
        self.fields(registry).get(i)
    }

    /// The exception's fields, in order.
    pub fn fields<'r>(&self, registry: &'r TypeRegistry) -> FieldTypes<'r>
        requires held { IsHeld registry.now self.now }
        requires kind { IsOfKind registry.now.made kind.Exn self.now.index }
        ensures { result ≡ map (field_of registry.now.engine.number) (fields_at registry.now.made self.now.index) }
    {
        match &sub_type(&self.registered_type, registry).composite_type {
            WasmCompositeInnerType::Exn(exn) => {
                FieldTypes::new(self.engine(), exn.fields.as_slice())
            }
            _ => unreachable!(),
        }
    }

    /// The type of the tags that throw the exception: its function type, whose parameters its fields hold.
    pub fn tag_type(&self, registry: &TypeRegistry) -> TagType
        requires held { IsHeld registry.now self.now }
        requires kind { IsOfKind registry.now.made kind.Exn self.now.index }
        ensures { Some result ≡ option_map (λ index. record { ty = record { engine = self.now.engine; index = index } }) (function_at registry.now.made self.now.index) }
    {
        match &sub_type(&self.registered_type, registry).composite_type {
            WasmCompositeInnerType::Exn(exn) => {
                TagType::new(FuncName {
                    engine: self.engine(),
                    index: shared(exn.func_ty),
                })
            }
            _ => unreachable!(),
        }
    }

    /// Whether the type matches the other, and so may stand for it: zero or more declared supertype steps lead from it to
    /// the other (WebAssembly 3.0, "Matching"). It takes no memory.
    pub fn matches(&self, other: &ExnType, registry: &TypeRegistry) -> bool
        requires held { IsHeld registry.now self.now }
        requires other_held { IsHeld registry.now other.now }
        ensures value { result ≡ is_subtype_index registry.now.made self.now.index other.now.index }
        ensures steps { TellsSteps (closed_tree registry.now.made) self.now.index other.now.index result }
    {
        leads_to(&self.registered_type, &other.registered_type, registry)
    }

    /// The type to be written by `{}`, as wasmtime writes it. Finality and supertype aren't told.
    pub fn show<'a>(&'a self, registry: &'a TypeRegistry) -> Shown<'a>
        requires { IsHeld registry.now self.now }
        ensures { Some result ≡ text_at registry.now.made self.entry.now.index }
    {
        show(&self.registered_type, registry)
    }
}
