//! Array types.

ghost use Rattle.std.specs.Prelude.{◌≡◌, ◌↔◌, ◌<◌, ◌∷◌, [], map, slice_get, true, None, IsSome, IsTrue, IfOk, IfErr, OnOk, OnErr, Ok, Err, Some, option_map};
ghost use Rattle.std.specs.Option.{option_copied};
ghost use Rattle.wt_env.specs.declared.types.Kind.TheVariants as kind;
ghost use Rattle.wt_tree.specs.Fit.{TellsFit};
ghost use Rattle.wt_tree.specs.Subtyping.{TellsSteps};
ghost use Rattle.wt_rules.specs.HostTypes.{is_host_type};
ghost use Rattle.wt_model.specs.Indices.{closed_tree};
ghost use Rattle.wt_model.specs.Shown.{sub_type_at};
ghost use Rattle.wt_model.specs.Subtyping.{is_subtype_index};
ghost use Rattle.wt_model.specs.Holds.{IsHeld};
ghost use Rattle.wt_model.specs.Registration.{host_type, trees_of, registration_refusal, IsRefusal, register};
ghost use Rattle.wt_model.specs.Sound.{IsSound};
ghost use Rattle.wt_model.specs.Changes.{HoldChanges};
ghost use Rattle.wt_heap.specs.declared.mutability.Finality.TheVariants as finality;
ghost use Rattle.wt_heap.specs.Engines.{field_engine, IsOfEngine};
ghost use Rattle.wt_core.specs.CoreTypes.{array_sub_type, IsOfKind, root_of_kind, finality_of, supertype_at, element_at};
ghost use Rattle.wt_core.specs.FromWasm.{field_of};
ghost use Rattle.wt_types.specs.CoreTexts.{text_at};

use crate::show::{Shown, show};
use std::marker::Model;
use wt_core::core_type::{finality, leads_to, register_type, root_of_kind, sub_type, supertype};
use wt_core::iterators::field_of;
use wt_core::sub_types::array_sub_type;
use wt_env::types::{Kind, VMSharedTypeIndex, WasmCompositeInnerType};
use wt_heap::field_type::FieldType;
use wt_heap::mutability::{Finality, Mutability};
use wt_heap::names::ArrayName;
use wt_heap::storage_type::StorageType;
use wt_registry::refusal::{BuildRefusal, Full};
use wt_registry::registered_type::{PartyNumber, RegisteredType};
use wt_registry::registry::TypeRegistry;

/// A registered array type, and one hold of it by a party (WebAssembly 3.0, "Array Types"). It is never dropped by
/// itself, so it must be spent. Two are equal, by `==` and by hash, where their engine and their index are.
#[derive(Debug, PartialEq, Eq, Hash)]
pub struct ArrayType {
    registered_type: RegisteredType,
}

impl Model for ArrayType {
    ghost use Rattle.wt_model.specs.Holds.{Hold};

    ghost Value = { Hold };

    ghost view = { λ ty. ty.registered_type };

    ghost inverse = { λ hold. record { registered_type = hold } };
}

impl ArrayType {
    /// Registers the final array type, with no supertype, whose elements are of this field type. What it names is
    /// registered, of the kind that its place needs and of the registry's engine.
    ///
    /// It is refused with the first cause of the build checks, as `RegisteredType::new`, and then all is as before.
    pub fn new(
        registry: &mut TypeRegistry,
        party: &mut PartyNumber,
        field_type: FieldType,
    ) -> Result<ArrayType, BuildRefusal>
        requires host { is_host_type (closed_tree registry.old.made) (array_sub_type finality.Final None field_type) ≡ true }
        requires field_engine { IsOfEngine registry.old.engine.number (field_engine field_type) }
        requires party { party.old < registry.old.engine.limits.parties }
        ensures ok { IfOk result (λ hold. register registry.old party.old (array_sub_type finality.Final None field_type) ≡ Ok (hold, registry.new)) }
        ensures kind { IfOk result (λ hold. IsOfKind registry.new.made kind.Array hold.index) }
        ensures accepted { OnOk result (registration_refusal registry.old party.old (host_type (array_sub_type finality.Final None field_type)) ≡ None) }
        ensures refused { IfErr result (λ why. IsRefusal (registration_refusal registry.old party.old (host_type (array_sub_type finality.Final None field_type))) why) }
        ensures named { IfOk result (λ hold. closed_tree registry.new.made hold.index ∷ [] ≡ map Some (trees_of registry.old.made (host_type (array_sub_type finality.Final None field_type)))) }
        ensures err { OnErr result (registry.new ≡ registry.old) }
        ensures party { party.new ≡ party.old }
        ensures changes { IfOk result (λ hold. HoldChanges registry.old registry.new party.old (hold.number ∷ [])) }
        ensures owner { IfOk result (λ hold. hold.party ≡ party.old) }
        ensures held { IfOk result (λ hold. IsHeld registry.new hold) }
        ensures sound { IsSound registry.new }
    {
        ArrayType::with_finality_and_supertype(registry, party, Finality::Final, None, field_type)
    }

    /// Registers the array type that may have subtypes or not, has this supertype, and elements of this field type. What
    /// it names is registered, of the kind that its place needs and of the registry's engine.
    ///
    /// It is refused with the first cause of the build checks, as `RegisteredType::new`, and then all is as before.
    pub fn with_finality_and_supertype(
        registry: &mut TypeRegistry,
        party: &mut PartyNumber,
        finality: Finality,
        supertype: Option<&ArrayName>,
        field_type: FieldType,
    ) -> Result<ArrayType, BuildRefusal>
        requires host { is_host_type (closed_tree registry.old.made) (array_sub_type finality (option_copied supertype) field_type) ≡ true }
        requires supertype_engine { IsOfEngine registry.old.engine.number (option_map (λ name. name.engine) (option_copied supertype)) }
        requires field_engine { IsOfEngine registry.old.engine.number (field_engine field_type) }
        requires party { party.old < registry.old.engine.limits.parties }
        ensures ok { IfOk result (λ hold. register registry.old party.old (array_sub_type finality (option_copied supertype.entry) field_type) ≡ Ok (hold, registry.new)) }
        ensures kind { IfOk result (λ hold. IsOfKind registry.new.made kind.Array hold.index) }
        ensures accepted { OnOk result (registration_refusal registry.old party.old (host_type (array_sub_type finality (option_copied supertype.entry) field_type)) ≡ None) }
        ensures refused { IfErr result (λ why. IsRefusal (registration_refusal registry.old party.old (host_type (array_sub_type finality (option_copied supertype.entry) field_type))) why) }
        ensures named { IfOk result (λ hold. closed_tree registry.new.made hold.index ∷ [] ≡ map Some (trees_of registry.old.made (host_type (array_sub_type finality (option_copied supertype.entry) field_type)))) }
        ensures err { OnErr result (registry.new ≡ registry.old) }
        ensures party { party.new ≡ party.old }
        ensures changes { IfOk result (λ hold. HoldChanges registry.old registry.new party.old (hold.number ∷ [])) }
        ensures owner { IfOk result (λ hold. hold.party ≡ party.old) }
        ensures held { IfOk result (λ hold. IsHeld registry.new hold) }
        ensures sound { IsSound registry.new }
    {
        let ty = array_sub_type(finality, supertype, &field_type);
        match register_type(registry, party, ty) {
            Ok(registered_type) => Ok(ArrayType { registered_type }),
            Err(why) => Err(why),
        }
    }

    /// Whether this is a array type that a host may register, which its constructors ask for: each type that it names is
    /// registered, and of the kind that its place needs.
    pub fn is_host_type(
        registry: &TypeRegistry,
        finality: Finality,
        supertype: Option<&ArrayName>,
        field_type: FieldType,
    ) -> bool
        ensures { result ≡ is_host_type (closed_tree registry.now.made) (array_sub_type finality (option_copied supertype.entry) field_type) }
    {
        registry.is_host_type(&array_sub_type(finality, supertype, &field_type))
    }

    /// One more hold of the array type that has this index; `None` exactly where the index names no registered array
    /// type. It is refused exactly where the party's holds of the type's group would pass the limit. It takes no memory.
    pub fn from_shared_type_index(
        registry: &mut TypeRegistry,
        party: &mut PartyNumber,
        index: VMSharedTypeIndex,
    ) -> Result<Option<ArrayType>, Full>
        requires { party.old < registry.old.engine.limits.parties }
        ensures ok { IfOk result (λ found. root_of_kind kind.Array registry.old party.old index ≡ Ok (found, registry.new)) }
        ensures found { IfOk result (λ found. IsSome found ↔ IsOfKind registry.old.made kind.Array index) }
        ensures kind { IfOk result (λ found. (hold : _) → found ≡ Some hold → IsOfKind registry.new.made kind.Array hold.index) }
        ensures owner { IfOk result (λ found. (hold : _) → found ≡ Some hold → hold.party ≡ party.old) }
        ensures held { IfOk result (λ found. (hold : _) → found ≡ Some hold → IsHeld registry.new hold) }
        ensures changes { IfOk result (λ found. (hold : _) → found ≡ Some hold → HoldChanges registry.old registry.new party.old (hold.number ∷ [])) }
        ensures full { (full : _) → result ≡ Err full → root_of_kind kind.Array registry.old party.old index ≡ Err full }
        ensures err { OnErr result (registry.new ≡ registry.old) }
        ensures party { party.new ≡ party.old }
        ensures sound { IsSound registry.new }
    {
        match root_of_kind(registry, party, Kind::Array, index) {
            Ok(Some(registered_type)) => Ok(Some(ArrayType { registered_type })),
            Ok(None) => Ok(None),
            Err(full) => Err(full),
        }
    }

    /// The hold alone.
    pub fn into_registered(self) -> RegisteredType
        ensures { result ≡ self }
    {
        let ArrayType { registered_type } = self;
        registered_type
    }

    /// The name of the type, which holds nothing.
    pub fn name(&self) -> ArrayName
        ensures engine { result.engine ≡ self.now.engine }
        ensures index { result.index ≡ self.now.index }
    {
        ArrayName {
            engine: self.registered_type.engine(),
            index: self.registered_type.index(),
        }
    }

    /// The number of the engine.
    pub fn engine(&self) -> u64
        ensures { result ≡ self.now.engine }
    {
        self.registered_type.engine()
    }

    /// Whether the type may have subtypes.
    pub fn finality(&self, registry: &TypeRegistry) -> Finality
        requires { IsHeld registry.now self.now }
        ensures { Some result ≡ option_map finality_of (sub_type_at registry.now.made self.now.index) }
    {
        finality(&self.registered_type, registry)
    }

    /// The name of the type's declared supertype, if it has one.
    pub fn supertype(&self, registry: &TypeRegistry) -> Option<ArrayName>
        requires { IsHeld registry.now self.now }
        ensures { result ≡ option_map (λ index. record { engine = self.now.engine; index = index }) (supertype_at registry.now.made self.now.index) }
    {
        match supertype(&self.registered_type, registry) {
            Some(index) => Some(ArrayName {
                engine: self.engine(),
                index,
            }),
            None => None,
        }
    }

    /// The field type of the array's elements.
    pub fn field_type(&self, registry: &TypeRegistry) -> FieldType
        requires held { IsHeld registry.now self.now }
        requires kind { IsOfKind registry.now.made kind.Array self.now.index }
        ensures { Some result ≡ option_map (field_of registry.now.engine.number) (element_at registry.now.made self.now.index) }
    {
        match &sub_type(&self.registered_type, registry).composite_type {
            WasmCompositeInnerType::Array(array) => field_of(self.engine(), &array.0),
            _ => unreachable!(),
        }
    }

    /// Whether the array's elements can change.
    pub fn mutability(&self, registry: &TypeRegistry) -> Mutability
        requires held { IsHeld registry.now self.now }
        requires kind { IsOfKind registry.now.made kind.Array self.now.index }
        ensures { Some result ≡ option_map (λ field. (field_of registry.now.engine.number field).mutability) (element_at registry.now.made self.now.index) }
    {
        self.field_type(registry).mutability()
    }

    /// What the array's elements store.
    pub fn element_type(&self, registry: &TypeRegistry) -> StorageType
        requires held { IsHeld registry.now self.now }
        requires kind { IsOfKind registry.now.made kind.Array self.now.index }
        ensures { Some result ≡ option_map (λ field. (field_of registry.now.engine.number field).element_type) (element_at registry.now.made self.now.index) }
    {
        *self.field_type(registry).element_type()
    }

    /// Whether the type matches the other, and so may stand for it: zero or more declared supertype steps lead from it to
    /// the other (WebAssembly 3.0, "Matching"). It takes no memory.
    pub fn matches(&self, other: &ArrayType, registry: &TypeRegistry) -> bool
        requires held { IsHeld registry.now self.now }
        requires other_held { IsHeld registry.now other.now }
        ensures value { result ≡ is_subtype_index registry.now.made self.now.index other.now.index }
        ensures steps { TellsSteps (closed_tree registry.now.made) self.now.index other.now.index result }
    {
        leads_to(&self.registered_type, &other.registered_type, registry)
    }

    /// Whether the two are one type of their engine: they have one index.
    pub fn eq(a: &ArrayType, b: &ArrayType) -> bool
        requires { a.now.engine ≡ b.now.engine }
        ensures { IsTrue result ↔ (a.now.index ≡ b.now.index) }
    {
        a.registered_type.index() == b.registered_type.index()
    }

    /// The type to be written by `{}`, as wasmtime writes it. Finality and supertype aren't told.
    pub fn show<'a>(&'a self, registry: &'a TypeRegistry) -> Shown<'a>
        requires { IsHeld registry.now self.now }
        ensures { Some result ≡ text_at registry.now.made self.entry.now.index }
    {
        show(&self.registered_type, registry)
    }
}
