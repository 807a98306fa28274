//! Field types: what a field stores, and whether it can change.

ghost use Rattle.std.specs.Prelude.{◌≡◌};
ghost use Rattle.wt_tree.specs.Kinds.{kinded_field, indices_of};
ghost use Rattle.wt_heap.specs.declared.field_type.FieldType.{FieldType as Field};
ghost use Rattle.wt_heap.specs.Engines.{field_engine, IsOfEngine, AreOfOneEngine, AreEngineIndices};
ghost use Rattle.wt_heap.specs.Matches.{FieldIsKnown, field_matches, both_ways};
ghost use Rattle.wt_heap.specs.ToWasm.{field_to_wasm};

use crate::mutability::Mutability;
use crate::storage_type::StorageType;
use wt_env::types::WasmFieldType;
use wt_tree::fit::fit_field;
use wt_tree::supers::Supers;

/// A field of a struct, or the elements of an array (WebAssembly 3.0, "Field Types").
///
/// `==` compares contents. Whether two are one type is asked by `FieldType::eq`, and whether one may stand for the
/// other by `FieldType::matches`.
#[derive(Clone, Copy, Debug, PartialEq, Eq, Hash)]
pub struct FieldType {
    mutability: Mutability,
    element_type: StorageType,
}

impl FieldType {
    /// The type of fields that store this and can change, or not.
    pub fn new(mutability: Mutability, element_type: StorageType) -> FieldType
        ensures mutability { result.mutability ≡ mutability }
        ensures element_type { result.element_type ≡ element_type }
    {
        FieldType {
            mutability,
            element_type,
        }
    }

    /// Whether the field can change.
    pub fn mutability(&self) -> Mutability
        ensures { result ≡ self.now.mutability }
    {
        self.mutability
    }

    /// What the field stores.
    pub fn element_type(&self) -> &StorageType
        ensures { result.now ≡ self.now.element_type }
    {
        &self.element_type
    }

    /// Whether it matches the other, and so may stand for it (WebAssembly 3.0, "Matching", "Field Types"): both are
    /// constant, and its storage type matches the other's; or both are variable, and the storage types are one. What the
    /// two name is of one engine, and `supers` has its closed tree.
    pub fn matches<S: Supers>(&self, other: &FieldType, supers: &S) -> bool
        requires known { FieldIsKnown (S.types supers.now) self.now }
        requires other_known { FieldIsKnown (S.types supers.now) other.now }
        requires one_engine { AreOfOneEngine (field_engine self.now) (field_engine other.now) }
        ensures { result ≡ field_matches (S.types supers.now) self.now other.now }
    {
        fit_field(&self.to_wasm(), &other.to_wasm(), supers)
    }

    /// Whether the two are one field type: each matches the other. The conditions are those of `matches`.
    pub fn eq<S: Supers>(a: &FieldType, b: &FieldType, supers: &S) -> bool
        requires known { FieldIsKnown (S.types supers.now) a.now }
        requires other_known { FieldIsKnown (S.types supers.now) b.now }
        requires one_engine { AreOfOneEngine (field_engine a.now) (field_engine b.now) }
        ensures { result ≡ both_ways (field_matches (S.types supers.now)) a.now b.now }
    {
        fit_field(&a.to_wasm(), &b.to_wasm(), supers)
            && fit_field(&b.to_wasm(), &a.to_wasm(), supers)
    }

    /// The same as type data, with a registered type by its index.
    pub fn to_wasm(&self) -> WasmFieldType
        ensures { result ≡ field_to_wasm self.now }
    {
        WasmFieldType {
            element_type: self.element_type.to_wasm(),
            mutable: self.mutability.is_var(),
        }
    }

    /// The type that is this type data, where the registered type that it names, if any, is one of the engine with this
    /// number. Its index is an engine index.
    pub fn from_wasm(engine: u64, ty: &WasmFieldType) -> FieldType
        requires { AreEngineIndices (indices_of (kinded_field ty.now)) }
        ensures wasm { field_to_wasm result ≡ ty.now }
        ensures engine { IsOfEngine engine (field_engine result) }
        ensures only { (f : Field) → field_to_wasm f ≡ ty.now → IsOfEngine engine (field_engine f) → result ≡ f }
    {
        let mutability = if ty.mutable {
            Mutability::Var
        } else {
            Mutability::Const
        };
        FieldType {
            mutability,
            element_type: StorageType::from_wasm(engine, &ty.element_type),
        }
    }
}
