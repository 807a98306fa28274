//! Storage types: what a field of a struct or an array stores.

ghost use Rattle.std.specs.Prelude.{◌≡◌, ◌↔◌, IsTrue, IsSome, Some, is_some};
ghost use Rattle.std.specs.Option.{option_copied};
ghost use Rattle.wt_tree.specs.Kinds.{kinded_storage, indices_of};
ghost use Rattle.wt_heap.specs.declared.storage_type.StorageType.{StorageType as Storage};
ghost use Rattle.wt_heap.specs.declared.storage_type.StorageType.TheVariants as storage;
ghost use Rattle.wt_heap.specs.declared.val_type.ValType.TheVariants as val;
ghost use Rattle.wt_heap.specs.Engines.{storage_engine, IsOfEngine, AreOfOneEngine, AreEngineIndices};
ghost use Rattle.wt_heap.specs.Matches.{StorageIsKnown, storage_matches, both_ways};
ghost use Rattle.wt_heap.specs.Parts.{value_of, unpacked};
ghost use Rattle.wt_heap.specs.ToWasm.{storage_to_wasm};

use crate::ref_type::RefType;
use crate::val_type::ValType;
use wt_env::types::WasmStorageType;
use wt_tree::fit::fit_storage;
use wt_tree::supers::Supers;

/// What a field of a struct or an array stores: a packed number or a value (WebAssembly 3.0, "Storage Types").
///
/// `==` compares contents. Whether two are one type is asked by `StorageType::eq`, and whether one may stand for the
/// other by `StorageType::matches`.
#[derive(Clone, Copy, Debug, PartialEq, Eq, Hash)]
pub enum StorageType {
    /// A packed number of 8 bits.
    I8,
    /// A packed number of 16 bits.
    I16,
    /// A value.
    ValType(ValType),
}

impl From<ValType> for StorageType {
    ghost from_gives = { λ value stored. stored ≡ storage.ValType value };

    fn from(value: ValType) -> StorageType {
        StorageType::ValType(value)
    }
}

impl From<RefType> for StorageType {
    ghost from_gives = { λ reference stored. stored ≡ storage.ValType (val.Ref reference) };

    fn from(reference: RefType) -> StorageType {
        StorageType::ValType(ValType::Ref(reference))
    }
}

impl StorageType {
    /// Whether it is `i8`.
    pub fn is_i8(&self) -> bool
        ensures { IsTrue result ↔ (self.now ≡ storage.I8) }
    {
        matches!(self, StorageType::I8)
    }

    /// Whether it is `i16`.
    pub fn is_i16(&self) -> bool
        ensures { IsTrue result ↔ (self.now ≡ storage.I16) }
    {
        matches!(self, StorageType::I16)
    }

    /// Whether it is a value type.
    pub fn is_val_type(&self) -> bool
        ensures { result ≡ is_some (value_of self.now) }
    {
        matches!(self, StorageType::ValType(_))
    }

    /// The value type that it is, if it is one.
    pub fn as_val_type(&self) -> Option<&ValType>
        ensures { option_copied result ≡ value_of self.now }
    {
        match self {
            StorageType::ValType(value) => Some(value),
            _ => None,
        }
    }

    /// The value type that it is.
    pub fn unwrap_val_type(&self) -> &ValType
        requires { IsSome (value_of self.now) }
        ensures { Some result.now ≡ value_of self.now }
    {
        self.as_val_type().unwrap()
    }

    /// The type of the value that is read from such a field and written to it (WebAssembly 3.0, "Storage Types"): `i32`
    /// for a packed number, and else the value type that it is.
    pub fn unpack(&self) -> &ValType
        ensures { result.now ≡ unpacked self.now }
    {
        match self {
            StorageType::I8 | StorageType::I16 => &ValType::I32,
            StorageType::ValType(value) => value,
        }
    }

    /// Whether it matches the other, and so may stand for it (WebAssembly 3.0, "Matching", "Storage Types"): a packed
    /// number matches itself alone, and value types match by `ValType::matches`. What the two name is of one engine, and
    /// `supers` has its closed tree.
    pub fn matches<S: Supers>(&self, other: &StorageType, supers: &S) -> bool
        requires known { StorageIsKnown (S.types supers.now) self.now }
        requires other_known { StorageIsKnown (S.types supers.now) other.now }
        requires one_engine { AreOfOneEngine (storage_engine self.now) (storage_engine other.now) }
        ensures { result ≡ storage_matches (S.types supers.now) self.now other.now }
    {
        fit_storage(&self.to_wasm(), &other.to_wasm(), supers)
    }

    /// Whether the two are one storage type: each matches the other. The conditions are those of `matches`.
    pub fn eq<S: Supers>(a: &StorageType, b: &StorageType, supers: &S) -> bool
        requires known { StorageIsKnown (S.types supers.now) a.now }
        requires other_known { StorageIsKnown (S.types supers.now) b.now }
        requires one_engine { AreOfOneEngine (storage_engine a.now) (storage_engine b.now) }
        ensures { result ≡ both_ways (storage_matches (S.types supers.now)) a.now b.now }
    {
        fit_storage(&a.to_wasm(), &b.to_wasm(), supers)
            && fit_storage(&b.to_wasm(), &a.to_wasm(), supers)
    }

    /// The same as type data, with a registered type by its index.
    pub fn to_wasm(&self) -> WasmStorageType
        ensures { result ≡ storage_to_wasm self.now }
    {
        match self {
            StorageType::I8 => WasmStorageType::I8,
            StorageType::I16 => WasmStorageType::I16,
            StorageType::ValType(value) => WasmStorageType::Val(value.to_wasm()),
        }
    }

    /// The type that is this type data, where the registered type that it names, if any, is one of the engine with this
    /// number. Its index is an engine index.
    pub fn from_wasm(engine: u64, ty: &WasmStorageType) -> StorageType
        requires { AreEngineIndices (indices_of (kinded_storage ty.now)) }
        ensures wasm { storage_to_wasm result ≡ ty.now }
        ensures engine { IsOfEngine engine (storage_engine result) }
        ensures only { (s : Storage) → storage_to_wasm s ≡ ty.now → IsOfEngine engine (storage_engine s) → result ≡ s }
    {
        match ty {
            WasmStorageType::I8 => StorageType::I8,
            WasmStorageType::I16 => StorageType::I16,
            WasmStorageType::Val(value) => StorageType::ValType(ValType::from_wasm(engine, value)),
        }
    }
}
