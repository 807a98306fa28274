//! The lists that a registered type is made of, as an embedder speaks of them. Each element is told when it is asked
//! for, so no list takes memory.

ghost use Rattle.std.specs.Prelude.{◌≡◌, map, slice_get};
ghost use Rattle.std.specs.Option.{option_copied};
ghost use Rattle.wt_tree.specs.Kinds.{kinded_val, kinded_vals, kinded_field, kinded_fields, indices_of};
ghost use Rattle.wt_heap.specs.Engines.{AreEngineIndices};
ghost use Rattle.wt_core.specs.FromWasm.{val_of as named_val, field_of as named_field};

use std::marker::Model;
use wt_env::types::{WasmFieldType, WasmValType};
use wt_heap::field_type::FieldType;
use wt_heap::val_type::ValType;

/// What stands at a place, counted from 0; `None` exactly past the end.
fn item_at<T>(items: &[T], place: usize) -> Option<&T>
    ensures { option_copied result ≡ slice_get items.now place }
{
    items.get(place)
}

/// A value type of a registered type of the engine with this number.
pub fn val_of(engine: u64, ty: &WasmValType) -> ValType
    requires { AreEngineIndices (indices_of (kinded_val ty.now)) }
    ensures { result ≡ named_val engine ty.now }
{
    ValType::from_wasm(engine, ty)
}

/// A field type of a registered type of the engine with this number.
pub fn field_of(engine: u64, ty: &WasmFieldType) -> FieldType
    requires { AreEngineIndices (indices_of (kinded_field ty.now)) }
    ensures { result ≡ named_field engine ty.now }
{
    FieldType::from_wasm(engine, ty)
}

/// Value types, in order: what a function takes, or what it gives.
#[derive(Debug, Drop)]
pub struct ValTypes<'r> {
    engine: u64,
    types: &'r [WasmValType],
}

impl<'r> Model for ValTypes<'r> {
    ghost use Rattle.std.specs.Prelude.{List, map};
    ghost use Rattle.wt_tree.specs.Kinds.{kinded_vals, indices_of};
    ghost use Rattle.wt_heap.specs.declared.val_type.ValType.{ValType as Value_type};
    ghost use Rattle.wt_heap.specs.Engines.{AreEngineIndices};
    ghost use Rattle.wt_core.specs.FromWasm.{val_of as named_val};

    ghost Value = { List Value_type };

    ghost view = { λ list. map (named_val list.engine) list.types.now };

    ghost invariant = { λ list. AreEngineIndices (indices_of (kinded_vals list.types.now)) };
}

impl<'r> ValTypes<'r> {
    /// The value types that these data are, of the engine with this number.
    pub fn new(engine: u64, types: &'r [WasmValType]) -> ValTypes<'r>
        requires { AreEngineIndices (indices_of (kinded_vals types.now)) }
        ensures { result ≡ map (named_val engine) types.entry.now }
    {
        ValTypes { engine, types }
    }

    /// The value type at a place, counted from 0; `None` exactly past the end.
    pub fn get(&self, place: usize) -> Option<ValType>
        ensures { result ≡ slice_get self.now place }
    {
        match item_at(self.types, place) {
            Some(ty) => Some(val_of(self.engine, ty)),
            None => None,
        }
    }
}

impl<'r> Iterator for ValTypes<'r> {
    ghost use Rattle.std.specs.Iterator.{YieldsFirst, item_count};

    type Item = ValType;

    ghost next_gives = { YieldsFirst (λ rest. rest) };

    ghost remaining = { item_count (λ rest. rest) };

    fn next(&mut self) -> Option<ValType> {
        let (first, rest) = self.types.split_first()?;
        let ty = val_of(self.engine, first);
        self.types = rest;
        Some(ty)
    }
}

impl<'r> ExactSizeIterator for ValTypes<'r> {
    fn len(&self) -> usize {
        self.types.len()
    }
}

/// Field types, in order: those of a struct or an exception.
#[derive(Debug, Drop)]
pub struct FieldTypes<'r> {
    engine: u64,
    types: &'r [WasmFieldType],
}

impl<'r> Model for FieldTypes<'r> {
    ghost use Rattle.std.specs.Prelude.{List, map};
    ghost use Rattle.wt_tree.specs.Kinds.{kinded_fields, indices_of};
    ghost use Rattle.wt_heap.specs.declared.field_type.FieldType.{FieldType as Field};
    ghost use Rattle.wt_heap.specs.Engines.{AreEngineIndices};
    ghost use Rattle.wt_core.specs.FromWasm.{field_of as named_field};

    ghost Value = { List Field };

    ghost view = { λ list. map (named_field list.engine) list.types.now };

    ghost invariant = { λ list. AreEngineIndices (indices_of (kinded_fields list.types.now)) };
}

impl<'r> FieldTypes<'r> {
    /// The field types that these data are, of the engine with this number.
    pub fn new(engine: u64, types: &'r [WasmFieldType]) -> FieldTypes<'r>
        requires { AreEngineIndices (indices_of (kinded_fields types.now)) }
        ensures { result ≡ map (named_field engine) types.entry.now }
    {
        FieldTypes { engine, types }
    }

    /// The field type at a place, counted from 0; `None` exactly past the end.
    pub fn get(&self, place: usize) -> Option<FieldType>
        ensures { result ≡ slice_get self.now place }
    {
        match item_at(self.types, place) {
            Some(ty) => Some(field_of(self.engine, ty)),
            None => None,
        }
    }
}

impl<'r> Iterator for FieldTypes<'r> {
    ghost use Rattle.std.specs.Iterator.{YieldsFirst, item_count};

    type Item = FieldType;

    ghost next_gives = { YieldsFirst (λ rest. rest) };

    ghost remaining = { item_count (λ rest. rest) };

    fn next(&mut self) -> Option<FieldType> {
        let (first, rest) = self.types.split_first()?;
        let ty = field_of(self.engine, first);
        self.types = rest;
        Some(ty)
    }
}

impl<'r> ExactSizeIterator for FieldTypes<'r> {
    fn len(&self) -> usize {
        self.types.len()
    }
}
