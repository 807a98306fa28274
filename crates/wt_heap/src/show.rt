//! The texts of types (those of wasmtime): those of their type data, so that a registered type is told by its index.

use crate::field_type::FieldType;
use crate::heap_type::HeapType;
use crate::ref_type::RefType;
use crate::storage_type::StorageType;
use crate::val_type::ValType;
use std::fmt;

impl fmt::Display for HeapType {
    ghost use Rattle.std.specs.Prelude.{Some};
    ghost use Rattle.wt_env.specs.Texts.{heap_text};
    ghost use Rattle.wt_heap.specs.ToWasm.{heap_to_wasm};

    ghost output = { λ heap_type. Some (heap_text (heap_to_wasm heap_type)) };

    fn fmt<W: fmt::Write>(&self, f: &mut fmt::Formatter<W>) -> fmt::Result {
        let heap_type = self.to_wasm();
        write!(f, "{heap_type}")
    }
}

impl fmt::Display for RefType {
    ghost use Rattle.std.specs.Prelude.{Some};
    ghost use Rattle.wt_env.specs.Texts.{ref_text};
    ghost use Rattle.wt_heap.specs.ToWasm.{ref_to_wasm};

    ghost output = { λ reference. Some (ref_text (ref_to_wasm reference)) };

    fn fmt<W: fmt::Write>(&self, f: &mut fmt::Formatter<W>) -> fmt::Result {
        let reference = self.to_wasm();
        write!(f, "{reference}")
    }
}

impl fmt::Display for ValType {
    ghost use Rattle.std.specs.Prelude.{Some};
    ghost use Rattle.wt_env.specs.Texts.{val_text};
    ghost use Rattle.wt_heap.specs.ToWasm.{val_to_wasm};

    ghost output = { λ ty. Some (val_text (val_to_wasm ty)) };

    fn fmt<W: fmt::Write>(&self, f: &mut fmt::Formatter<W>) -> fmt::Result {
        let ty = self.to_wasm();
        write!(f, "{ty}")
    }
}

impl fmt::Display for StorageType {
    ghost use Rattle.std.specs.Prelude.{Some};
    ghost use Rattle.wt_env.specs.Texts.{storage_text};
    ghost use Rattle.wt_heap.specs.ToWasm.{storage_to_wasm};

    ghost output = { λ storage. Some (storage_text (storage_to_wasm storage)) };

    fn fmt<W: fmt::Write>(&self, f: &mut fmt::Formatter<W>) -> fmt::Result {
        let storage = self.to_wasm();
        write!(f, "{storage}")
    }
}

impl fmt::Display for FieldType {
    ghost use Rattle.std.specs.Prelude.{Some};
    ghost use Rattle.wt_env.specs.Texts.{field_text};
    ghost use Rattle.wt_heap.specs.ToWasm.{field_to_wasm};

    ghost output = { λ field. Some (field_text (field_to_wasm field)) };

    fn fmt<W: fmt::Write>(&self, f: &mut fmt::Formatter<W>) -> fmt::Result {
        let field = self.to_wasm();
        write!(f, "{field}")
    }
}

#[cfg(test)]
mod tests {
    use super::*;
    use crate::mutability::Mutability;
    use crate::names::{ExnName, FuncName};
    use std::test::Fail;
    use wt_env::types::VMSharedTypeIndex;

    const NAMED: HeapType = HeapType::ConcreteFunc(FuncName {
        engine: 7,
        index: VMSharedTypeIndex(3),
    });

    #[test]
    fn tells_heap_types(rt: HostRuntime) -> Result<(), Fail> {
        let exn = HeapType::ConcreteExn(ExnName {
            engine: 7,
            index: VMSharedTypeIndex(0),
        });
        let rows = [
            (HeapType::Any, "any"),
            (HeapType::NoExtern, "noextern"),
            (NAMED, "(concrete func VMSharedTypeIndex(3))"),
            (exn, "(concrete exn VMSharedTypeIndex(0))"),
        ];
        for (heap_type, text) in rows {
            let told = format!(in rt.alloc(); "{heap_type}")?;
            assert_eq!(rt; told.as_str(), text);
        }
        Ok(())
    }

    #[test]
    fn tells_value_types(rt: HostRuntime) -> Result<(), Fail> {
        let named = ValType::Ref(RefType::new(true, NAMED));
        let non_null = ValType::Ref(RefType::new(false, HeapType::Struct));
        let rows = [
            (ValType::F32, "f32"),
            (ValType::V128, "v128"),
            (ValType::FUNCREF, "(ref null func)"),
            (ValType::NULLREF, "(ref null none)"),
            (named, "(ref null (concrete func VMSharedTypeIndex(3)))"),
            (non_null, "(ref struct)"),
        ];
        for (ty, text) in rows {
            let told = format!(in rt.alloc(); "{ty}")?;
            assert_eq!(rt; told.as_str(), text);
        }
        let reference = format!(in rt.alloc(); "{}", RefType::EXNREF)?;
        assert_eq!(rt; reference.as_str(), "(ref null exn)");
        Ok(())
    }

    #[test]
    fn tells_fields(rt: HostRuntime) -> Result<(), Fail> {
        let packed = format!(in rt.alloc(); "{}", StorageType::I16)?;
        assert_eq!(rt; packed.as_str(), "i16");

        let value = StorageType::ValType(ValType::I64);
        let constant = FieldType::new(Mutability::Const, value);
        let told = format!(in rt.alloc(); "{constant}")?;
        assert_eq!(rt; told.as_str(), "i64");

        let variable = FieldType::new(Mutability::Var, StorageType::ValType(ValType::EXTERNREF));
        let told = format!(in rt.alloc(); "{variable}")?;
        assert_eq!(rt; told.as_str(), "(mut (ref null extern))");
        Ok(())
    }
}
