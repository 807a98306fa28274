//! The texts of types (those of wasmtime). Nothing here reads a registry: an index is printed as it is.

ghost use Rattle.std.specs.Fmt.{WritesOnOk};
ghost use Rattle.wt_env.specs.Texts.{clause_text, fields_text, vals_text};

use crate::types::{
    EngineOrModuleTypeIndex, ModuleInternedTypeIndex, VMSharedTypeIndex, WasmArrayType,
    WasmCompositeInnerType, WasmContType, WasmExnType, WasmFieldType, WasmFuncType, WasmHeapType,
    WasmRefType, WasmStorageType, WasmStructType, WasmSubType, WasmValType,
};
use std::fmt;

impl fmt::Display for VMSharedTypeIndex {
    ghost use Rattle.std.specs.Prelude.{Some};
    ghost use Rattle.wt_env.specs.Texts.{engine_index_text};

    ghost output = { λ index. Some (engine_index_text index) };

    fn fmt<W: fmt::Write>(&self, f: &mut fmt::Formatter<W>) -> fmt::Result {
        write!(f, "VMSharedTypeIndex({})", self.0)
    }
}

impl fmt::Display for ModuleInternedTypeIndex {
    ghost use Rattle.std.specs.Prelude.{Some};
    ghost use Rattle.wt_env.specs.Texts.{module_index_text};

    ghost output = { λ index. Some (module_index_text index) };

    fn fmt<W: fmt::Write>(&self, f: &mut fmt::Formatter<W>) -> fmt::Result {
        write!(f, "ModuleInternedTypeIndex({})", self.0)
    }
}

impl fmt::Display for EngineOrModuleTypeIndex {
    ghost use Rattle.std.specs.Prelude.{Some};
    ghost use Rattle.wt_env.specs.Texts.{index_text};

    ghost output = { λ index. Some (index_text index) };

    fn fmt<W: fmt::Write>(&self, f: &mut fmt::Formatter<W>) -> fmt::Result {
        match self {
            EngineOrModuleTypeIndex::Engine(index) => write!(f, "{index}"),
            EngineOrModuleTypeIndex::Module(index) => write!(f, "{index}"),
            EngineOrModuleTypeIndex::RecGroup(place) => write!(f, "RecGroup({place})"),
        }
    }
}

impl fmt::Display for WasmHeapType {
    ghost use Rattle.std.specs.Prelude.{Some};
    ghost use Rattle.wt_env.specs.Texts.{heap_text};

    ghost output = { λ heap_type. Some (heap_text heap_type) };

    fn fmt<W: fmt::Write>(&self, f: &mut fmt::Formatter<W>) -> fmt::Result {
        match self {
            WasmHeapType::Extern => write!(f, "extern"),
            WasmHeapType::NoExtern => write!(f, "noextern"),
            WasmHeapType::Func => write!(f, "func"),
            WasmHeapType::ConcreteFunc(index) => write!(f, "(concrete func {index})"),
            WasmHeapType::NoFunc => write!(f, "nofunc"),
            WasmHeapType::Any => write!(f, "any"),
            WasmHeapType::Eq => write!(f, "eq"),
            WasmHeapType::I31 => write!(f, "i31"),
            WasmHeapType::Array => write!(f, "array"),
            WasmHeapType::ConcreteArray(index) => write!(f, "(concrete array {index})"),
            WasmHeapType::Struct => write!(f, "struct"),
            WasmHeapType::ConcreteStruct(index) => write!(f, "(concrete struct {index})"),
            WasmHeapType::Exn => write!(f, "exn"),
            WasmHeapType::ConcreteExn(index) => write!(f, "(concrete exn {index})"),
            WasmHeapType::ConcreteCont(index) => write!(f, "(concrete cont {index})"),
            WasmHeapType::Cont => write!(f, "cont"),
            WasmHeapType::NoCont => write!(f, "nocont"),
            WasmHeapType::None => write!(f, "none"),
            WasmHeapType::NoExn => write!(f, "noexn"),
        }
    }
}

impl fmt::Display for WasmRefType {
    ghost use Rattle.std.specs.Prelude.{Some};
    ghost use Rattle.wt_env.specs.Texts.{ref_text};

    ghost output = { λ reference. Some (ref_text reference) };

    fn fmt<W: fmt::Write>(&self, f: &mut fmt::Formatter<W>) -> fmt::Result {
        if self.nullable {
            write!(f, "(ref null {})", self.heap_type)
        } else {
            write!(f, "(ref {})", self.heap_type)
        }
    }
}

impl fmt::Display for WasmValType {
    ghost use Rattle.std.specs.Prelude.{Some};
    ghost use Rattle.wt_env.specs.Texts.{val_text};

    ghost output = { λ ty. Some (val_text ty) };

    fn fmt<W: fmt::Write>(&self, f: &mut fmt::Formatter<W>) -> fmt::Result {
        match self {
            WasmValType::I32 => write!(f, "i32"),
            WasmValType::I64 => write!(f, "i64"),
            WasmValType::F32 => write!(f, "f32"),
            WasmValType::F64 => write!(f, "f64"),
            WasmValType::V128 => write!(f, "v128"),
            WasmValType::Ref(reference) => write!(f, "{reference}"),
        }
    }
}

impl fmt::Display for WasmStorageType {
    ghost use Rattle.std.specs.Prelude.{Some};
    ghost use Rattle.wt_env.specs.Texts.{storage_text};

    ghost output = { λ storage. Some (storage_text storage) };

    fn fmt<W: fmt::Write>(&self, f: &mut fmt::Formatter<W>) -> fmt::Result {
        match self {
            WasmStorageType::I8 => write!(f, "i8"),
            WasmStorageType::I16 => write!(f, "i16"),
            WasmStorageType::Val(ty) => write!(f, "{ty}"),
        }
    }
}

impl fmt::Display for WasmFieldType {
    ghost use Rattle.std.specs.Prelude.{Some};
    ghost use Rattle.wt_env.specs.Texts.{field_text};

    ghost output = { λ field. Some (field_text field) };

    fn fmt<W: fmt::Write>(&self, f: &mut fmt::Formatter<W>) -> fmt::Result {
        if self.mutable {
            write!(f, "(mut {})", self.element_type)
        } else {
            write!(f, "{}", self.element_type)
        }
    }
}

/// Writes value types, each after a blank.
fn write_vals<W: fmt::Write>(f: &mut fmt::Formatter<W>, types: &[WasmValType]) -> fmt::Result
    ensures { WritesOnOk W.write_str_gives f.old result (vals_text types.now) f.new }
{
    for ty in types {
        write!(f, " {ty}")?;
    }
    Ok(())
}

/// Writes fields, each in `(field ..)` after a blank.
fn write_fields<W: fmt::Write>(f: &mut fmt::Formatter<W>, fields: &[WasmFieldType]) -> fmt::Result
    ensures { WritesOnOk W.write_str_gives f.old result (fields_text fields.now) f.new }
{
    for field in fields {
        write!(f, " (field {field})")?;
    }
    Ok(())
}

/// Writes the parameters or the results of a function after a blank, and nothing where there are none.
fn write_clause<W: fmt::Write>(
    f: &mut fmt::Formatter<W>,
    word: &str,
    types: &[WasmValType],
) -> fmt::Result
    ensures { WritesOnOk W.write_str_gives f.old result (clause_text word.now types.now) f.new }
{
    if types.is_empty() {
        return Ok(());
    }
    write!(f, " ({word}")?;
    write_vals(f, types)?;
    write!(f, ")")
}

impl fmt::Display for WasmFuncType {
    ghost use Rattle.std.specs.Prelude.{Some};
    ghost use Rattle.wt_env.specs.Texts.{func_text};

    ghost output = { λ func. Some (func_text func) };

    fn fmt<W: fmt::Write>(&self, f: &mut fmt::Formatter<W>) -> fmt::Result {
        write!(f, "(type (func")?;
        write_clause(f, "param", self.params.as_slice())?;
        write_clause(f, "result", self.results.as_slice())?;
        write!(f, "))")
    }
}

impl fmt::Display for WasmStructType {
    ghost use Rattle.std.specs.Prelude.{Some};
    ghost use Rattle.wt_env.specs.Texts.{struct_text};

    ghost output = { λ shape. Some (struct_text shape) };

    fn fmt<W: fmt::Write>(&self, f: &mut fmt::Formatter<W>) -> fmt::Result {
        write!(f, "(struct")?;
        write_fields(f, self.fields.as_slice())?;
        write!(f, ")")
    }
}

impl fmt::Display for WasmArrayType {
    ghost use Rattle.std.specs.Prelude.{Some};
    ghost use Rattle.wt_env.specs.Texts.{array_text};

    ghost output = { λ array. Some (array_text array) };

    fn fmt<W: fmt::Write>(&self, f: &mut fmt::Formatter<W>) -> fmt::Result {
        write!(f, "(array (field {}))", self.0)
    }
}

impl fmt::Display for WasmExnType {
    ghost use Rattle.std.specs.Prelude.{Some};
    ghost use Rattle.wt_env.specs.Texts.{exn_text};

    ghost output = { λ exn. Some (exn_text exn) };

    fn fmt<W: fmt::Write>(&self, f: &mut fmt::Formatter<W>) -> fmt::Result {
        write!(f, "(exn {}", self.func_ty)?;
        write_fields(f, self.fields.as_slice())?;
        write!(f, ")")
    }
}

impl fmt::Display for WasmContType {
    ghost use Rattle.std.specs.Prelude.{Some};
    ghost use Rattle.wt_env.specs.Texts.{cont_text};

    ghost output = { λ cont. Some (cont_text cont) };

    fn fmt<W: fmt::Write>(&self, f: &mut fmt::Formatter<W>) -> fmt::Result {
        write!(f, "(cont {})", self.0)
    }
}

impl fmt::Display for WasmCompositeInnerType {
    ghost use Rattle.std.specs.Prelude.{Some};
    ghost use Rattle.wt_env.specs.Texts.{composite_text};

    ghost output = { λ shape. Some (composite_text shape) };

    fn fmt<W: fmt::Write>(&self, f: &mut fmt::Formatter<W>) -> fmt::Result {
        match self {
            WasmCompositeInnerType::Func(func) => write!(f, "{func}"),
            WasmCompositeInnerType::Struct(shape) => write!(f, "{shape}"),
            WasmCompositeInnerType::Array(array) => write!(f, "{array}"),
            WasmCompositeInnerType::Exn(exn) => write!(f, "{exn}"),
            WasmCompositeInnerType::Cont(cont) => write!(f, "{cont}"),
        }
    }
}

impl fmt::Display for WasmSubType {
    ghost use Rattle.std.specs.Prelude.{Some};
    ghost use Rattle.wt_env.specs.Texts.{sub_type_text};

    ghost output = { λ ty. Some (sub_type_text ty) };

    fn fmt<W: fmt::Write>(&self, f: &mut fmt::Formatter<W>) -> fmt::Result {
        write!(f, "{}", self.composite_type)
    }
}

#[cfg(test)]
mod tests;
