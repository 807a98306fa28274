//! The texts of core types: those of wasmtime, but for that of a continuation.

ghost use Rattle.std.specs.Prelude.{◌≡◌, ◌++◌, codes, Some, option_map, option_and_then};
ghost use Rattle.std.specs.Option.{option_copied};
ghost use Rattle.std.specs.Fmt.{WritesOnOk};
ghost use Rattle.wt_env.specs.Texts.{fields_text, sub_type_text};
ghost use Rattle.wt_model.specs.Holds.{IsHeld};
ghost use Rattle.wt_types.specs.CoreTexts.{exception_function as function_over, shape_text, text_at};

use std::fmt;
use std::marker::Model;
use wt_core::core_type::sub_type;
use wt_env::types::{
    EngineOrModuleTypeIndex, VMSharedTypeIndex, WasmCompositeInnerType, WasmExnType, WasmFieldType,
    WasmSubType,
};
use wt_registry::registered_type::RegisteredType;
use wt_registry::registry::TypeRegistry;

/// A core type to be written by `{}`.
#[derive(Debug, Drop)]
pub struct Shown<'a> {
    ty: &'a WasmSubType,
    /// The function type of an exception.
    function: Option<&'a WasmSubType>,
}

impl<'a> Model for Shown<'a> {
    ghost use Rattle.std.specs.Prelude.{ℕ, List};
    ghost use Rattle.std.specs.Option.{option_copied};
    ghost use Rattle.wt_types.specs.CoreTexts.{shape_text};

    ghost Value = { List ℕ };

    ghost view = { λ shown. shape_text (option_copied shown.function) shown.ty.now.composite_type };
}

/// The registered function type of an exception; `None` where it is no exception.
fn exception_function<'r>(ty: &WasmSubType, registry: &'r TypeRegistry) -> Option<&'r WasmSubType>
    ensures { option_copied result ≡ function_over registry.now.made ty.now }
{
    match &ty.composite_type {
        WasmCompositeInnerType::Exn(exn) => match exn.func_ty {
            EngineOrModuleTypeIndex::Engine(index) => registry.borrow(index),
            _ => None,
        },
        _ => None,
    }
}

/// A registered type, to be written.
fn written<'a>(ty: &'a WasmSubType, registry: &'a TypeRegistry) -> Shown<'a>
    ensures { result ≡ shape_text (function_over registry.now.made ty.now) ty.now.composite_type }
{
    Shown {
        ty,
        function: exception_function(ty, registry),
    }
}

/// The registered type that has this index, to be written by `{}`, as wasmtime writes it; `None` exactly where there is
/// none. Finality and supertype aren't told. It takes no memory.
pub fn show_index(registry: &TypeRegistry, index: VMSharedTypeIndex) -> Option<Shown<'_>>
    ensures { result ≡ text_at registry.now.made index }
{
    match registry.borrow(index) {
        Some(ty) => Some(written(ty, registry)),
        None => None,
    }
}

/// The registered type of a hold, to be written.
pub(crate) fn show<'a>(registered: &RegisteredType, registry: &'a TypeRegistry) -> Shown<'a>
    requires { IsHeld registry.now registered.now }
    ensures { Some result ≡ text_at registry.now.made registered.now.index }
{
    written(registered.ty(registry), registry)
}

/// Writes fields, each in `(field ..)` after a blank.
fn write_fields<W: fmt::Write>(f: &mut fmt::Formatter<W>, fields: &[WasmFieldType]) -> fmt::Result
    ensures { WritesOnOk W.write_str_gives f.old result (fields_text fields.now) f.new }
{
    for field in fields {
        write!(f, " (field {field})")?;
    }
    Ok(())
}

/// Writes an exception over this function type.
fn write_exception<W: fmt::Write>(
    f: &mut fmt::Formatter<W>,
    function: &WasmSubType,
    exn: &WasmExnType,
) -> fmt::Result
    ensures { WritesOnOk W.write_str_gives f.old result (codes "(exn " ++ sub_type_text function.now ++ fields_text exn.now.fields ++ codes ")") f.new }
{
    write!(f, "(exn {function}")?;
    write_fields(f, exn.fields.as_slice())?;
    write!(f, ")")
}

impl<'a> fmt::Display for Shown<'a> {
    ghost use Rattle.std.specs.Prelude.{Some};

    ghost output = { λ text. Some text };

    fn fmt<W: fmt::Write>(&self, f: &mut fmt::Formatter<W>) -> fmt::Result {
        match (self.function, &self.ty.composite_type) {
            (Some(function), WasmCompositeInnerType::Exn(exn)) => {
                write_exception(f, function, exn)
            }
            (_, shape) => write!(f, "{shape}"),
        }
    }
}
