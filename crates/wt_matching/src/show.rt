//! The texts of causes: those of wasmtime.

ghost use Rattle.std.specs.Prelude.{◌≡◌, ◌^◌, ◌<◌};
ghost use Rattle.std.specs.Option.{option_copied};
ghost use Rattle.std.specs.Fmt.{WritesOnOk};
ghost use Rattle.wt_env.specs.Texts.{val_text};
ghost use Rattle.wt_extern.specs.Entities.{has_64_bits};
ghost use Rattle.wt_matching.specs.UnfitTexts as texts;
ghost use Rattle.wt_matching.specs.UnfitTexts.{unfit_text, IsSubType, ShowsUnfit};

use crate::definition::{EntityKind, SizedKind};
use crate::unfit::Unfit;
use std::error::Error;
use std::fmt;
use std::marker::Model;
use wt_env::types::{EngineOrModuleTypeIndex, WasmRefType, WasmSubType, WasmValType};
use wt_extern::entity::{IndexType, Limits};
use wt_tree::supers::Types;

/// A cause to be written by `{}`, with function types as an engine has them.
#[derive(Debug, Drop)]
pub struct ShownUnfit<'a> {
    unfit: &'a Unfit,
    /// The function type that is expected.
    expected: Option<&'a WasmSubType>,
    /// The function type that is given.
    actual: Option<&'a WasmSubType>,
}

impl<'a> Model for ShownUnfit<'a> {
    ghost use Rattle.std.specs.Prelude.{ℕ, List};
    ghost use Rattle.std.specs.Option.{option_copied};
    ghost use Rattle.wt_matching.specs.UnfitTexts.{unfit_text};

    ghost Value = { List ℕ };

    ghost view = { λ shown. unfit_text shown.unfit.now (option_copied shown.expected) (option_copied shown.actual) };
}

impl Unfit {
    /// The cause to be written by `{}`, as wasmtime writes it. The function types of functions are told as `types` has
    /// them, and by their indices where it doesn't.
    pub fn show<'a, T: Types>(&'a self, types: &'a T) -> ShownUnfit<'a>
        ensures { ShowsUnfit (T.types types.now) self.now result }
    {
        ShownUnfit {
            unfit: self,
            expected: sub_type(types, self.expected_function()),
            actual: sub_type(types, self.actual_function()),
        }
    }

    /// The function type that is expected, where the cause tells of functions.
    fn expected_function(&self) -> Option<EngineOrModuleTypeIndex>
        ensures { result ≡ texts.expected_function self.now }
    {
        match self {
            Unfit::Function { expected, .. } => Some(*expected),
            _ => None,
        }
    }

    /// The function type that is given, where the cause tells of functions.
    fn actual_function(&self) -> Option<EngineOrModuleTypeIndex>
        ensures { result ≡ texts.actual_function self.now }
    {
        match self {
            Unfit::Function { actual, .. } => Some(*actual),
            _ => None,
        }
    }
}

/// The sub type that an index has.
fn sub_type<T: Types>(types: &T, index: Option<EngineOrModuleTypeIndex>) -> Option<&WasmSubType>
    ensures { IsSubType (T.types types.now) index (option_copied result) }
{
    match index {
        Some(EngineOrModuleTypeIndex::Engine(index)) => types.borrow(index),
        _ => None,
    }
}

impl fmt::Display for EntityKind {
    ghost use Rattle.std.specs.Prelude.{Some};
    ghost use Rattle.wt_matching.specs.UnfitTexts.{kind_text};

    ghost output = { λ kind. Some (kind_text kind) };

    fn fmt<W: fmt::Write>(&self, f: &mut fmt::Formatter<W>) -> fmt::Result {
        match self {
            EntityKind::Func => write!(f, "func"),
            EntityKind::Global => write!(f, "global"),
            EntityKind::Table => write!(f, "table"),
            EntityKind::Memory => write!(f, "memory"),
            EntityKind::Tag => write!(f, "tag"),
        }
    }
}

impl fmt::Display for SizedKind {
    ghost use Rattle.std.specs.Prelude.{Some};
    ghost use Rattle.wt_matching.specs.UnfitTexts.{sized_text};

    ghost output = { λ kind. Some (sized_text kind) };

    fn fmt<W: fmt::Write>(&self, f: &mut fmt::Formatter<W>) -> fmt::Result {
        match self {
            SizedKind::Table => write!(f, "table"),
            SizedKind::Memory => write!(f, "memory"),
        }
    }
}

/// The word for a definition of this kind.
fn found_word(kind: EntityKind) -> &'static str
    ensures { result.now ≡ texts.found_text kind }
{
    match kind {
        EntityKind::Func => "function",
        EntityKind::Global => "global",
        EntityKind::Table => "table",
        EntityKind::Memory => "memory",
        EntityKind::Tag => "tag",
    }
}

fn mutability_word(can_change: bool) -> &'static str
    ensures { result.now ≡ texts.mutability_text can_change }
{
    if can_change { "mutable" } else { "immutable" }
}

fn sharing_word(is_shared: bool) -> &'static str
    ensures { result.now ≡ texts.sharing_text is_shared }
{
    if is_shared { "shared" } else { "non-shared" }
}

fn bits_word(index_type: &IndexType) -> &'static str
    ensures { result.now ≡ texts.bits_text (has_64_bits index_type.now) }
{
    if index_type.is_64() {
        "64-bit"
    } else {
        "32-bit"
    }
}

fn write_limits<W: fmt::Write>(f: &mut fmt::Formatter<W>, limits: &Limits) -> fmt::Result
    ensures { WritesOnOk W.write_str_gives f.old result (texts.limits_text limits.now) f.new }
{
    let min = limits.min;
    match limits.max {
        Some(max) => write!(f, "(min: {min}, max: {max})"),
        None => write!(f, "(min: {min}, max: none)"),
    }
}

/// The bytes of a page, by their logarithm to base 2.
fn page_size(log2: u8) -> u64
    requires { log2 < 64 }
    ensures { result ≡ 2 ^ log2 }
{
    1 << log2
}

/// Writes the bytes of a page, by their logarithm to base 2.
fn write_page<W: fmt::Write>(f: &mut fmt::Formatter<W>, log2: u8) -> fmt::Result
    ensures { WritesOnOk W.write_str_gives f.old result (texts.page_text log2) f.new }
{
    if log2 < 64 {
        write!(f, "{}", page_size(log2))
    } else {
        write!(f, "2**{log2}")
    }
}

/// Writes the type that an index names, or the index.
fn write_named<W: fmt::Write>(
    f: &mut fmt::Formatter<W>,
    index: &EngineOrModuleTypeIndex,
    ty: Option<&WasmSubType>,
) -> fmt::Result
    ensures { WritesOnOk W.write_str_gives f.old result (texts.named_text index.now (option_copied ty.entry)) f.new }
{
    match ty {
        Some(ty) => write!(f, "{ty}"),
        None => write!(f, "{index}"),
    }
}

fn write_function<W: fmt::Write>(
    f: &mut fmt::Formatter<W>,
    expected: &EngineOrModuleTypeIndex,
    actual: &EngineOrModuleTypeIndex,
    expected_type: Option<&WasmSubType>,
    actual_type: Option<&WasmSubType>,
) -> fmt::Result
    ensures { WritesOnOk W.write_str_gives f.old result (texts.functions_text (texts.named_text expected.now (option_copied expected_type.entry)) (texts.named_text actual.now (option_copied actual_type.entry))) f.new }
{
    write!(f, "types incompatible: expected type `")?;
    write_named(f, expected, expected_type)?;
    write!(f, "`, found type `")?;
    write_named(f, actual, actual_type)?;
    write!(f, "`")
}

fn write_content<W: fmt::Write>(
    f: &mut fmt::Formatter<W>,
    expected: &WasmValType,
    actual: &WasmValType,
) -> fmt::Result
    ensures { WritesOnOk W.write_str_gives f.old result (texts.content_text (val_text expected.now) (val_text actual.now)) f.new }
{
    write!(
        f,
        "global types incompatible: expected global of type `{expected}`, found global of type `{actual}`"
    )
}

/// The heap types alone are told where only these don't match.
fn write_references<W: fmt::Write>(
    f: &mut fmt::Formatter<W>,
    expected: &WasmRefType,
    actual: &WasmRefType,
) -> fmt::Result
    ensures { WritesOnOk W.write_str_gives f.old result (texts.references_text expected.now actual.now) f.new }
{
    if !actual.nullable || expected.nullable {
        write!(
            f,
            "global types incompatible: expected global of type `{}`, found global of type `{}`",
            expected.heap_type, actual.heap_type
        )
    } else {
        write!(
            f,
            "global types incompatible: expected global of type `{expected}`, found global of type `{actual}`"
        )
    }
}

fn write_constant<W: fmt::Write>(
    f: &mut fmt::Formatter<W>,
    expected: &WasmValType,
    actual: &WasmValType,
) -> fmt::Result
    ensures { WritesOnOk W.write_str_gives f.old result (texts.constant_text expected.now actual.now) f.new }
{
    match (expected, actual) {
        (WasmValType::Ref(expected), WasmValType::Ref(actual)) => {
            write_references(f, expected, actual)
        }
        _ => write_content(f, expected, actual),
    }
}

fn write_index_types<W: fmt::Write>(
    f: &mut fmt::Formatter<W>,
    kind: &SizedKind,
    expected: &IndexType,
    actual: &IndexType,
) -> fmt::Result
    ensures { WritesOnOk W.write_str_gives f.old result (texts.index_types_text kind.now expected.now actual.now) f.new }
{
    let expected = bits_word(expected);
    let actual = bits_word(actual);
    write!(
        f,
        "{kind} types incompatible: expected {expected} {kind}, found {actual} {kind}"
    )
}

/// Writes the limits of a table or a memory, with its word.
fn write_limits_of<W: fmt::Write>(
    f: &mut fmt::Formatter<W>,
    kind: &SizedKind,
    limits: &Limits,
) -> fmt::Result
    ensures { WritesOnOk W.write_str_gives f.old result (texts.limits_of_text kind.now limits.now) f.new }
{
    write!(f, "{kind} limits ")?;
    write_limits(f, limits)
}

fn write_both_limits<W: fmt::Write>(
    f: &mut fmt::Formatter<W>,
    kind: &SizedKind,
    expected: &Limits,
    actual: &Limits,
) -> fmt::Result
    ensures { WritesOnOk W.write_str_gives f.old result (texts.both_limits_text kind.now expected.now actual.now) f.new }
{
    write!(f, "{kind} types incompatible: expected ")?;
    write_limits_of(f, kind, expected)?;
    write!(f, " doesn't match provided ")?;
    write_limits_of(f, kind, actual)
}

fn write_pages<W: fmt::Write>(f: &mut fmt::Formatter<W>, expected: u8, actual: u8) -> fmt::Result
    ensures { WritesOnOk W.write_str_gives f.old result (texts.pages_text expected actual) f.new }
{
    write!(
        f,
        "memory types incompatible: expected a memory with a page size of "
    )?;
    write_page(f, expected)?;
    write!(f, ", but received a memory with a page size of ")?;
    write_page(f, actual)
}

fn write_mutability<W: fmt::Write>(
    f: &mut fmt::Formatter<W>,
    expected: bool,
    actual: bool,
) -> fmt::Result
    ensures { WritesOnOk W.write_str_gives f.old result (texts.both_mutability_text expected actual) f.new }
{
    let expected = mutability_word(expected);
    let actual = mutability_word(actual);
    write!(
        f,
        "global types incompatible: expected {expected} global, found {actual} global"
    )
}

fn write_sharing<W: fmt::Write>(
    f: &mut fmt::Formatter<W>,
    expected: bool,
    actual: bool,
) -> fmt::Result
    ensures { WritesOnOk W.write_str_gives f.old result (texts.both_sharing_text expected actual) f.new }
{
    let expected = sharing_word(expected);
    let actual = sharing_word(actual);
    write!(
        f,
        "memory types incompatible: expected {expected} memory, found {actual} memory"
    )
}

fn write_elements<W: fmt::Write>(
    f: &mut fmt::Formatter<W>,
    expected: &WasmRefType,
    actual: &WasmRefType,
) -> fmt::Result
    ensures { WritesOnOk W.write_str_gives f.old result (texts.elements_text expected.now actual.now) f.new }
{
    write!(
        f,
        "table types incompatible: expected table of type `{expected}`, found table of type `{actual}`"
    )
}

fn write_definition_kind<W: fmt::Write>(
    f: &mut fmt::Formatter<W>,
    expected: &EntityKind,
    actual: EntityKind,
) -> fmt::Result
    ensures { WritesOnOk W.write_str_gives f.old result (texts.definition_kind_text expected.now actual) f.new }
{
    write!(f, "expected {expected}, but found {}", found_word(actual))
}

/// Writes a cause, where these are the sub types of its function types.
fn write_unfit<W: fmt::Write>(
    f: &mut fmt::Formatter<W>,
    unfit: &Unfit,
    expected_type: Option<&WasmSubType>,
    actual_type: Option<&WasmSubType>,
) -> fmt::Result
    ensures { WritesOnOk W.write_str_gives f.old result (unfit_text unfit.now (option_copied expected_type.entry) (option_copied actual_type.entry)) f.new }
{
    match unfit {
        Unfit::DefinitionKind { expected, actual } => write_definition_kind(f, expected, *actual),
        Unfit::EntityKind { expected, actual } => write!(f, "expected {expected} found {actual}"),
        Unfit::Function { expected, actual } => {
            write_function(f, expected, actual, expected_type, actual_type)
        }
        Unfit::VariableContent { expected, actual } => write_content(f, expected, actual),
        Unfit::ConstantContent { expected, actual } => write_constant(f, expected, actual),
        Unfit::Mutability { expected, actual } => write_mutability(f, *expected, *actual),
        Unfit::Element { expected, actual } => write_elements(f, expected, actual),
        Unfit::IndexType {
            kind,
            expected,
            actual,
        } => write_index_types(f, kind, expected, actual),
        Unfit::Limits {
            kind,
            expected,
            actual,
        } => write_both_limits(f, kind, expected, actual),
        Unfit::Sharing { expected, actual } => write_sharing(f, *expected, *actual),
        Unfit::PageSize { expected, actual } => write_pages(f, *expected, *actual),
        Unfit::Tag { .. } => write!(f, "incompatible tag types"),
    }
}

impl fmt::Display for Unfit {
    ghost use Rattle.std.specs.Prelude.{Some, None};
    ghost use Rattle.wt_matching.specs.UnfitTexts.{unfit_text};

    ghost output = { λ cause. Some (unfit_text cause None None) };

    fn fmt<W: fmt::Write>(&self, f: &mut fmt::Formatter<W>) -> fmt::Result {
        write_unfit(f, self, None, None)
    }
}

impl Error for Unfit {}

impl<'a> fmt::Display for ShownUnfit<'a> {
    ghost use Rattle.std.specs.Prelude.{Some};

    ghost output = { λ text. Some text };

    fn fmt<W: fmt::Write>(&self, f: &mut fmt::Formatter<W>) -> fmt::Result {
        write_unfit(f, self.unfit, self.expected, self.actual)
    }
}
