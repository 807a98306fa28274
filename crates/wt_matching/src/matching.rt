//! When what is given for an import fits it (WebAssembly 3.0, "Matching", "External Types"; sharing, page sizes and the
//! order of the causes after wasmtime). It rests on `Supers` for the types that indices name. Nothing here takes memory.

ghost use Rattle.std.specs.Prelude.{◌≡◌, ◌||◌, [], ◌∷◌};
ghost use Rattle.wt_tree.specs.Kinds.{kinded_val, indices_of};
ghost use Rattle.wt_tree.specs.Subtyping.{is_sub};
ghost use Rattle.wt_tree.specs.Fit.{named_by, IsKnown, AreKnown};
ghost use Rattle.wt_extern.specs.EntityRules.{entity_indices, global_indices};
ghost use Rattle.wt_matching.specs.Import as import;
ghost use Rattle.wt_matching.specs.Import.{answer, definition_indices, definition_unfit, entity_unfit};

use crate::definition::{DefinitionType, EntityKind, SizedKind};
use crate::unfit::Unfit;
use wt_env::types::{EngineOrModuleTypeIndex, WasmValType};
use wt_extern::entity::{EntityType, Global, IndexType, Limits, Memory, Table, Tag};
use wt_tree::fit::fit_val;
use wt_tree::supers::Supers;

/// What definitions are matched by: whoever knows the closed trees of engine indices.
#[derive(Clone, Copy, Debug)]
pub struct MatchCx<'a, S: Supers> {
    supers: &'a S,
}

impl<'a, S: Supers> MatchCx<'a, S> {
    /// Matches by these types.
    pub fn new(supers: &'a S) -> MatchCx<'a, S>
        ensures { result.supers.now ≡ supers.now }
    {
        MatchCx { supers }
    }

    /// Whether the definition fits what is expected; else the first cause why not. A table or a memory counts by the size
    /// that it has, and not by its declared minimum. Every type index in the two is an engine index that has a closed
    /// tree.
    pub fn definition(&self, expected: &EntityType, actual: &DefinitionType) -> Result<(), Unfit>
        requires expected { AreKnown (S.types self.now.supers.now) (entity_indices expected.now) }
        requires actual { AreKnown (S.types self.now.supers.now) (definition_indices actual.now) }
        ensures { result ≡ answer (definition_unfit (S.types self.now.supers.now) expected.now actual.now) }
    {
        match (expected, actual) {
            (EntityType::Function(expected), DefinitionType::Func(actual)) => {
                let actual = EngineOrModuleTypeIndex::Engine(*actual);
                match_func(self.supers, *expected, actual)
            }
            (EntityType::Global(expected), DefinitionType::Global(actual)) => {
                match_global(self.supers, expected, actual)
            }
            (EntityType::Table(expected), DefinitionType::Table(actual, size)) => {
                match_table(expected, actual, *size)
            }
            (EntityType::Memory(expected), DefinitionType::Memory(actual, size)) => {
                match_memory(expected, actual, *size)
            }
            (EntityType::Tag(expected), DefinitionType::Tag(actual)) => match_tag(expected, actual),
            _ => Err(Unfit::DefinitionKind {
                expected: EntityKind::of(expected),
                actual: actual.kind(),
            }),
        }
    }
}

/// Whether what is declared fits what is expected; else the first cause why not. A table or a memory counts by its
/// declared minimum. Every type index in the two is an engine index that has a closed tree.
pub fn entity_ty<S: Supers>(
    supers: &S,
    expected: &EntityType,
    actual: &EntityType,
) -> Result<(), Unfit>
    requires expected { AreKnown (S.types supers.now) (entity_indices expected.now) }
    requires actual { AreKnown (S.types supers.now) (entity_indices actual.now) }
    ensures { result ≡ answer (entity_unfit (S.types supers.now) expected.now actual.now) }
{
    match (expected, actual) {
        (EntityType::Function(expected), EntityType::Function(actual)) => {
            match_func(supers, *expected, *actual)
        }
        (EntityType::Global(expected), EntityType::Global(actual)) => {
            match_global(supers, expected, actual)
        }
        (EntityType::Table(expected), EntityType::Table(actual)) => {
            match_table(expected, actual, actual.limits.min)
        }
        (EntityType::Memory(expected), EntityType::Memory(actual)) => {
            match_memory(expected, actual, actual.limits.min)
        }
        (EntityType::Tag(expected), EntityType::Tag(actual)) => match_tag(expected, actual),
        _ => Err(Unfit::EntityKind {
            expected: EntityKind::of(expected),
            actual: EntityKind::of(actual),
        }),
    }
}

/// Ok where the test holds, and else the cause.
fn check(holds: bool, cause: Unfit) -> Result<(), Unfit>
    ensures { result ≡ answer (import.unless holds cause) }
{
    if holds { Ok(()) } else { Err(cause) }
}

/// Whether declared steps lead from the type that the first index names to the second's.
fn steps_lead<S: Supers>(
    supers: &S,
    sub: EngineOrModuleTypeIndex,
    sup: EngineOrModuleTypeIndex,
) -> bool
    requires sub { IsKnown (S.types supers.now) sub }
    requires sup { IsKnown (S.types supers.now) sup }
    ensures { result ≡ is_sub (named_by (S.types supers.now) sub) (named_by (S.types supers.now) sup) }
{
    match (sub, sup) {
        (EngineOrModuleTypeIndex::Engine(sub), EngineOrModuleTypeIndex::Engine(sup)) => {
            supers.is_subtype(sub, sup)
        }
        _ => unreachable!(),
    }
}

#[tactic(auto, using(crate::proofs::KnownIndices::known_only))]
fn match_func<S: Supers>(
    supers: &S,
    expected: EngineOrModuleTypeIndex,
    actual: EngineOrModuleTypeIndex,
) -> Result<(), Unfit>
    requires expected { AreKnown (S.types supers.now) (expected ∷ []) }
    requires actual { AreKnown (S.types supers.now) (actual ∷ []) }
    ensures { result ≡ answer (import.func_unfit (S.types supers.now) expected actual) }
{
    check(
        steps_lead(supers, actual, expected),
        Unfit::Function { expected, actual },
    )
}

/// Where one of the globals can change, their value types have to be equal.
fn match_content<S: Supers>(
    supers: &S,
    is_variable: bool,
    expected: WasmValType,
    actual: WasmValType,
) -> Result<(), Unfit>
    requires expected { AreKnown (S.types supers.now) (indices_of (kinded_val expected)) }
    requires actual { AreKnown (S.types supers.now) (indices_of (kinded_val actual)) }
    ensures { result ≡ answer (import.content_unfit (S.types supers.now) is_variable expected actual) }
{
    if is_variable {
        check(
            expected == actual,
            Unfit::VariableContent { expected, actual },
        )
    } else {
        check(
            fit_val(&actual, &expected, supers),
            Unfit::ConstantContent { expected, actual },
        )
    }
}

/// Whether one of the globals can change.
fn can_change(expected: &Global, actual: &Global) -> bool
    ensures { result ≡ (expected.now.mutability || actual.now.mutability) }
{
    expected.mutability || actual.mutability
}

#[tactic(auto, using(crate::proofs::Causes::in_order))]
fn match_global<S: Supers>(supers: &S, expected: &Global, actual: &Global) -> Result<(), Unfit>
    requires expected { AreKnown (S.types supers.now) (global_indices expected.now) }
    requires actual { AreKnown (S.types supers.now) (global_indices actual.now) }
    ensures { result ≡ answer (import.global_unfit (S.types supers.now) expected.now actual.now) }
{
    match_content(
        supers,
        can_change(expected, actual),
        expected.wasm_ty,
        actual.wasm_ty,
    )?;
    check(
        expected.mutability == actual.mutability,
        Unfit::Mutability {
            expected: expected.mutability,
            actual: actual.mutability,
        },
    )
}

fn match_index(kind: SizedKind, expected: IndexType, actual: IndexType) -> Result<(), Unfit>
    ensures { result ≡ answer (import.index_unfit kind expected actual) }
{
    check(
        expected.is_64() == actual.is_64(),
        Unfit::IndexType {
            kind,
            expected,
            actual,
        },
    )
}

/// Where a maximum is expected, one has to be given that isn't above it.
fn maximum_fits(expected: Option<u64>, actual: Option<u64>) -> bool
    ensures { result ≡ import.maximum_fits expected actual }
{
    match (expected, actual) {
        (None, _) => true,
        (Some(_), None) => false,
        (Some(expected), Some(actual)) => actual <= expected,
    }
}

/// The actual minimum is the size.
fn match_limits(kind: SizedKind, expected: Limits, actual: Limits, size: u64) -> Result<(), Unfit>
    ensures { result ≡ answer (import.limits_unfit kind expected (import.limits_at actual size)) }
{
    check(
        expected.min <= size && maximum_fits(expected.max, actual.max),
        Unfit::Limits {
            kind,
            expected,
            actual: Limits {
                min: size,
                max: actual.max,
            },
        },
    )
}

#[tactic(auto, using(crate::proofs::Causes::in_order))]
fn match_table(expected: &Table, actual: &Table, size: u64) -> Result<(), Unfit>
    ensures { result ≡ answer (import.table_unfit expected.now actual.now size) }
{
    check(
        expected.ref_type == actual.ref_type,
        Unfit::Element {
            expected: expected.ref_type,
            actual: actual.ref_type,
        },
    )?;
    match_index(SizedKind::Table, expected.idx_type, actual.idx_type)?;
    match_limits(SizedKind::Table, expected.limits, actual.limits, size)
}

#[tactic(auto, using(crate::proofs::Causes::in_order))]
fn match_memory(expected: &Memory, actual: &Memory, size: u64) -> Result<(), Unfit>
    ensures { result ≡ answer (import.memory_unfit expected.now actual.now size) }
{
    check(
        expected.shared == actual.shared,
        Unfit::Sharing {
            expected: expected.shared,
            actual: actual.shared,
        },
    )?;
    match_index(SizedKind::Memory, expected.idx_type, actual.idx_type)?;
    match_pages(expected, actual, size)
}

/// The numbers of pages, and then their sizes.
#[tactic(auto, using(crate::proofs::Causes::in_order))]
fn match_pages(expected: &Memory, actual: &Memory, size: u64) -> Result<(), Unfit>
    ensures { result ≡ answer (import.pages_unfit expected.now actual.now size) }
{
    match_limits(SizedKind::Memory, expected.limits, actual.limits, size)?;
    check(
        expected.page_size_log2 == actual.page_size_log2,
        Unfit::PageSize {
            expected: expected.page_size_log2,
            actual: actual.page_size_log2,
        },
    )
}

fn match_tag(expected: &Tag, actual: &Tag) -> Result<(), Unfit>
    ensures { result ≡ answer (import.tag_unfit expected.now actual.now) }
{
    check(
        expected.signature == actual.signature,
        Unfit::Tag {
            expected: expected.signature,
            actual: actual.signature,
        },
    )
}
