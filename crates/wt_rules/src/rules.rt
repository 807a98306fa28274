//! The rules that need nothing but the module itself: that its types name earlier ones, how many there are, and what their
//! indices are. Nothing here takes memory.

ghost use Rattle.std.specs.Prelude.{◌≡◌, ◌↔◌, ℕ, ◌+◌, ◌<◌, ◌^◌, IsTrue, not, length, option_to_list};
ghost use Rattle.std.specs.List.{list_all, list_any};
ghost use Rattle.wt_tree.specs.Kinds as kinded;
ghost use Rattle.wt_tree.specs.References.{super_refs, sub_refs};
ghost use Rattle.wt_rules.specs.Rules as stated;
ghost use Rattle.wt_rules.specs.Rules.{total_members, AreCountable, AreModuleTypes};

use crate::kinds::{ReferenceTest, any_of_shape, is_same_kind, kind_of};
use crate::place::Rule;
use wt_env::types::{EngineOrModuleTypeIndex, Kind, ModuleTypes, WasmRecGroup, WasmSubType};

/// Whether an index isn't below this bound: the end of a group, which is the number of members up to and with it,
/// or a type's own index.
fn is_forward(end: u32, index: EngineOrModuleTypeIndex) -> bool
    ensures { result ≡ stated.is_forward end index }
{
    match index {
        EngineOrModuleTypeIndex::Module(index) => index.0 >= end,
        _ => false,
    }
}

fn supertype_is_forward(end: u32, supertype: Option<EngineOrModuleTypeIndex>) -> bool
    ensures { result ≡ list_any (stated.is_forward end) (super_refs supertype) }
{
    match supertype {
        Some(index) => is_forward(end, index),
        None => false,
    }
}

/// Whether a reference names a type after the group that ends here.
#[derive(Clone, Copy)]
struct IsForward {
    /// How many members the groups have up to and with this one.
    end: u32,
}

impl ReferenceTest for IsForward {
    ghost breaks = { λ test wanted index. stated.is_forward test.end index };

    fn is_broken_by(&self, _wanted: Kind, index: EngineOrModuleTypeIndex) -> bool {
        is_forward(self.end, index)
    }
}

fn breaks_forward(end: u32, ty: &WasmSubType) -> bool
    ensures { result ≡ stated.breaks_forward end ty.now }
{
    supertype_is_forward(end, ty.supertype) || any_of_shape(&IsForward { end }, &ty.composite_type)
}

/// The first rule on the order of types that a type breaks, which has this index among the members of all groups; its
/// group ends before this one.
fn broken_order(end: u32, own: u32, ty: &WasmSubType) -> Option<Rule>
    ensures { result ≡ stated.broken_order end own ty.now }
{
    if breaks_forward(end, ty) {
        Some(Rule::Forward)
    } else if supertype_is_forward(own, ty.supertype) {
        Some(Rule::SuperOrder)
    } else {
        None
    }
}

/// The first member of a group that breaks a rule on the order of types, by its place in the group, and which: no type
/// refers to one after the group, and its supertype is declared before it (WebAssembly 3.0, "Recursive Types"). Before
/// the group are as many members of the module as `start` says.
pub fn first_disorder(start: u32, members: &[WasmSubType]) -> Option<(u32, Rule)>
    requires { start + length members.now < 2 ^ 32 }
    ensures { result ≡ stated.first_disorder start members.now }
{
    let end = start + members.len() as u32;
    for (place, ty) in members.iter().enumerate() {
        let place = place as u32;
        if let Some(rule) = broken_order(end, start + place, ty) {
            return Some((place, rule));
        }
    }
    None
}

fn has_few_members(groups: &[WasmRecGroup]) -> bool
    ensures { IsTrue result ↔ (total_members groups.now < 2 ^ 32) }
{
    let mut room = u32::MAX as usize;
    for group in groups {
        if room < group.types.len() {
            return false;
        }
        room -= group.types.len();
    }
    true
}

/// Whether there are fewer than 2^32 groups, and fewer than 2^32 members in all of them together: the type
/// indices of a module are numbers of 32 bits, which count the members of all its groups from 0 (WebAssembly
/// 3.0, "Recursive Types"). A registration of the module's types requires it.
pub fn are_countable(types: &ModuleTypes) -> bool
    ensures { IsTrue result ↔ AreCountable types.now.groups }
{
    let groups = types.groups.as_slice();
    groups.len() <= u32::MAX as usize && has_few_members(groups)
}

/// Whether a type is a function.
pub fn is_function(ty: &WasmSubType) -> bool
    ensures { result ≡ stated.is_function ty.now }
{
    is_same_kind(Kind::Func, kind_of(&ty.composite_type))
}

fn has_functions_only(group: &WasmRecGroup) -> bool
    ensures { result ≡ list_all stated.is_function group.now.types }
{
    group.types.as_slice().iter().all(is_function)
}

/// Whether every member of every group is a function.
pub fn are_functions(types: &ModuleTypes) -> bool
    ensures { result ≡ stated.are_functions types.now.groups }
{
    types.groups.as_slice().iter().all(has_functions_only)
}

/// Whether this is a reference by another index than a module index.
fn is_foreign(index: EngineOrModuleTypeIndex) -> bool
    ensures { result ≡ not (stated.is_module_index index) }
{
    match index {
        EngineOrModuleTypeIndex::Module(_) => false,
        _ => true,
    }
}

fn supertype_is_foreign(supertype: Option<EngineOrModuleTypeIndex>) -> bool
    ensures { result ≡ list_any (λ i. not (stated.is_module_index i)) (option_to_list supertype) }
{
    match supertype {
        Some(index) => is_foreign(index),
        None => false,
    }
}

/// Whether a reference is one by another index than a module index.
#[derive(Clone, Copy)]
struct IsForeign;

impl ReferenceTest for IsForeign {
    ghost use Rattle.std.specs.Prelude.{not};

    ghost breaks = { λ test wanted index. not (stated.is_module_index index) };

    fn is_broken_by(&self, _wanted: Kind, index: EngineOrModuleTypeIndex) -> bool {
        is_foreign(index)
    }
}

fn has_foreign(ty: &WasmSubType) -> bool
    ensures { result ≡ list_any (λ i. not (stated.is_module_index i)) (kinded.type_indices ty.now) }
{
    supertype_is_foreign(ty.supertype) || any_of_shape(&IsForeign, &ty.composite_type)
}

fn group_has_foreign(group: &WasmRecGroup) -> bool
    ensures { result ≡ list_any (λ ty. list_any (λ i. not (stated.is_module_index i)) (kinded.type_indices ty)) group.now.types }
{
    group.types.as_slice().iter().any(has_foreign)
}

fn any_has_foreign(groups: &[WasmRecGroup]) -> bool
    ensures { result ≡ list_any (λ group. list_any (λ ty. list_any (λ i. not (stated.is_module_index i)) (kinded.type_indices ty)) group.types) groups.now }
{
    groups.iter().any(group_has_foreign)
}

/// Whether each type index that stands in a module's types, supertypes included, is a module index: that is how
/// a module's types refer to each other (WebAssembly 3.0, "Recursive Types"). A registration of the module's
/// types requires it. It takes no memory.
pub fn are_module_types(types: &ModuleTypes) -> bool
    ensures { IsTrue result ↔ AreModuleTypes types.now.groups }
{
    !any_has_foreign(types.groups.as_slice())
}

#[cfg(test)]
mod tests;
