//! Plans of one type of a host, and of an exception of a host behind its function type. They rest on `plan`.

ghost use Rattle.std.specs.Prelude.{◌≡◌, ℕ, ◌++◌, ◌∷◌, [], true, None, Some, IfOk, OnOk};
ghost use Rattle.wt_env.specs.declared.types.VMSharedTypeIndex.{VMSharedTypeIndex as Shared};
ghost use Rattle.wt_rules.specs.HostTypes.{is_host_type, host_breach};
ghost use Rattle.wt_model.specs.Describe.{tree_of};
ghost use Rattle.wt_model.specs.HostExceptions.{exception_function as function_over};
ghost use Rattle.wt_model.specs.Indices.{closed_tree};
ghost use Rattle.wt_model.specs.Plan.{plan_key as plan_key_of, plan_exception as plan_exception_of, without_occurrences as none_occurs, first_index};
ghost use Rattle.wt_model.specs.Registration.{trees_of, host_type, host_exception};
ghost use Rattle.wt_model.specs.Sound.{KeepRules};
ghost use Rattle.wt_keys.specs.Entries.{made_by};
ghost use Rattle.wt_keys.specs.Keys.{AreKeys};
ghost use Rattle.wt_plan.specs.Planned.{plan_of, PlansOne, AreNamed, nothing_planned, PlansType, PlansHost, AreFreeFor};
ghost use Rattle.wt_indices.specs.Free.{AreSameBefore};

use crate::plan::{Plan, plan_key};
use std::alloc::Global;
use wt_env::memory::OutOfMemory;
use wt_env::types::{
    EngineOrModuleTypeIndex, VMSharedTypeIndex, WasmRecGroup, WasmSubType, WasmValType,
};
use wt_indices::free_indices::FreeIndices;
use wt_keys::entries::RecGroupEntries;
use wt_model::ever::EverRegistered;
use wt_model::host_exception::{exception_function, exception_over};

/// Plans the group of one type more, whose type indices are those of what stands or was planned.
fn plan_type(
    alloc: Global,
    entries: &RecGroupEntries,
    free: &mut FreeIndices,
    plan: &mut Plan,
    ty: WasmSubType,
) -> Result<(), OutOfMemory>
    requires free { AreFreeFor entries.now plan.old.added free.old }
    requires keys { AreKeys (entries.now ++ plan.old.added) plan.old.given.numbers }
    requires host { is_host_type (closed_tree (made_by (entries.now ++ plan.old.added))) ty ≡ true }
    ensures planned { OnOk result (plan_key_of (plan_of entries.now plan.old) (ty ∷ []) ≡ plan_of entries.now plan.new) }
    ensures keys { OnOk result (AreKeys (entries.now ++ plan.new.added) plan.new.given.numbers) }
    ensures one { OnOk result (PlansOne entries.now plan.old plan.new (ty ∷ [])) }
    ensures free { OnOk result (AreFreeFor entries.now plan.new.added free.new) }
    ensures before { AreSameBefore free.old free.new }
{
    let key = WasmRecGroup::alone(alloc, ty)?;
    plan_key(alloc, entries, free, plan, key)
}

/// The plan of one type of a host, which nothing refuses by what it breaks, where so much was registered.
pub fn plan_host_type(
    alloc: Global,
    entries: &RecGroupEntries,
    free: &mut FreeIndices,
    given: EverRegistered,
    ty: WasmSubType,
) -> Result<Plan, OutOfMemory>
    requires free { AreFreeFor entries.now [] free.old }
    requires keys { AreKeys entries.now given.numbers }
    requires rules { KeepRules (made_by entries.now) }
    requires host { is_host_type (closed_tree (made_by entries.now)) ty ≡ true }
    requires kept { host_breach (closed_tree (made_by entries.now)) ty ≡ None }
    ensures planned { IfOk result (λ plan. plan_key_of (nothing_planned entries.now given) (ty ∷ []) ≡ plan_of entries.now plan) }
    ensures plans { IfOk result (λ plan. PlansHost entries.now given.numbers plan) }
    ensures named { IfOk result (λ plan. AreNamed entries.now plan (trees_of (made_by entries.now) (host_type ty))) }
    ensures free { IfOk result (λ plan. AreFreeFor entries.now plan.added free.new) }
    ensures before { AreSameBefore free.old free.new }
{
    let mut plan = Plan::new(alloc, given);
    plan_type(alloc, entries, free, &mut plan, ty)?;
    Ok(plan)
}

/// The plan of which nothing occurs yet, and the index of the one type that occurred.
fn without_occurrences(alloc: Global, plan: Plan) -> (Plan, VMSharedTypeIndex)
    requires { (i : Shared) × (plan.map.items ≡ i ∷ []) }
    ensures index { plan.map.items ≡ result.1 ∷ [] }
    ensures added { result.0.added ≡ plan.added }
    ensures given { result.0.given ≡ plan.given }
    ensures numbers { result.0.numbers.items ≡ [] }
    ensures map { result.0.map.items ≡ [] }
{
    let Plan {
        added,
        given,
        numbers: _,
        map,
    } = plan;
    let index = map[0];
    let rest = Plan {
        added,
        given,
        numbers: Vec::new(alloc),
        map: Vec::new(alloc),
    };
    (rest, index)
}

/// The plan of the function type that takes these, of which nothing occurs yet, and its index.
fn plan_function(
    alloc: Global,
    entries: &RecGroupEntries,
    free: &mut FreeIndices,
    given: EverRegistered,
    fields: &[WasmValType],
) -> Result<(Plan, VMSharedTypeIndex), OutOfMemory>
    requires free { AreFreeFor entries.now [] free.old }
    requires keys { AreKeys entries.now given.numbers }
    requires rules { KeepRules (made_by entries.now) }
    requires host { is_host_type (closed_tree (made_by entries.now)) (function_over fields.now) ≡ true }
    ensures planned { IfOk result (λ told. none_occurs (plan_key_of (nothing_planned entries.now given) (function_over fields.now ∷ [])) ≡ plan_of entries.now told.0) }
    ensures first { IfOk result (λ told. first_index (plan_key_of (nothing_planned entries.now given) (function_over fields.now ∷ [])).map ≡ told.1) }
    ensures plans { IfOk result (λ told. (number : ℕ) × PlansType entries.now given.numbers told.0 number told.1) }
    ensures named { IfOk result (λ told. closed_tree (made_by (entries.now ++ told.0.added)) told.1
        ≡ Some (record { tree = tree_of (made_by entries.now) (function_over fields.now ∷ []); place = 0 })) }
    ensures free { IfOk result (λ told. AreFreeFor entries.now told.0.added free.new) }
    ensures before { AreSameBefore free.old free.new }
{
    let function = exception_function(alloc, fields)?;
    let plan = plan_host_type(alloc, entries, free, given, function)?;
    Ok(without_occurrences(alloc, plan))
}

/// The plan of the exception of a host that holds these, behind its function type, where so much was registered.
pub fn plan_exception(
    alloc: Global,
    entries: &RecGroupEntries,
    free: &mut FreeIndices,
    given: EverRegistered,
    fields: &[WasmValType],
) -> Result<Plan, OutOfMemory>
    requires free { AreFreeFor entries.now [] free.old }
    requires keys { AreKeys entries.now given.numbers }
    requires rules { KeepRules (made_by entries.now) }
    requires host { is_host_type (closed_tree (made_by entries.now)) (function_over fields.now) ≡ true }
    ensures planned { IfOk result (λ plan. plan_exception_of (nothing_planned entries.now given) fields.now ≡ plan_of entries.now plan) }
    ensures plans { IfOk result (λ plan. PlansHost entries.now given.numbers plan) }
    ensures named { IfOk result (λ plan. AreNamed entries.now plan (trees_of (made_by entries.now) (host_exception fields.now))) }
    ensures free { IfOk result (λ plan. AreFreeFor entries.now plan.added free.new) }
    ensures before { AreSameBefore free.old free.new }
{
    let (mut plan, index) = plan_function(alloc, entries, free, given, fields)?;
    let exception = exception_over(alloc, EngineOrModuleTypeIndex::Engine(index), fields)?;
    plan_type(alloc, entries, free, &mut plan, exception)?;
    Ok(plan)
}
