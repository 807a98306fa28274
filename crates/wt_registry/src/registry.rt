//! The registry: the groups that stand in it, and what can be asked of it.

use crate::collection::TypeCollection;
use crate::debt::Debt;
use crate::enter::{check_and_commit, fill_trampolines, hold_one};
use crate::registered_type::PartyNumber;
use std::alloc::Global;
use std::marker::Model;
use std::sync::ledger::Ledger;
use wt_env::limits::Engine;
use wt_env::memory::OutOfMemory;
use wt_env::seq::Seq;
use wt_env::types::{
    EngineOrModuleTypeIndex, ModuleTypes, VMSharedTypeIndex, WasmCompositeInnerType, WasmSubType,
};
use wt_holds::inner::TypeRegistryInner;
use wt_holds::removal::{end_hold, release_groups, sweep_group};
use wt_indices::free_indices::FreeIndices;
use wt_keys::entries::RecGroupEntries;
use wt_keys::search::{borrow_from, live_groups, number_at, trampoline_of};
use wt_keys::steps::Steps;
use wt_keys::subtyping::{is_subtype_counted_of, is_subtype_of};
use wt_model::ever::EverRegistered;
use wt_model::host_exception::exception_over;
use wt_model::live::LiveGroup;
use wt_model::refusal::{BuildRefusal, Full};
use wt_model::swept::Swept;
use wt_plan::module_plan::plan_groups;
use wt_plan::plan::Plan;
use wt_rules::host_types::{host_breach, is_host_type};
use wt_rules::rules::{are_functions, is_function};

/// The recursion groups that an engine has registered.
#[derive(Drop)]
pub struct TypeRegistry {
    pub(crate) alloc: Global,
    pub(crate) engine: Engine,
    pub(crate) groups: TypeRegistryInner,
    /// The indices that no registered type has, and those that a refused plan took: they are given back before
    /// the next is made.
    pub(crate) free: FreeIndices,
}

impl Model for TypeRegistry {
    ghost use Rattle.wt_model.specs.Registered.{Registry};
    ghost use Rattle.wt_holds.specs.Kept.{registry_at};
    ghost use Rattle.wt_holds.specs.Kept.{AreKept};
    ghost use Rattle.wt_holds.specs.GivenBack.{HasFree};
    ghost use Rattle.wt_keys.specs.Entries.{made_by};

    ghost Value = { Registry };

    ghost view = { λ registry. registry_at registry.engine registry.groups };

    ghost invariant = { λ registry. AreKept registry.engine registry.groups × HasFree (made_by registry.groups.entries) registry.free };
}

impl TypeRegistry {
    ghost use Rattle.std.specs.Prelude.{◌≡◌, ℕ, ◌+◌, ◌<◌, ◌≤◌, ◌∷◌, [], ◌↔◌, map, false, None, IsTrue, IsSome, IfOk, IfErr, OnOk, OnErr, Ok, Err, Some, true, is_some, option_map, option_and_then};
    ghost use Rattle.std.specs.Option.{option_copied, option_or};
    ghost use Rattle.wt_rules.specs.HostTypes.{is_host_type as is_host_type_of};
    ghost use Rattle.wt_rules.specs.Rules.{AreCountable, AreModuleTypes};
    ghost use Rattle.wt_model.specs.Registered.{empty_registry};
    ghost use Rattle.wt_tree.specs.Trampoline.{trampoline};
    ghost use Rattle.wt_tree.specs.Subtyping.{TellsSteps};
    ghost use Rattle.wt_tree.specs.Fit.{StepsFit};
    ghost use Rattle.wt_model.specs.HostExceptions.{tag_exception as tag_exception_of};
    ghost use Rattle.wt_model.specs.Indices.{locate, number_of, closed_tree};
    ghost use Rattle.wt_model.specs.Trampolines.{trampoline_index, trampolines_of};
    ghost use Rattle.wt_model.specs.FunctionIndices.{IsFunctionIndex};
    ghost use Rattle.wt_model.specs.Shown.{sub_type_at};
    ghost use Rattle.wt_model.specs.Subtyping.{is_subtype_index};
    ghost use Rattle.wt_model.specs.Live.{live_of};
    ghost use Rattle.wt_model.specs.Holds.{hold, held_at, IsHolding};
    ghost use Rattle.wt_model.specs.Registration.{Registration, host_type, module_groups, trees_of, rule_refusal, gc_refusal, registration_refusal, IsRefusal, register as register_of, register_groups};
    ghost use Rattle.wt_model.specs.Removal.{drop_hold, sweep_debt, release_holds};
    ghost use Rattle.wt_model.specs.Sound.{IsSound};
    ghost use Rattle.wt_model.specs.Changes.{HoldChanges, SweepChanges, ReleaseChanges};

    /// A registry of the engine in which nothing is registered. It takes no memory.
    pub fn new(alloc: Global, engine: &Engine) -> TypeRegistry
        ensures empty { result ≡ empty_registry engine.now }
        ensures sound { IsSound result }
    {
        TypeRegistry {
            alloc,
            engine: *engine,
            groups: TypeRegistryInner {
                entries: RecGroupEntries::new(alloc),
                counts: Vec::new(alloc),
                stack: Vec::new(alloc),
                given: EverRegistered {
                    numbers: 0,
                    types: 0,
                    references: 0,
                },
            },
            free: FreeIndices::new(alloc),
        }
    }

    /// The registry's engine.
    pub fn engine(&self) -> &Engine
        ensures { result.now ≡ self.now.engine }
    {
        &self.engine
    }

    /// Whether the index names a registered type. The reserved index names none.
    pub fn contains(&self, index: VMSharedTypeIndex) -> bool
        ensures registered { IsTrue result ↔ IsSome (locate self.now.made index) }
        ensures reserved { index.0 ≡ 4294967295 → result ≡ false }
    {
        let _bounded = self.engine.limits();
        self.borrow(index).is_some()
    }

    /// The registered type that has this index; `None` exactly where there is none.
    pub fn borrow(&self, index: VMSharedTypeIndex) -> Option<&WasmSubType>
        ensures value { option_copied result ≡ sub_type_at self.now.made index }
        ensures found { IsSome result ↔ IsSome (locate self.now.made index) }
    {
        borrow_from(&self.groups.entries, index)
    }

    /// Whether zero or more declared supertype steps lead from the type with the index `sub` to the one with the
    /// index `sup`, both registered (WebAssembly 3.0, "Matching"). It takes no memory.
    pub fn is_subtype(&self, sub: VMSharedTypeIndex, sup: VMSharedTypeIndex) -> bool
        requires sub { IsSome (locate self.now.made sub) }
        requires sup { IsSome (locate self.now.made sup) }
        ensures steps { TellsSteps (closed_tree self.now.made) sub sup result }
        ensures value { result ≡ is_subtype_index self.now.made sub sup }
        ensures own { sub ≡ sup → IsTrue result }
    {
        self.tell_invariant();
        is_subtype_of(self.alloc, &self.groups.entries, sub, sup)
    }

    /// The same, with a count of the work: a step is one read of a place of a type's list of declared supertypes, and at
    /// most one is read, however long the lists are.
    pub fn is_subtype_counted<L: Ledger>(
        &self,
        sub: VMSharedTypeIndex,
        sup: VMSharedTypeIndex,
        steps: &mut Steps<L>,
    ) -> bool
        requires sub { IsSome (locate self.now.made sub) }
        requires sup { IsSome (locate self.now.made sup) }
        ensures declared { TellsSteps (closed_tree self.now.made) sub sup result }
        ensures value { result ≡ is_subtype_index self.now.made sub sup }
        ensures own { sub ≡ sup → IsTrue result }
        ensures rises { steps.old ≤ steps.new }
        ensures cost { steps.new ≤ steps.old + 1 }
    {
        self.tell_invariant();
        is_subtype_counted_of(self.alloc, &self.groups.entries, sub, sup, steps)
    }

    /// Whether the index names a registered function type.
    pub fn is_function_index(&self, index: VMSharedTypeIndex) -> bool
        ensures function { IsTrue result ↔ IsFunctionIndex self.now.made index }
        ensures trampoline { result ≡ is_some (trampoline_index self.now.made index) }
    {
        trampoline_of(&self.groups.entries, index).is_some()
    }

    /// The index of the trampoline of the function type that has this index: the final function with no supertype
    /// in which each reference became the nullable top of its hierarchy. The trampoline of a trampoline is itself.
    /// It takes no memory.
    pub fn trampoline_type(&self, index: VMSharedTypeIndex) -> VMSharedTypeIndex
        requires function { IsFunctionIndex self.now.made index }
        ensures value { trampoline_index self.now.made index ≡ Some result }
        ensures trees { closed_tree self.now.made result ≡ option_and_then trampoline (closed_tree self.now.made index) }
        ensures own { trampoline_index self.now.made result ≡ Some result }
    {
        match trampoline_of(&self.groups.entries, index) {
            Some(trampoline) => trampoline,
            None => unreachable!(),
        }
    }

    /// Whether a host may register this type: each type index in it, its supertype included, is the index of a registered
    /// type of the kind that its place needs; an exception is final with no supertype, and its constant fields hold its
    /// function's parameters; and it is no continuation. It takes no memory.
    pub fn is_host_type(&self, ty: &WasmSubType) -> bool
        ensures { result ≡ is_host_type_of (closed_tree self.now.made) ty.now }
    {
        is_host_type(self, ty)
    }

    /// The exception over the function type that has this index, whose constant fields hold the function's parameters: a
    /// type that a host may register (after wasmtime). `None` exactly where no registered function type has the index.
    pub fn tag_exception(
        &self,
        index: VMSharedTypeIndex,
    ) -> Result<Option<WasmSubType>, OutOfMemory>
        ensures value { IfOk result (λ found. found ≡ tag_exception_of self.now.made index) }
        ensures host { IfOk result (λ found. (ty : _) → found ≡ Some ty → is_host_type_of (closed_tree self.now.made) ty ≡ true) }
    {
        self.tell_invariant();
        let Some(ty) = self.borrow(index) else {
            return Ok(None);
        };
        match &ty.composite_type {
            WasmCompositeInnerType::Func(func) => {
                let function = EngineOrModuleTypeIndex::Engine(index);
                let params = func.params.as_slice();
                Ok(Some(exception_over(self.alloc, function, params)?))
            }
            _ => Ok(None),
        }
    }

    /// Why a type of a host is refused before any limit is tested, if there is a cause.
    pub(crate) fn host_refusal(&self, ty: &WasmSubType) -> Option<BuildRefusal>
        requires { is_host_type_of (closed_tree self.now.made) ty.now ≡ true }
        ensures { result ≡ option_or (rule_refusal self.now (host_type ty.now)) (gc_refusal self.now (host_type ty.now)) }
    {
        if let Some(breach) = host_breach(self, ty) {
            return Some(BuildRefusal::from(breach));
        }
        if !self.engine.gc() && !is_function(ty) {
            return Some(BuildRefusal::NoGc);
        }
        None
    }

    /// The registered groups, in order of their registration numbers.
    pub fn live(&self) -> Result<Seq<LiveGroup>, OutOfMemory>
        ensures { IfOk result (λ groups. groups ≡ live_of self.now.made) }
    {
        live_groups(self.alloc, &self.groups.entries)
    }

    /// What is true of every registry; the shape of each registered type matches that of its declared supertype.
    pub fn tell_invariant(&self)
        ensures sound { IsSound self.now }
        ensures fit { StepsFit (closed_tree self.now.made) }
    {
        let _standing = &self.groups;
    }

    /// Sweeps a debt. A group that still waits is removed, and the answer says how many groups left. It is
    /// `Kept` where the group is registered and doesn't wait, and `Gone` where that registration is no longer
    /// there. It takes no memory, and is never refused.
    pub fn sweep(&mut self, debt: Debt) -> Swept
        ensures swept { sweep_debt self.old debt ≡ (result, self.new) }
        ensures changes { SweepChanges self.old self.new }
        ensures sound { IsSound self.new }
    {
        let number = debt.number();
        debt.forget();
        let _bounded = self.engine.limits();
        sweep_group(&mut self.groups, &mut self.free, number)
    }

    /// Registers the recursion groups of a module for a party, and gives the party one hold of each group for
    /// each time that it occurs. A group whose closed trees are those of a registered one is that one, with its
    /// indices. Otherwise it gets the next registration number and the smallest free indices.
    ///
    /// It is refused with the first cause of the build checks: `InvalidModule` where a rule is broken, `NoGc`
    /// where the engine has no garbage collection and some type is no function, and `Full` where a limit would be
    /// passed: on groups, types, references, registration numbers or holds, in this order. A refusal leaves all
    /// as before, want of memory included.
    pub fn register_module(
        &mut self,
        party: &mut PartyNumber,
        types: &ModuleTypes,
    ) -> Result<TypeCollection, BuildRefusal>
        requires countable { AreCountable types.now.groups }
        requires named { AreModuleTypes types.now.groups }
        requires party { party.old < self.old.engine.limits.parties }
        ensures ok { IfOk result (λ held. register_groups self.old party.old types.now.groups ≡ Ok (held, self.new)) }
        ensures accepted { OnOk result (registration_refusal self.old party.old (module_groups types.now.groups) ≡ None) }
        ensures refused { IfErr result (λ why. IsRefusal (registration_refusal self.old party.old (module_groups types.now.groups)) why) }
        ensures trampolines { IfOk result (λ held. held.trampolines ≡ trampolines_of self.new.made held.map) }
        ensures named { IfOk result (λ held. map (closed_tree self.new.made) held.map ≡ map Some (trees_of self.old.made (module_groups types.now.groups))) }
        ensures owner { IfOk result (λ held. held.party ≡ party.old) }
        ensures holding { IfOk result (λ held. IsHolding self.new held) }
        ensures changes { IfOk result (λ held. HoldChanges self.old self.new party.old held.numbers) }
        ensures err { OnErr result (self.new ≡ self.old) }
        ensures party { party.new ≡ party.old }
        ensures sound { IsSound self.new }
    {
        self.tell_invariant();
        self.free.return_taken();
        let mut plan = Plan::new(self.alloc, self.groups.given);
        let entries = &self.groups.entries;
        let groups = types.groups.as_slice();
        if let Some((place, rule)) = plan_groups(
            self.alloc,
            entries,
            &mut self.free,
            &mut plan,
            groups,
        )? {
            return Err(BuildRefusal::InvalidModule { place, rule });
        }
        if !self.engine.gc() && !are_functions(types) {
            return Err(BuildRefusal::NoGc);
        }
        let mut trampolines = Vec::with_capacity(self.alloc, plan.map.len())?;
        let (numbers, map) = check_and_commit(
            self.alloc,
            &self.engine,
            &mut self.groups,
            party.number(),
            plan,
        )?;
        self.free.keep_taken();
        let entries = &self.groups.entries;
        fill_trampolines(entries, map.as_slice(), &mut trampolines);
        Ok(TypeCollection::new(
            self.engine.number(),
            party.number(),
            numbers,
            map,
            trampolines,
        ))
    }

    /// Ends the holds of a module's types, and removes at once each group that is reached by no hold and by no
    /// group that waits any more. It takes no memory, and is never refused.
    pub fn release(&mut self, party: &mut PartyNumber, collection: TypeCollection)
        requires owner { party.old ≡ collection.party }
        requires held { IsHolding self.old collection }
        ensures released { release_holds self.old party.old collection.numbers ≡ self.new }
        ensures changes { ReleaseChanges self.old self.new party.old collection.numbers }
        ensures same_party { party.new ≡ party.old }
        ensures sound { IsSound self.new }
    {
        release_groups(
            &self.engine,
            &mut self.groups,
            &mut self.free,
            party.number(),
            collection.numbers(),
        );
        collection.forget();
    }

    /// The registration number of the group of the type that has this index.
    pub(crate) fn number_at(&self, index: VMSharedTypeIndex) -> Option<u64>
        ensures { result ≡ option_map (λ at. at.0) (locate self.now.made index) }
    {
        number_at(&self.groups.entries, index)
    }

    /// One more hold of a party on a registered group. It takes no memory.
    pub(crate) fn hold(&mut self, party: u32, number: u64) -> Result<(), Full>
        requires { party < self.old.engine.limits.parties }
        ensures ok { OnOk result (hold self.old party number ≡ Ok self.new) }
        ensures full { (full : _) → result ≡ Err full → hold self.old party number ≡ Err full }
        ensures err { OnErr result (self.new ≡ self.old) }
        ensures sound { IsSound self.new }
    {
        hold_one(&self.engine, &mut self.groups.counts, party, number)
    }

    /// Ends a hold of a party on a group. Where no hold and no waiting group reaches the group any more, it
    /// waits, and the party owes a sweep of it. It takes no memory.
    pub(crate) fn end_hold(&mut self, party: u32, number: u64) -> Option<Debt>
        requires party { party < self.old.engine.limits.parties }
        requires held { 1 ≤ held_at self.old.standings party number }
        ensures dropped { drop_hold self.old party number ≡ (result, self.new) }
        ensures sound { IsSound self.new }
    {
        match end_hold(&self.engine, &mut self.groups, party, number) {
            Some(number) => Some(Debt::new(number)),
            None => None,
        }
    }
}

#[cfg(test)]
mod tests;
