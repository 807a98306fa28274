//! Holds of registered types, and the parties that have them.

ghost use Rattle.std.specs.Prelude.{◌≡◌, ◌<◌, ◌≤◌, [], ◌∷◌, ◌++◌, map, option_map, IfOk, IfErr, IfSome, IfNone, OnSome, OnOk, OnErr, Ok, Err, None, Some, true};
ghost use Rattle.wt_tree.specs.NumberFunction.{is_number, is_number_function};
ghost use Rattle.wt_model.specs.Changes.{HoldChanges};
ghost use Rattle.wt_model.specs.Holds.{IsHeld};
ghost use Rattle.wt_model.specs.Limits.{passed_limit};
ghost use Rattle.wt_model.specs.Registration.{carried_out, hold_of, IsRefusal};
ghost use Rattle.wt_holds.specs.Kept.{AreKept, registry_at};
ghost use Rattle.wt_keys.specs.Entries.{made_by};
ghost use Rattle.wt_plan.specs.Planned.{plan_of, PlansHost};

use crate::debt::Debt;
use crate::enter::check_and_commit;
use crate::registry::TypeRegistry;
use std::alloc::Global;
use std::hash::{Hash, Hasher};
use std::marker::Model;
use wt_env::limits::Engine;
use wt_env::types::{VMSharedTypeIndex, WasmSubType, WasmValType};
use wt_holds::inner::TypeRegistryInner;
use wt_indices::free_indices::FreeIndices;
use wt_model::refusal::{BuildRefusal, Full};
use wt_plan::host_plan::{plan_exception, plan_host_type};
use wt_plan::plan::Plan;

/// A party of an engine, by its number.
#[derive(Debug, Drop)]
pub struct PartyNumber {
    number: u32,
}

impl Model for PartyNumber {
    ghost use Rattle.std.specs.Prelude.{ℕ};

    ghost Value = { ℕ };

    ghost view = { λ party. party.number };
}

impl PartyNumber {
    /// The party with this number.
    pub fn new(number: u32) -> PartyNumber
        ensures { result ≡ number }
    {
        PartyNumber { number }
    }

    /// The party's number.
    pub fn number(&self) -> u32
        ensures { result ≡ self.now }
    {
        self.number
    }
}

/// One hold of a registered type, by a party. It is never dropped by itself, so it must be spent. Two are
/// equal where their engine and their index are.
#[derive(Debug)]
pub struct RegisteredType {
    engine: u64,
    index: VMSharedTypeIndex,
    number: u64,
    party: u32,
}

impl Model for RegisteredType {
    ghost use Rattle.wt_model.specs.Holds.{Hold};

    ghost Value = { Hold };

    ghost view = { λ hold. record { engine = hold.engine; index = hold.index; number = hold.number; party = hold.party } };
}

impl PartialEq for RegisteredType {
    ghost use Rattle.std.specs.Prelude.{◌==◌, ◌&&◌};
    ghost use Rattle.std.proofs.Common.{rules};
    ghost use Rattle.std.specs.Cmp.Rules.{comparing};
    ghost use Rattle.std.specs.Ordering.{eq_of_both, on};

    ghost eq = { eq_of_both (on (λ hold. hold.engine) ◌==◌) (on (λ hold. hold.index.0) ◌==◌) };

    ghost laws = { Prim.search (comparing, rules) };

    fn eq(&self, other: &RegisteredType) -> bool {
        self.engine == other.engine && self.index == other.index
    }
}

impl Eq for RegisteredType {
    ghost use Rattle.std.proofs.Common.{rules};
    ghost use Rattle.std.specs.Cmp.Rules.{comparing};

    ghost laws = { Prim.search (comparing, rules) };
}

impl Hash for RegisteredType {
    ghost use Rattle.std.proofs.Common.{rules};
    ghost use Rattle.std.specs.Cmp.Rules.{hashing};
    ghost use Rattle.wt_model.specs.Holds.{hold_feed};

    ghost hash_input = { hold_feed };

    ghost respects_eq = { Prim.search (hashing, rules) };

    fn hash<H: Hasher>(&self, state: &mut H) {
        self.engine.hash(state);
        self.index.bits().hash(state);
    }
}

/// Carries the plan of one type of a host out for a party, and gives the party its hold; or tells the first limit that
/// the plan would pass.
fn commit_host(
    alloc: Global,
    engine: &Engine,
    groups: &mut TypeRegistryInner,
    free: &mut FreeIndices,
    party: u32,
    plan: Plan,
) -> Result<RegisteredType, BuildRefusal>
    requires kept { AreKept engine.now groups.old }
    requires party { party < engine.now.limits.parties }
    requires plans { PlansHost groups.old.entries groups.old.given.numbers plan }
    ensures accepted { OnOk result (passed_limit (registry_at engine.now groups.old) party (plan_of groups.old.entries plan) ≡ None) }
    ensures ok { OnOk result (carried_out (registry_at engine.now groups.old) party (plan_of groups.old.entries plan) ≡ registry_at engine.now groups.new) }
    ensures hold { IfOk result (λ hold. hold_of engine.now.number party (plan_of groups.old.entries plan) ≡ hold) }
    ensures only { IfOk result (λ hold. plan.map.items ≡ hold.index ∷ []) }
    ensures changes { IfOk result (λ hold. HoldChanges (registry_at engine.now groups.old) (registry_at engine.now groups.new) party (hold.number ∷ [])) }
    ensures held { IfOk result (λ hold. IsHeld (registry_at engine.now groups.new) hold) }
    ensures refused { IfErr result (λ why. IsRefusal (option_map BuildRefusal.Full (passed_limit (registry_at engine.now groups.old) party (plan_of groups.old.entries plan))) why) }
    ensures err { OnErr result (registry_at engine.now groups.new ≡ registry_at engine.now groups.old) }
    ensures kept { AreKept engine.now groups.new }
    ensures made { OnOk result (made_by groups.new.entries ≡ made_by (groups.old.entries ++ plan.added)) }
    ensures settled { OnOk result (free.new ≡ record free.old { taken = [] }) }
    ensures unsettled { OnErr result (free.new ≡ free.old) }
{
    let (numbers, map) = check_and_commit(alloc, engine, groups, party, plan)?;
    free.keep_taken();
    Ok(RegisteredType {
        engine: engine.number(),
        index: map[0],
        number: numbers[0],
        party,
    })
}

impl RegisteredType {
    ghost use Rattle.wt_rules.specs.HostTypes.{is_host_type};
    ghost use Rattle.wt_model.specs.Indices.{closed_tree};
    ghost use Rattle.wt_model.specs.Shown.{sub_type_at};
    ghost use Rattle.wt_model.specs.Holds.{root as root_of, hold};
    ghost use Rattle.wt_model.specs.HostExceptions.{exception_function};
    ghost use Rattle.wt_model.specs.Registration.{host_type, host_exception, trees_of, registration_refusal, IsRefusal, register, register_exception};
    ghost use Rattle.wt_model.specs.Removal.{drop_hold as drop_of};
    ghost use Rattle.wt_model.specs.Sound.{IsSound};
    ghost use Rattle.wt_model.specs.Changes.{HoldChanges, DropChanges, IsStillReached};

    /// Registers a type for a party, and gives the party one hold of it. A type whose closed tree is that
    /// of a registered one is that one, with its index. Otherwise it gets the smallest free index.
    ///
    /// Its type indices are engine indices of registered types, as `TypeRegistry::is_host_type` tests.
    ///
    /// It is refused with the first cause of the build checks: `FinalSupertype` where its supertype is final,
    /// `SupertypeMismatch` where its shape doesn't match its supertype's, `TooManyFields` where a struct has more than
    /// 10,000, `TagHasResults` where the function of an exception has results, `NoGc` where the engine has no garbage
    /// collection and it is no function, and `Full` where a limit would be passed, on groups, types, references,
    /// registration numbers or holds, in this order. A refusal leaves all as before, want of memory included.
    pub fn new(
        registry: &mut TypeRegistry,
        party: &mut PartyNumber,
        ty: WasmSubType,
    ) -> Result<RegisteredType, BuildRefusal>
        requires host { is_host_type (closed_tree registry.old.made) ty ≡ true }
        requires party { party.old < registry.old.engine.limits.parties }

        ensures ok { IfOk result (λ hold. register registry.old party.old ty ≡ Ok (hold, registry.new)) }
        ensures accepted { OnOk result (registration_refusal registry.old party.old (host_type ty) ≡ None) }
        ensures refused { IfErr result (λ why. IsRefusal (registration_refusal registry.old party.old (host_type ty)) why) }
        ensures named { IfOk result (λ hold. closed_tree registry.new.made hold.index ∷ [] ≡ map Some (trees_of registry.old.made (host_type ty))) }
        ensures err { OnErr result (registry.new ≡ registry.old) }
        ensures party { party.new ≡ party.old }
        ensures changes { IfOk result (λ hold. HoldChanges registry.old registry.new party.old (hold.number ∷ [])) }
        ensures owner { IfOk result (λ hold. hold.party ≡ party.old) }
        ensures held { IfOk result (λ hold. IsHeld registry.new hold) }
        ensures sound { IsSound registry.new }
    {
        if let Some(why) = registry.host_refusal(&ty) {
            return Err(why);
        }
        let entries = &registry.groups.entries;
        let given = registry.groups.given;
        registry.free.return_taken();
        let plan = plan_host_type(registry.alloc, entries, &mut registry.free, given, ty)?;
        commit_host(
            registry.alloc,
            &registry.engine,
            &mut registry.groups,
            &mut registry.free,
            party.number(),
            plan,
        )
    }

    /// Registers the exception of a host that holds values of these types, and its function type, which has them as its
    /// parameters, for a party; and gives the party one hold of the exception (after wasmtime). Either is the registered
    /// type that has its closed tree, where there is one. The function type is held by the exception alone.
    ///
    /// The type indices are engine indices of registered types: what `TypeRegistry::is_host_type` tests of the function
    /// type.
    ///
    /// It is refused with `NoGc` where the engine has no garbage collection, and else with `Full` where a limit would be
    /// passed, on groups, types, references, registration numbers or holds, in this order. A refusal leaves all as before,
    /// want of memory included.
    pub fn new_exn(
        registry: &mut TypeRegistry,
        party: &mut PartyNumber,
        fields: &[WasmValType],
    ) -> Result<RegisteredType, BuildRefusal>
        requires host { is_host_type (closed_tree registry.old.made) (exception_function fields.now) ≡ true }
        requires party { party.old < registry.old.engine.limits.parties }

        ensures ok { IfOk result (λ hold. register_exception registry.old party.old fields.now ≡ Ok (hold, registry.new)) }
        ensures accepted { OnOk result (registration_refusal registry.old party.old (host_exception fields.now) ≡ None) }
        ensures refused { IfErr result (λ why. IsRefusal (registration_refusal registry.old party.old (host_exception fields.now)) why) }
        ensures named { IfOk result (λ hold. closed_tree registry.new.made hold.index ∷ [] ≡ map Some (trees_of registry.old.made (host_exception fields.now))) }
        ensures err { OnErr result (registry.new ≡ registry.old) }
        ensures party { party.new ≡ party.old }
        ensures changes { IfOk result (λ hold. HoldChanges registry.old registry.new party.old (hold.number ∷ [])) }
        ensures owner { IfOk result (λ hold. hold.party ≡ party.old) }
        ensures held { IfOk result (λ hold. IsHeld registry.new hold) }
        ensures sound { IsSound registry.new }
    {
        if !registry.engine.gc() {
            return Err(BuildRefusal::NoGc);
        }
        let entries = &registry.groups.entries;
        let given = registry.groups.given;
        registry.free.return_taken();
        let plan = plan_exception(registry.alloc, entries, &mut registry.free, given, fields)?;
        commit_host(
            registry.alloc,
            &registry.engine,
            &mut registry.groups,
            &mut registry.free,
            party.number(),
            plan,
        )
    }

    /// One more hold of the type that has this index; `None` exactly where the index names no registered
    /// type. It is refused exactly where the party's holds of the type's group would pass the limit. It takes
    /// no memory.
    pub fn try_root(
        registry: &mut TypeRegistry,
        party: &mut PartyNumber,
        index: VMSharedTypeIndex,
    ) -> Result<Option<RegisteredType>, Full>
        requires { party.old < registry.old.engine.limits.parties }
        ensures ok { IfOk result (λ found. root_of registry.old party.old index ≡ Ok (found, registry.new)) }
        ensures owner { IfOk result (λ found. (hold : _) → found ≡ Some hold → hold.party ≡ party.old) }
        ensures held { IfOk result (λ found. (hold : _) → found ≡ Some hold → IsHeld registry.new hold) }
        ensures changes { IfOk result (λ found. (hold : _) → found ≡ Some hold → HoldChanges registry.old registry.new party.old (hold.number ∷ [])) }
        ensures full { (full : _) → result ≡ Err full → root_of registry.old party.old index ≡ Err full }
        ensures err { OnErr result (registry.new ≡ registry.old) }
        ensures party { party.new ≡ party.old }
        ensures sound { IsSound registry.new }
    {
        registry.tell_invariant();
        let engine = registry.engine().number();
        match registry.number_at(index) {
            Some(number) => match registry.hold(party.number(), number) {
                Ok(()) => Ok(Some(RegisteredType {
                    engine,
                    index,
                    number,
                    party: party.number(),
                })),
                Err(full) => Err(full),
            },
            None => Ok(None),
        }
    }

    /// One more hold of the same type, by the same party. It is refused exactly where the party's holds of
    /// the type's group would pass the limit. It takes no memory.
    pub fn try_clone(
        &self,
        registry: &mut TypeRegistry,
        party: &mut PartyNumber,
    ) -> Result<RegisteredType, Full>
        requires owner { party.old ≡ self.now.party }
        requires held { IsHeld registry.old self.now }
        ensures copy { IfOk result (λ copy. copy ≡ self.now) }
        ensures held { IfOk result (λ copy. IsHeld registry.new copy) }
        ensures changes { IfOk result (λ copy. HoldChanges registry.old registry.new party.old (copy.number ∷ [])) }
        ensures ok { IfOk result (λ copy. hold registry.old party.old self.now.number ≡ Ok registry.new) }
        ensures full { (full : _) → result ≡ Err full → hold registry.old party.old self.now.number ≡ Err full }
        ensures err { OnErr result (registry.new ≡ registry.old) }
        ensures same_party { party.new ≡ party.old }
        ensures sound { IsSound registry.new }
    {
        registry.tell_invariant();
        match registry.hold(party.number(), self.number) {
            Ok(()) => Ok(RegisteredType {
                engine: self.engine,
                index: self.index,
                number: self.number,
                party: self.party,
            }),
            Err(full) => Err(full),
        }
    }

    /// The number of the engine.
    pub fn engine(&self) -> u64
        ensures { result ≡ self.now.engine }
    {
        self.engine
    }

    /// The index of the type.
    pub fn index(&self) -> VMSharedTypeIndex
        ensures { result ≡ self.now.index }
    {
        self.index
    }

    /// The registration number of the type's group.
    pub fn number(&self) -> u64
        ensures { result ≡ self.now.number }
    {
        self.number
    }

    /// The number of the party that has the hold.
    pub fn party(&self) -> u32
        ensures { result ≡ self.now.party }
    {
        self.party
    }

    /// The type.
    pub fn ty<'r>(&self, registry: &'r TypeRegistry) -> &'r WasmSubType
        requires { IsHeld registry.now self.now }
        ensures { sub_type_at registry.now.made self.now.index ≡ Some result.now }
    {
        registry.borrow(self.index).unwrap()
    }

    /// Ends the hold. Where no hold and no group that waits leads to the type's group by edges any more, the group
    /// waits for a sweep, and the answer is the debt. It takes no memory, and is never refused.
    pub fn decref(self, registry: &mut TypeRegistry, party: &mut PartyNumber) -> Option<Debt>
        requires owner { party.old ≡ self.party }
        requires held { IsHeld registry.old self }
        ensures dropped { drop_of registry.old party.old self.number ≡ (result, registry.new) }
        ensures owed { OnSome result (IsStillReached registry.old registry.new self.number → ⊥) }
        ensures settled { IfNone result (IsStillReached registry.old registry.new self.number) }
        ensures changes { DropChanges registry.old registry.new party.old self.number }
        ensures same_party { party.new ≡ party.old }
        ensures sound { IsSound registry.new }
    {
        registry.tell_invariant();
        let number = self.number;
        self.forget();
        registry.end_hold(party.number(), number)
    }

    /// Spends the hold at the moment at which its registry is given up. It changes no registry and takes
    /// no memory.
    pub fn forget(self) {
        let RegisteredType {
            engine: _,
            index: _,
            number: _,
            party: _,
        } = self;
    }
}

#[cfg(test)]
mod tests {
    use super::*;
    use std::process::Abort;
    use std::test::Fail;
    use wt_env::limits::{EngineLimits, Limit};
    use wt_env::memory::OutOfMemory;
    use wt_env::seq::Seq;
    use wt_env::types::{WasmCompositeInnerType, WasmFuncType};
    use wt_model::swept::Swept;

    /// The final function type from one number to another.
    fn function(
        alloc: Global,
        given: WasmValType,
        returned: WasmValType,
    ) -> Result<WasmSubType, OutOfMemory>
        requires given { is_number given ≡ true }
        requires returned { is_number returned ≡ true }
        ensures { IfOk result (λ ty. is_number_function ty ≡ true) }
    {
        let func = WasmFuncType {
            params: Seq::one(alloc, given)?,
            results: Seq::one(alloc, returned)?,
        };
        Ok(WasmSubType {
            is_final: true,
            supertype: None,
            composite_type: WasmCompositeInnerType::Func(func),
        })
    }

    /// Registers a function over numbers, which names nothing.
    fn new_function(
        registry: &mut TypeRegistry,
        party: &mut PartyNumber,
        ty: WasmSubType,
    ) -> Result<RegisteredType, BuildRefusal>
        requires plain { is_number_function ty ≡ true }
        requires party { party.old < registry.old.engine.limits.parties }
        ensures engine { registry.new.engine ≡ registry.old.engine }
        ensures party { party.new ≡ party.old }
        ensures owner { IfOk result (λ hold. hold.party ≡ party.new) }
        ensures held { IfOk result (λ hold. IsHeld registry.new hold) }
    {
        RegisteredType::new(registry, party, ty)
    }

    /// Registers the function type from one number to another.
    fn registered(
        alloc: Global,
        registry: &mut TypeRegistry,
        party: &mut PartyNumber,
        given: WasmValType,
        returned: WasmValType,
    ) -> Result<RegisteredType, BuildRefusal>
        requires given { is_number given ≡ true }
        requires returned { is_number returned ≡ true }
        requires party { party.old < registry.old.engine.limits.parties }
        ensures engine { registry.new.engine ≡ registry.old.engine }
        ensures party { party.new ≡ party.old }
        ensures owner { IfOk result (λ hold. hold.party ≡ party.new) }
        ensures held { IfOk result (λ hold. IsHeld registry.new hold) }
    {
        let ty = function(alloc, given, returned)?;
        new_function(registry, party, ty)
    }

    fn is_refused(rt: &impl Abort, answer: Result<RegisteredType, BuildRefusal>, full: Full) {
        match answer {
            Ok(hold) => {
                hold.forget();
                assert!(rt; false, "it was taken");
            }
            Err(refusal) => assert_eq!(rt; refusal, BuildRefusal::Full(full)),
        }
    }

    fn has_two_groups(rt: &impl Abort, registry: &TypeRegistry) {
        let live = registry.live().expect(rt, "memory is left");
        assert_eq!(rt; live.len(), 2);
        for place in 0..2 {
            let group = &live.as_slice()[place];
            assert_eq!(rt; group.number, place as u64 + 1);
            assert_eq!(rt; group.indices.as_slice(), [place as u32].as_slice());
        }
    }

    fn has_two_indices(rt: &impl Abort, registry: &TypeRegistry, first: &WasmSubType) {
        for (bits, is_there) in [(0, true), (1, true), (2, false), (u32::MAX, false)] {
            let index = VMSharedTypeIndex::new(bits);
            assert_eq!(rt; registry.contains(index), is_there, "at {bits}");
        }
        let borrowed = registry.borrow(VMSharedTypeIndex::new(0));
        assert!(rt; borrowed.is_some_and(|found| found == first));
    }

    #[test]
    fn equal_types_have_one_index(rt: HostRuntime) -> Result<(), Fail> {
        let limits = EngineLimits {
            groups: 2,
            ..EngineLimits::USUAL
        };
        assert!(rt; limits.valid());
        let ty = function(rt.alloc(), WasmValType::I32, WasmValType::I64)?;
        let mut registry = TypeRegistry::new(rt.alloc(), &Engine::new(1, limits, true));
        let mut party = PartyNumber::new(0);
        let alloc = rt.alloc();
        let first = registered(
            alloc,
            &mut registry,
            &mut party,
            WasmValType::I32,
            WasmValType::I64,
        )
        .expect(&rt, "a new group");
        let again = registered(
            alloc,
            &mut registry,
            &mut party,
            WasmValType::I32,
            WasmValType::I64,
        )
        .expect(&rt, "the same group");
        let second = registered(
            alloc,
            &mut registry,
            &mut party,
            WasmValType::I64,
            WasmValType::I32,
        )
        .expect(&rt, "a second group");
        let third = registered(
            alloc,
            &mut registry,
            &mut party,
            WasmValType::F32,
            WasmValType::F64,
        );
        let indices = [
            first.index().bits(),
            again.index().bits(),
            second.index().bits(),
        ];
        assert_eq!(rt; indices, [0, 0, 1]);
        let full = Full {
            limit: Limit::Groups,
            bound: 2,
            wanted: 3,
        };
        is_refused(&rt, third, full);
        has_two_groups(&rt, &registry);
        has_two_indices(&rt, &registry, &ty);
        first.forget();
        again.forget();
        second.forget();
        Ok(())
    }

    /// Ends a hold that is the last one of its group.
    fn debt_of(
        rt: &impl Abort,
        registry: &mut TypeRegistry,
        party: &mut PartyNumber,
        hold: RegisteredType,
    ) -> Debt
        requires owner { party.old ≡ hold.party }
        requires held { IsHeld registry.old hold }
        ensures engine { registry.new.engine ≡ registry.old.engine }
        ensures party { party.new ≡ party.old }
    {
        hold.decref(registry, party)
            .expect(rt, "nothing reaches the group now")
    }

    /// One more hold of the type with index 0.
    fn first_rooted(
        rt: &impl Abort,
        registry: &mut TypeRegistry,
        party: &mut PartyNumber,
    ) -> RegisteredType
        requires { party.old < registry.old.engine.limits.parties }
        ensures engine { registry.new.engine ≡ registry.old.engine }
        ensures party { party.new ≡ party.old }
        ensures owner { result.party ≡ party.new }
        ensures held { IsHeld registry.new result }
    {
        let found = RegisteredType::try_root(registry, party, VMSharedTypeIndex::new(0));
        found
            .expect(rt, "the limit is far")
            .expect(rt, "it is registered")
    }

    #[test]
    fn a_group_waits_from_its_last_drop_to_its_sweep(rt: HostRuntime) -> Result<(), Fail> {
        let limits = EngineLimits::USUAL;
        assert!(rt; limits.valid());
        let mut registry = TypeRegistry::new(rt.alloc(), &Engine::new(1, limits, true));
        let mut party = PartyNumber::new(0);
        let (given, returned) = (WasmValType::I32, WasmValType::I64);
        let alloc = rt.alloc();
        let hold = registered(alloc, &mut registry, &mut party, given, returned).expect(&rt, "new");
        let debt = debt_of(&rt, &mut registry, &mut party, hold);
        assert_eq!(rt; debt.number(), 1);
        assert!(rt; registry.contains(VMSharedTypeIndex::new(0)));
        assert_eq!(rt; registry.sweep(debt), Swept::Removed(1));
        assert!(rt; !registry.contains(VMSharedTypeIndex::new(0)));
        let again = registered(alloc, &mut registry, &mut party, given, returned).expect(
            &rt, "new",
        );
        assert_eq!(rt; (again.index().bits(), again.number()), (0, 2));
        again.forget();
        Ok(())
    }

    #[test]
    fn a_sweep_keeps_what_is_held_again(rt: HostRuntime) -> Result<(), Fail> {
        let limits = EngineLimits::USUAL;
        assert!(rt; limits.valid());
        let mut registry = TypeRegistry::new(rt.alloc(), &Engine::new(1, limits, true));
        let mut party = PartyNumber::new(0);
        let (given, returned) = (WasmValType::I32, WasmValType::I64);
        let alloc = rt.alloc();
        let hold = registered(alloc, &mut registry, &mut party, given, returned).expect(&rt, "new");
        let first = debt_of(&rt, &mut registry, &mut party, hold);
        let hold = first_rooted(&rt, &mut registry, &mut party);
        assert_eq!(rt; registry.sweep(first), Swept::Kept);
        assert!(rt; registry.contains(VMSharedTypeIndex::new(0)));
        hold.forget();
        Ok(())
    }

    #[test]
    fn a_second_sweep_of_a_group_finds_it_gone(rt: HostRuntime) -> Result<(), Fail> {
        let limits = EngineLimits::USUAL;
        assert!(rt; limits.valid());
        let mut registry = TypeRegistry::new(rt.alloc(), &Engine::new(1, limits, true));
        let mut party = PartyNumber::new(0);
        let (given, returned) = (WasmValType::I32, WasmValType::I64);
        let alloc = rt.alloc();
        let hold = registered(alloc, &mut registry, &mut party, given, returned).expect(&rt, "new");
        let first = debt_of(&rt, &mut registry, &mut party, hold);
        let hold = first_rooted(&rt, &mut registry, &mut party);
        let second = debt_of(&rt, &mut registry, &mut party, hold);
        assert_eq!(rt; registry.sweep(first), Swept::Removed(1));
        let again = registered(alloc, &mut registry, &mut party, given, returned).expect(
            &rt, "new",
        );
        assert_eq!(rt; again.index().bits(), 0);
        assert_eq!(rt; registry.sweep(second), Swept::Gone);
        assert!(rt; registry.contains(VMSharedTypeIndex::new(0)));
        again.forget();
        Ok(())
    }

    #[test]
    fn a_party_has_no_more_holds_than_the_limit(rt: HostRuntime) -> Result<(), Fail> {
        let limits = EngineLimits {
            holds: 1,
            ..EngineLimits::USUAL
        };
        assert!(rt; limits.valid());
        let mut registry = TypeRegistry::new(rt.alloc(), &Engine::new(1, limits, true));
        let mut party = PartyNumber::new(0);
        let (given, returned) = (WasmValType::I32, WasmValType::I64);
        let alloc = rt.alloc();
        let hold = registered(alloc, &mut registry, &mut party, given, returned).expect(&rt, "new");
        let full = Full {
            limit: Limit::Holds,
            bound: 1,
            wanted: 2,
        };
        match hold.try_clone(&mut registry, &mut party) {
            Ok(copy) => {
                copy.forget();
                assert!(rt; false, "it was taken");
            }
            Err(refused) => assert_eq!(rt; refused, full),
        }
        let again = registered(alloc, &mut registry, &mut party, given, returned);
        is_refused(&rt, again, full);
        hold.forget();
        Ok(())
    }

    #[test]
    fn a_free_index_cannot_be_rooted(rt: HostRuntime) -> Result<(), Fail> {
        let limits = EngineLimits::USUAL;
        assert!(rt; limits.valid());
        let mut registry = TypeRegistry::new(rt.alloc(), &Engine::new(1, limits, true));
        let mut party = PartyNumber::new(0);
        let free = VMSharedTypeIndex::new(0);
        match RegisteredType::try_root(&mut registry, &mut party, free) {
            Ok(None) => (),
            Ok(Some(hold)) => {
                hold.forget();
                assert!(rt; false, "there was a hold");
            }
            Err(_) => assert!(rt; false, "it was refused"),
        }
        Ok(())
    }
}
