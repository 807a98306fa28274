//! Free indices: a heap of those that were given back, and the first that was never taken. What is taken is written down until
//! it is kept, so that a plan that comes to nothing can give all of it back.

ghost use Rattle.std.specs.Prelude.{List, ◌≡◌, ◌≢◌, ℕ, ◌+◌, ◌<◌, ◌≤◌, ◌∷◌, [], ◌++◌, ◌==◌, ◌||◌, ◌&&◌, length, map, not, true, false, IfOk, IfSome, OnOk, OnErr, OnSome, IfNone, Some, None};
ghost use Rattle.std.specs.BinaryHeap.{heap_items, heap_len, heap_capacity, IsHeap};
ghost use Rattle.wt_model.specs.Indices.{is_used, assign_shared_type_indices};
ghost use Rattle.wt_indices.specs.Free.{AreSameBefore, FreeSet, is_free, is_free_before, AreFreeBeside, AreDistinctBelow, occurrences};
ghost use Rattle.wt_indices.specs.Heap.{numbers_in, IsOrdered, AreKept, TakesSmallest};

use std::alloc::Global;
use std::cmp::Reverse;
use std::collections::BinaryHeap;
use std::marker::Model;
use wt_env::memory::OutOfMemory;
use wt_env::seq::Seq;
use wt_env::types::VMSharedTypeIndex;

/// The smallest index of the heap, which leaves it.
fn pop_smallest(given_back: &mut BinaryHeap<Reverse<u32>>) -> Option<u32>
    requires { IsOrdered given_back.old }
    ensures order { IsOrdered given_back.new }
    ensures capacity { heap_capacity given_back.new ≡ heap_capacity given_back.old }
    ensures items { IfSome result (λ index. (k : ℕ) → occurrences k (numbers_in given_back.old) ≡ occurrences k (index ∷ numbers_in given_back.new)) }
    ensures least { IfSome result (λ index. (k : ℕ) → k < index → is_used (numbers_in given_back.old) k ≡ false) }
    ensures none { IfNone result ((numbers_in given_back.old ≡ []) × (numbers_in given_back.new ≡ [])) }
{
    match given_back.pop() {
        Some(Reverse(index)) => Some(index),
        None => None,
    }
}

/// One more index in the heap, for which there is room.
fn push_reserved(given_back: &mut BinaryHeap<Reverse<u32>>, index: u32)
    requires order { IsOrdered given_back.old }
    requires room { heap_len given_back.old < heap_capacity given_back.old }
    ensures order { IsOrdered given_back.new }
    ensures len { heap_len given_back.new ≡ heap_len given_back.old + 1 }
    ensures capacity { heap_capacity given_back.old ≤ heap_capacity given_back.new }
    ensures items { (k : ℕ) → occurrences k (index ∷ numbers_in given_back.old) ≡ occurrences k (numbers_in given_back.new) }
{
    match given_back.push(Reverse(index)) {
        Ok(()) => {}
        Err(_) => unreachable!(),
    }
}

/// The first index that was never taken. The heap has room for it, and for all before it.
fn take_fresh(
    given_back: &mut BinaryHeap<Reverse<u32>>,
    fresh_from: &mut u32,
) -> Result<u32, OutOfMemory>
    requires empty { numbers_in given_back.old ≡ [] }
    requires order { IsOrdered given_back.old }
    ensures order { IsOrdered given_back.new }
    ensures items { numbers_in given_back.new ≡ [] }
    ensures capacity { heap_capacity given_back.old ≤ heap_capacity given_back.new }
    ensures ok { IfOk result (λ index. (index ≡ fresh_from.old) × (fresh_from.new ≡ index + 1) × (fresh_from.new ≤ heap_capacity given_back.new)) }
    ensures err { OnErr result (fresh_from.new ≡ fresh_from.old) }
{
    let index = *fresh_from;
    let after = index.checked_add(1).ok_or(OutOfMemory)?;
    given_back.reserve(after as usize)?;
    *fresh_from = after;
    Ok(index)
}

/// The smallest free index: of those that were given back, or else the first that was never taken.
fn take_smallest(
    given_back: &mut BinaryHeap<Reverse<u32>>,
    fresh_from: &mut u32,
) -> Result<u32, OutOfMemory>
    requires order { IsOrdered given_back.old }
    ensures order { IsOrdered given_back.new }
    ensures ok { IfOk result (λ index. TakesSmallest (numbers_in given_back.old) fresh_from.old (numbers_in given_back.new) fresh_from.new index) }
    ensures room { OnOk result ((fresh_from.old ≤ heap_capacity given_back.old) → fresh_from.new ≤ heap_capacity given_back.new) }
    ensures err { OnErr result ((numbers_in given_back.new ≡ numbers_in given_back.old) × (fresh_from.new ≡ fresh_from.old)) }
    ensures capacity { heap_capacity given_back.old ≤ heap_capacity given_back.new }
{
    match pop_smallest(given_back) {
        Some(index) => Ok(index),
        None => take_fresh(given_back, fresh_from),
    }
}

/// Puts these indices into the heap, which has room for them.
fn push_all(given_back: &mut BinaryHeap<Reverse<u32>>, indices: &[u32])
    requires order { IsOrdered given_back.old }
    requires room { heap_len given_back.old + length indices.now ≤ heap_capacity given_back.old }
    ensures order { IsOrdered given_back.new }
    ensures capacity { heap_capacity given_back.old ≤ heap_capacity given_back.new }
    ensures items { (k : ℕ) → occurrences k (indices.now ++ numbers_in given_back.old) ≡ occurrences k (numbers_in given_back.new) }
{
    for index in indices {
        push_reserved(given_back, *index);
    }
}

/// Free indices, with those that were taken since all that was taken was last kept or given back.
#[derive(Debug, Drop)]
pub struct FreeIndices {
    given_back: BinaryHeap<Reverse<u32>>,
    fresh_from: u32,
    taken: Vec<u32>,
}

impl Model for FreeIndices {
    ghost use Rattle.wt_indices.specs.Free.{FreeSet};
    ghost use Rattle.wt_indices.specs.Heap.{numbers_in, AreKept};

    ghost Value = { FreeSet };

    ghost view = { λ free. record { given_back = numbers_in free.given_back; fresh_from = free.fresh_from; taken = free.taken.items } };

    ghost invariant = { λ free. AreKept free.given_back free.fresh_from free.taken.items };
}

impl FreeIndices {
    /// All indices are free. It takes no memory.
    pub fn new(alloc: Global) -> FreeIndices
        ensures free { AreFreeBeside [] result }
        ensures taken { result.taken ≡ [] }
    {
        FreeIndices {
            given_back: BinaryHeap::new(alloc),
            fresh_from: 0,
            taken: Vec::new(alloc),
        }
    }

    /// Takes the smallest free index.
    pub fn take(&mut self) -> Result<VMSharedTypeIndex, OutOfMemory>
        ensures free { IfOk result (λ index. is_free self.old index.0 ≡ true) }
        ensures least { IfOk result (λ index. (k : ℕ) → k < index.0 → is_free self.old k ≡ false) }
        ensures left { IfOk result (λ index. (k : ℕ) → is_free self.new k ≡ is_free self.old k && not (index.0 == k)) }
        ensures taken { IfOk result (λ index. self.new.taken ≡ self.old.taken ++ index.0 ∷ []) }
        ensures before { AreSameBefore self.old self.new }
        ensures err { OnErr result (self.new ≡ self.old) }
    {
        self.taken.reserve(1)?;
        let index = take_smallest(&mut self.given_back, &mut self.fresh_from)?;
        self.taken.push_reserved(index);
        Ok(VMSharedTypeIndex::new(index))
    }

    /// Takes so many of the smallest free indices, in order.
    pub fn assign_shared_type_indices(
        &mut self,
        alloc: Global,
        count: usize,
    ) -> Result<Seq<VMSharedTypeIndex>, OutOfMemory>
        ensures indices { IfOk result (λ indices. (numbers : List ℕ) → AreFreeBeside numbers self.old → indices ≡ assign_shared_type_indices count numbers) }
        ensures left { IfOk result (λ indices. (numbers : List ℕ) → AreFreeBeside numbers self.old → AreFreeBeside (map (λ index. index.0) indices ++ numbers) self.new) }
        ensures before { AreSameBefore self.old self.new }
    {
        let mut indices = Vec::with_capacity(alloc, count)?;
        while indices.len() < count {
            indices.push(self.take()?)?;
        }
        Ok(Seq::from_vec(indices))
    }

    /// What was taken is kept.
    pub fn keep_taken(&mut self)
        ensures { self.new ≡ record self.old { taken = [] } }
    {
        self.taken.clear();
    }

    /// What was taken is free again. It takes no memory.
    pub fn return_taken(&mut self)
        ensures free { (k : ℕ) → is_free self.new k ≡ is_free_before self.old k }
        ensures taken { self.new.taken ≡ [] }
    {
        push_all(&mut self.given_back, self.taken.as_slice());
        self.taken.clear();
    }

    /// This index is free again. It takes no memory.
    pub fn give_back(&mut self, index: VMSharedTypeIndex)
        requires used { is_free_before self.old index.0 ≡ false }
        ensures free { (k : ℕ) → is_free self.new k ≡ (index.0 == k) || is_free self.old k }
        ensures taken { self.new.taken ≡ self.old.taken }
    {
        push_reserved(&mut self.given_back, index.bits());
    }
}

#[cfg(test)]
mod tests {
    use super::*;
    use std::process::Abort;
    use std::test::Fail;

    fn next_is(rt: &impl Abort, free: &mut FreeIndices, expected: u32) {
        let index = free.take().expect(rt, "memory is left");
        assert_eq!(rt; index.bits(), expected);
    }

    #[test]
    fn what_a_refused_plan_took_is_taken_again(rt: HostRuntime) -> Result<(), Fail> {
        let mut free = FreeIndices::new(rt.alloc());
        next_is(&rt, &mut free, 0);
        next_is(&rt, &mut free, 1);
        free.keep_taken();
        next_is(&rt, &mut free, 2);
        let more = free
            .assign_shared_type_indices(rt.alloc(), 2)
            .expect(&rt, "memory is left");
        assert_eq!(rt; more.len(), 2);
        assert!(rt; more.get(0).is_some_and(|index| index.bits() == 3));
        assert!(rt; more.get(1).is_some_and(|index| index.bits() == 4));
        free.return_taken();
        next_is(&rt, &mut free, 2);
        Ok(())
    }
}
