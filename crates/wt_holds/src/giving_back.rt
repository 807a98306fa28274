//! The indices of groups that are removed are free again.

ghost use Rattle.std.specs.Prelude.{◌≡◌, ℕ, ◌||◌, map, false};
ghost use Rattle.wt_env.specs.Among.{Among};
ghost use Rattle.wt_env.specs.declared.types.VMSharedTypeIndex.{VMSharedTypeIndex as Index};
ghost use Rattle.wt_model.specs.Indices.{is_used};
ghost use Rattle.wt_indices.specs.Free.{is_free_before};
ghost use Rattle.wt_holds.specs.GivenBack.{AreDifferent};

use wt_env::types::VMSharedTypeIndex;
use wt_indices::free_indices::FreeIndices;

/// These indices, which no type has any more, are free again. It takes no memory.
pub fn give_back_indices(free: &mut FreeIndices, indices: &[VMSharedTypeIndex])
    requires different { AreDifferent indices.now }
    requires used { (i : Index) → Among i indices.now → is_free_before free.old i.0 ≡ false }
    ensures { (k : ℕ) → is_free_before free.new k ≡ is_used (map (λ i. i.0) indices.now) k || is_free_before free.old k }
{
    for index in indices {
        free.give_back(*index);
    }
}
