//! The plain, slow program for subtype tests: a walk from each type to the supertype that it declares. It rests on the
//! searches of entries. Nothing here takes memory.

ghost use Rattle.std.specs.Prelude.{◌≡◌, ℕ, IfSome, IsSome, option_and_then};
ghost use Rattle.wt_tree.specs.Subtyping.{supertype_of as supertype_tree};
ghost use Rattle.wt_model.specs.Indices.{locate, closed_tree};
ghost use Rattle.wt_model.specs.Subtyping.{is_subtype_index};
ghost use Rattle.wt_keys.specs.Keys.{AreKeys, AreShown};
ghost use Rattle.wt_keys.specs.Entries.{made_by};

use crate::entries::RecGroupEntries;
use crate::search::borrow_from;
use wt_env::types::VMSharedTypeIndex;
use wt_tree::supers::declared_index;

/// The index of the type that a registered type declares as its supertype.
fn supertype_of(entries: &RecGroupEntries, index: VMSharedTypeIndex) -> Option<VMSharedTypeIndex>
    requires keys { (top : ℕ) × AreKeys entries.now top }
    requires shown { AreShown entries.now }
    requires registered { IsSome (locate (made_by entries.now) index) }
    ensures declared { option_and_then (closed_tree (made_by entries.now)) result ≡ option_and_then supertype_tree (closed_tree (made_by entries.now) index) }
    ensures registered { IfSome result (λ supertype. IsSome (locate (made_by entries.now) supertype)) }
{
    match borrow_from(entries, index) {
        Some(ty) => declared_index(ty),
        None => None,
    }
}

/// Whether zero or more declared supertype steps lead from `sub` to `sup`, both registered.
pub fn is_subtype_by_steps(
    entries: &RecGroupEntries,
    sub: VMSharedTypeIndex,
    sup: VMSharedTypeIndex,
) -> bool
    requires keys { (top : ℕ) × AreKeys entries.now top }
    requires shown { AreShown entries.now }
    requires sub { IsSome (locate (made_by entries.now) sub) }
    requires sup { IsSome (locate (made_by entries.now) sup) }
    ensures { result ≡ is_subtype_index (made_by entries.now) sub sup }
{
    let mut current = sub;
    while current.bits() != sup.bits() {
        match supertype_of(entries, current) {
            Some(supertype) => current = supertype,
            None => return false,
        }
    }
    true
}
