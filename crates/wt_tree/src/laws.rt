//! Laws of subtyping by declared supertypes: facts that follow for whatever knows closed trees by index, each carried by the calls
//! that it is about.

ghost use Rattle.std.specs.Prelude.{◌≡◌, Some, IsTrue, IsSome};
ghost use Rattle.wt_tree.specs.Tree.{ClosedTree};
ghost use Rattle.wt_tree.specs.Subtyping.{member_at, TellsSteps};
ghost use Rattle.wt_tree.specs.Fit.{TellsFit, StepsFit};

use crate::fit::fit_shape;
use crate::supers::{Supers, Types};
use wt_env::types::VMSharedTypeIndex;

/// What is answered of three types: whether the first is below the second, the second below the third, and the first
/// below the third.
#[derive(Clone, Copy, Debug, PartialEq, Eq)]
pub struct ThreeAnswers {
    pub first_second: bool,
    pub second_third: bool,
    pub first_third: bool,
}

/// What is answered of two types, one way and the other.
#[derive(Clone, Copy, Debug, PartialEq, Eq)]
pub struct BothWays {
    pub there: bool,
    pub back: bool,
}

/// Whether a type is below another, and whether its shape may stand for the other's.
#[derive(Clone, Copy, Debug, PartialEq, Eq)]
pub struct StepsAndFit {
    pub steps: bool,
    pub fits: bool,
}

/// Subtyping is reflexive: each type is below itself.
pub fn reflexive<S: Supers>(supers: &S, index: VMSharedTypeIndex) -> bool
    requires { IsSome (S.types supers.now index) }
    ensures steps { TellsSteps (S.types supers.now) index index result }
    ensures law { IsTrue result }
{
    supers.is_subtype(index, index)
}

/// Subtyping is transitive: where the first is below the second, and that below the third, the first is
/// below the third.
pub fn transitive<S: Supers>(
    supers: &S,
    first: VMSharedTypeIndex,
    second: VMSharedTypeIndex,
    third: VMSharedTypeIndex,
) -> ThreeAnswers
    requires first { IsSome (S.types supers.now first) }
    requires second { IsSome (S.types supers.now second) }
    requires third { IsSome (S.types supers.now third) }
    ensures first_second { TellsSteps (S.types supers.now) first second result.first_second }
    ensures second_third { TellsSteps (S.types supers.now) second third result.second_third }
    ensures first_third { TellsSteps (S.types supers.now) first third result.first_third }
    ensures law { IsTrue result.first_second → IsTrue result.second_third → IsTrue result.first_third }
{
    ThreeAnswers {
        first_second: supers.is_subtype(first, second),
        second_third: supers.is_subtype(second, third),
        first_third: supers.is_subtype(first, third),
    }
}

/// Subtyping is antisymmetric: two types of which each is below the other have one index.
pub fn antisymmetric<S: Supers>(
    supers: &S,
    first: VMSharedTypeIndex,
    second: VMSharedTypeIndex,
) -> BothWays
    requires first { IsSome (S.types supers.now first) }
    requires second { IsSome (S.types supers.now second) }
    ensures there { TellsSteps (S.types supers.now) first second result.there }
    ensures back { TellsSteps (S.types supers.now) second first result.back }
    ensures law { IsTrue result.there → IsTrue result.back → first ≡ second }
{
    BothWays {
        there: supers.is_subtype(first, second),
        back: supers.is_subtype(second, first),
    }
}

/// Whether the shape of a type may stand for another's.
fn shapes_fit<T: Types>(types: &T, sub: VMSharedTypeIndex, sup: VMSharedTypeIndex) -> bool
    requires sub { IsSome (T.types types.now sub) }
    requires sup { IsSome (T.types types.now sup) }
    ensures fits { TellsFit (T.types types.now) sub sup result }
    ensures member { (s : ClosedTree) → T.types types.now sub ≡ Some s → IsSome (member_at s) }
{
    match (types.borrow(sub), types.borrow(sup)) {
        (Some(sub), Some(sup)) => fit_shape(&sub.composite_type, &sup.composite_type, types),
        _ => unreachable!(),
    }
}

/// Where the shape of each type may stand for that of its declared supertype, the shape of a type may stand for that
/// of each type that it is below.
pub fn subtype_fits<T: Types>(
    types: &T,
    sub: VMSharedTypeIndex,
    sup: VMSharedTypeIndex,
) -> StepsAndFit
    requires sub { IsSome (T.types types.now sub) }
    requires sup { IsSome (T.types types.now sup) }
    requires each_step { StepsFit (T.types types.now) }
    ensures steps { TellsSteps (T.types types.now) sub sup result.steps }
    ensures fits { TellsFit (T.types types.now) sub sup result.fits }
    ensures law { IsTrue result.steps → IsTrue result.fits }
{
    StepsAndFit {
        steps: types.is_subtype(sub, sup),
        fits: shapes_fit(types, sub, sup),
    }
}
