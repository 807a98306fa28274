//! Why a registration is refused.

ghost use Rattle.std.specs.Prelude.{◌≡◌};
ghost use Rattle.std.specs.Fmt.{WritesOnOk};
ghost use Rattle.wt_model.specs.RefusalTexts.{limit_word, mismatch_text};

use std::alloc::AllocError;
use std::error::Error;
use std::fmt;
use wt_env::limits::Limit;
use wt_env::memory::OutOfMemory;
use wt_env::types::{Kind, VMSharedTypeIndex};
use wt_rules::host_types::HostBreach;
use wt_rules::place::{Place, Rule};

/// A limit would be passed.
#[derive(Clone, Copy, Debug, PartialEq, Eq)]
pub struct Full {
    /// Which limit.
    pub limit: Limit,
    /// The engine's bound for it.
    pub bound: u64,
    /// The number that was wanted, which is above the bound.
    pub wanted: u64,
}

/// Why a registration is refused. After each refusal all is as before.
#[derive(Clone, Copy, Debug, PartialEq, Eq)]
pub enum BuildRefusal {
    /// A rule of module types is broken, first at this place.
    InvalidModule { place: Place, rule: Rule },
    /// The supertype of a host's type, which has this index, is final.
    FinalSupertype { supertype: VMSharedTypeIndex },
    /// The shape of a host's type, of this kind, doesn't match its supertype's.
    SupertypeMismatch { kind: Kind },
    /// A host's struct has so many fields, which are more than 10,000.
    TooManyFields { fields: u64 },
    /// The function of a host's exception has so many results.
    TagHasResults { results: u64 },
    /// The engine has no garbage collection, and some type is no function.
    NoGc,
    /// A limit would be passed.
    Full(Full),
    /// Memory ran out.
    OutOfMemory,
}

/// The word of a limit.
fn limit_word(limit: Limit) -> &'static str
    ensures { result.now ≡ limit_word limit }
{
    match limit {
        Limit::Parties => "parties",
        Limit::Groups => "groups",
        Limit::Types => "types",
        Limit::References => "references",
        Limit::Ever => "ever",
        Limit::Holds => "holds",
    }
}

impl fmt::Display for Full {
    ghost use Rattle.std.specs.Prelude.{Some};
    ghost use Rattle.wt_model.specs.RefusalTexts.{full_text};

    ghost output = { λ full. Some (full_text full) };

    fn fmt<W: fmt::Write>(&self, f: &mut fmt::Formatter<W>) -> fmt::Result {
        let limit = limit_word(self.limit);
        let Full { bound, wanted, .. } = self;
        write!(f, "{limit} {bound}, wanted {wanted}")
    }
}

impl Error for Full {}

/// Writes what doesn't match, by the kind of the type.
fn write_mismatch<W: fmt::Write>(f: &mut fmt::Formatter<W>, kind: Kind) -> fmt::Result
    ensures { WritesOnOk W.write_str_gives f.old result (mismatch_text kind) f.new }
{
    match kind {
        Kind::Struct => write!(f, "struct fields must match their supertype's fields"),
        Kind::Array => write!(f, "array field type must match its supertype's field type"),
        Kind::Func => write!(f, "function type must match its supertype"),
        Kind::Exn => write!(f, "exception type must match its supertype"),
        Kind::Cont => write!(f, "continuation type must match its supertype"),
    }
}

/// The text of wasmtime, where it has one.
impl fmt::Display for BuildRefusal {
    ghost use Rattle.std.specs.Prelude.{Some};
    ghost use Rattle.wt_model.specs.RefusalTexts.{build_refusal_text};

    ghost output = { λ refusal. Some (build_refusal_text refusal) };

    fn fmt<W: fmt::Write>(&self, f: &mut fmt::Formatter<W>) -> fmt::Result {
        match self {
            BuildRefusal::InvalidModule { place, rule } => write!(f, "{place}: {rule}"),
            BuildRefusal::FinalSupertype { .. } => {
                write!(f, "cannot create a subtype of a final supertype")
            }
            BuildRefusal::SupertypeMismatch { kind } => write_mismatch(f, *kind),
            BuildRefusal::TooManyFields { fields } => write!(
                f,
                "attempted to define a struct type with {fields} fields, but that is more than the maximum supported number of fields (10000)"
            ),
            BuildRefusal::TagHasResults { .. } => write!(
                f,
                "Cannot create an exception type from a tag type with results in the signature"
            ),
            BuildRefusal::NoGc => {
                write!(f, "cannot define this type without a GC runtime enabled")
            }
            BuildRefusal::Full(full) => write!(f, "{full}"),
            BuildRefusal::OutOfMemory => write!(f, "out of memory"),
        }
    }
}

impl Error for BuildRefusal {}

impl From<OutOfMemory> for BuildRefusal {
    ghost use Rattle.std.specs.Prelude.{◌≡◌};
    ghost use Rattle.wt_model.specs.declared.refusal.BuildRefusal.TheVariants as refusals;

    ghost from_gives = { λ _ refusal. refusal ≡ refusals.OutOfMemory };

    fn from(_error: OutOfMemory) -> BuildRefusal {
        BuildRefusal::OutOfMemory
    }
}

impl From<AllocError> for BuildRefusal {
    ghost use Rattle.std.specs.Prelude.{◌≡◌};
    ghost use Rattle.wt_model.specs.declared.refusal.BuildRefusal.TheVariants as refusals;

    ghost from_gives = { λ _ refusal. refusal ≡ refusals.OutOfMemory };

    fn from(_error: AllocError) -> BuildRefusal {
        BuildRefusal::OutOfMemory
    }
}

impl From<HostBreach> for BuildRefusal {
    ghost use Rattle.std.specs.Prelude.{◌≡◌};
    ghost use Rattle.wt_model.specs.HostRefusals.{breach_refusal};

    ghost from_gives = { λ breach refusal. refusal ≡ breach_refusal breach };

    fn from(breach: HostBreach) -> BuildRefusal {
        match breach {
            HostBreach::FinalSupertype(supertype) => BuildRefusal::FinalSupertype { supertype },
            HostBreach::SupertypeMismatch(kind) => BuildRefusal::SupertypeMismatch { kind },
            HostBreach::TooManyFields(fields) => BuildRefusal::TooManyFields { fields },
            HostBreach::TagHasResults(results) => BuildRefusal::TagHasResults { results },
        }
    }
}
