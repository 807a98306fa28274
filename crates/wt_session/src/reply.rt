//! What a session answers to a command.

use wt_env::seq::Seq;
use wt_env::text::Text;
use wt_env::types::{Kind, VMSharedTypeIndex};
pub use wt_registry::handle_kind::HandleKind;
use wt_registry::live::LiveGroup;
use wt_registry::place::{Place, Rule};
use wt_registry::refusal::Full;
use wt_registry::swept::Swept;

/// Why a command was refused. A refused command changes nothing.
#[derive(Clone, Copy, Debug, PartialEq, Eq)]
pub enum Refusal {
    /// A limit would be passed.
    Full(Full),
    /// A rule of module types is broken, first at this place.
    InvalidModule {
        place: Place,
        rule: Rule,
    },
    /// The supertype of a host's type, which has this index, is final.
    FinalSupertype {
        supertype: VMSharedTypeIndex,
    },
    /// The shape of a host's type, of this kind, doesn't match its supertype's.
    SupertypeMismatch {
        kind: Kind,
    },
    /// A host's struct has so many fields, which are more than 10,000.
    TooManyFields {
        fields: u64,
    },
    /// The function of a host's exception has so many results.
    TagHasResults {
        results: u64,
    },
    /// The engine has no garbage collection, and some type is no function.
    NoGc,
    /// The party has no handle of this kind under this number.
    NoSuchHandle {
        party: u32,
        kind: HandleKind,
        handle: u32,
    },
    /// The party has no type of this module type index in a module of this number, or none of the kind that
    /// fits.
    NoSuchType {
        party: u32,
        handle: u32,
        ty: u32,
    },
}

/// The answer to one command.
#[derive(Debug, PartialEq, Eq, Drop)]
pub enum Reply {
    /// A handle on a type was made: its number, over all handles of the party from 0, and the index of
    /// the type.
    TypeMade { handle: u64, index: u32 },
    /// A handle on a module's types was made: its number, and the index of each type.
    Module { handle: u64, indices: Seq<u32> },
    /// No registered type has the index.
    NoneFound,
    /// The handle was dropped, and its number is that of a debt now: no hold and no waiting group reaches the
    /// type's group any more, which waits for a sweep.
    Owed,
    /// The handle was dropped, and nothing is owed.
    Dropped,
    /// What a sweep did. The debt is spent.
    Swept(Swept),
    /// The module was released.
    Released,
    /// The index of a type.
    Index(u32),
    /// Whether what was asked is so.
    Answer(bool),
    /// The text of a type.
    Show { text: Text },
    /// The registered groups, in order of their registration numbers.
    Live(Seq<LiveGroup>),
    /// The command was refused.
    Refused(Refusal),
}
