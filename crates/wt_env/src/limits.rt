//! An engine, and how much it lets be registered.

ghost use Rattle.std.specs.Prelude.{◌≡◌, ◌↔◌, IsTrue};
ghost use Rattle.wt_env.specs.Limits.{AreValid};

use std::marker::Model;

/// How much an engine lets be registered. A registration is refused exactly where a wanted number is
/// above its bound.
#[derive(Clone, Copy, Debug, PartialEq, Eq, Hash)]
pub struct EngineLimits {
    /// Every party's number is below it.
    pub parties: u64,
    /// Registered groups.
    pub groups: u64,
    /// Registered types, which are the members of registered groups.
    pub types: u64,
    /// References from registered groups to others, each occurrence counted.
    pub references: u64,
    /// Registration numbers given since the engine was made.
    pub ever: u64,
    /// One party's holds of one group.
    pub holds: u64,
}

impl EngineLimits {
    /// The limits that a new session has where none are named.
    pub const USUAL: EngineLimits = EngineLimits {
        parties: 16,
        groups: 65_536,
        types: 1_048_576,
        references: 16_777_216,
        ever: 1_048_576,
        holds: 1_048_576,
    };

    /// The greatest value of each limit.
    pub const GREATEST: EngineLimits = EngineLimits {
        parties: 1024,
        groups: 1 << 24,
        types: 1 << 28,
        references: 1 << 30,
        ever: 1 << 24,
        holds: 1 << 30,
    };

    /// Whether no limit passes its greatest value: 1,024 parties, 2^24 groups, 2^28 types,
    /// 2^30 references, 2^24 registration numbers, 2^30 holds.
    pub fn valid(&self) -> bool
        ensures { IsTrue result ↔ AreValid self.now }
    {
        self.parties <= Self::GREATEST.parties
            && self.groups <= Self::GREATEST.groups
            && self.types <= Self::GREATEST.types
            && self.references <= Self::GREATEST.references
            && self.ever <= Self::GREATEST.ever
            && self.holds <= Self::GREATEST.holds
    }
}

/// One of the limits of an engine.
#[derive(Clone, Copy, Debug, PartialEq, Eq, Hash)]
pub enum Limit {
    Parties,
    Groups,
    Types,
    References,
    Ever,
    Holds,
}

/// An engine: its number, its limits, and whether it has garbage collection. Its limits are valid.
#[derive(Clone, Copy, Debug)]
pub struct Engine {
    number: u64,
    limits: EngineLimits,
    gc: bool,
    profile: u32,
}

impl Model for Engine {
    ghost use Rattle.wt_env.specs.Limits.{AreValid, EngineParts};

    ghost Value = { EngineParts };

    ghost view = { λ engine. record { number = engine.number; limits = engine.limits; gc = engine.gc; profile = engine.profile } };

    ghost invariant = { λ engine. AreValid engine.limits };

    ghost inverse = { λ parts. record { number = parts.number; limits = parts.limits; gc = parts.gc; profile = parts.profile } };
}

impl Engine {
    /// An engine with this number, these limits, and garbage collection or none. It follows the rules
    /// of profile 1.
    pub fn new(number: u64, limits: EngineLimits, gc: bool) -> Engine
        requires { AreValid limits }
        ensures number { result.number ≡ number }
        ensures limits { result.limits ≡ limits }
        ensures gc { result.gc ≡ gc }
        ensures profile { result.profile ≡ 1 }
    {
        Engine {
            number,
            limits,
            gc,
            profile: 1,
        }
    }

    /// The engine's number.
    pub fn number(&self) -> u64
        ensures { result ≡ self.now.number }
    {
        self.number
    }

    /// The engine's limits, which are valid.
    pub fn limits(&self) -> EngineLimits
        ensures value { result ≡ self.now.limits }
        ensures valid { AreValid result }
    {
        self.limits
    }

    /// Whether the engine has garbage collection, which all types but functions need.
    pub fn gc(&self) -> bool
        ensures { result ≡ self.now.gc }
    {
        self.gc
    }

    /// Which rules the engine follows.
    pub fn profile(&self) -> u32
        ensures { result ≡ self.now.profile }
    {
        self.profile
    }
}
