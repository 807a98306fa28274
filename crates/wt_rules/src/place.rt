//! Where a module breaks a rule, and which.

use std::fmt;

/// Where a module breaks a rule.
#[derive(Clone, Copy, Debug, PartialEq, Eq)]
pub enum Place {
    /// A member of one of its recursion groups.
    Member {
        /// The group among those of the module, from 0.
        group: u32,
        /// The member among those of the group, from 0.
        member: u32,
    },
}

/// Which rule a module breaks.
#[derive(Clone, Copy, Debug, PartialEq, Eq)]
pub enum Rule {
    /// A type refers to none that is after its recursion group (WebAssembly 3.0, "Recursive Types").
    Forward,
    /// A type's supertype is declared before it (WebAssembly 3.0, "Recursive Types").
    SuperOrder,
    /// A concrete reference names a type of the kind that it says, and the function of an exception or a
    /// continuation is one (WebAssembly 3.0, "Heap Types"; a kind for each concrete reference, exceptions and
    /// continuations after wasmtime).
    Kind,
    /// A supertype isn't final (WebAssembly 3.0, "Recursive Types").
    SuperFinal,
    /// A supertype is of the type's kind (WebAssembly 3.0, "Matching").
    SuperKind,
    /// A type's shape matches that of its supertype (WebAssembly 3.0, "Recursive Types" and "Matching").
    SuperMismatch,
    /// An exception is final and has no supertype (after wasmtime).
    ExnOpen,
    /// The function of an exception has no results (WebAssembly 3.0, "Tag Types").
    ExnResults,
    /// The fields of an exception are constant, and hold its function's parameters (after wasmtime).
    ExnFields,
}

impl fmt::Display for Place {
    ghost use Rattle.std.specs.Prelude.{Some};
    ghost use Rattle.wt_rules.specs.RuleTexts.{place_text};

    ghost output = { λ place. Some (place_text place) };

    fn fmt<W: fmt::Write>(&self, f: &mut fmt::Formatter<W>) -> fmt::Result {
        match self {
            Place::Member { group, member } => write!(f, "group {group} member {member}"),
        }
    }
}

impl fmt::Display for Rule {
    ghost use Rattle.std.specs.Prelude.{Some};
    ghost use Rattle.wt_rules.specs.RuleTexts.{rule_word};

    ghost output = { λ rule. Some (rule_word rule) };

    fn fmt<W: fmt::Write>(&self, f: &mut fmt::Formatter<W>) -> fmt::Result {
        match self {
            Rule::Forward => write!(f, "forward"),
            Rule::SuperOrder => write!(f, "super-order"),
            Rule::Kind => write!(f, "kind"),
            Rule::SuperFinal => write!(f, "super-final"),
            Rule::SuperKind => write!(f, "super-kind"),
            Rule::SuperMismatch => write!(f, "super-mismatch"),
            Rule::ExnOpen => write!(f, "exn-open"),
            Rule::ExnResults => write!(f, "exn-results"),
            Rule::ExnFields => write!(f, "exn-fields"),
        }
    }
}
