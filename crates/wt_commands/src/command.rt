//! What a party can ask of a session.

ghost use Rattle.std.specs.Prelude.{IsTrue, ◌↔◌};
ghost use Rattle.wt_commands.specs.Commands.{IsCommand, AreCommands};

use crate::host_type::{HostSub, HostVal};
use wt_env::types::ModuleTypes;
use wt_rules::rules::{are_countable, are_module_types};

/// A type that a command names by a handle of its party.
#[derive(Clone, Copy, Debug, PartialEq, Eq)]
pub enum NamedType {
    /// The type of a handle.
    Handle(u32),
    /// The type of this module type index, of the module of a handle.
    OfModule { handle: u32, ty: u32 },
}

/// One command, by a party of this number.
#[derive(Debug, PartialEq, Eq, Drop)]
pub enum Command {
    /// Registers a type, and takes a handle on it.
    HostType {
        by: u32,
        sub: HostSub,
    },
    /// Registers the recursion groups of a module, and takes one handle on all of its types.
    Module {
        by: u32,
        groups: ModuleTypes,
    },
    /// Takes one more handle on the type of a handle.
    Clone {
        by: u32,
        handle: u32,
    },
    /// Takes a handle on the type that has this index.
    Root {
        by: u32,
        index: u32,
    },
    /// Drops a handle on a type.
    Drop {
        by: u32,
        handle: u32,
    },
    /// Sweeps the group of a debt. The debt has the number of the handle that was dropped.
    Sweep {
        by: u32,
        handle: u32,
    },
    /// Releases a module.
    Release {
        by: u32,
        handle: u32,
    },
    /// Tells the index of the trampoline of a function type, by which callers that know nothing of its
    /// references enter it.
    Trampoline {
        by: u32,
        ty: NamedType,
    },
    /// Tells whether zero or more declared supertype steps lead from one type to another.
    Subtype {
        by: u32,
        sub: NamedType,
        sup: NamedType,
    },
    /// Tells whether a value of one type may stand where the other is wanted.
    Matches {
        by: u32,
        a: HostVal,
        b: HostVal,
    },
    /// Tells the text of a type.
    Show {
        by: u32,
        ty: NamedType,
    },
    /// Tells which groups are registered.
    Live {
        by: u32,
    },
}

impl Command {
    ghost use Rattle.std.specs.Prelude.{◌≡◌};
    ghost use Rattle.wt_commands.specs.Commands.{party_of};

    /// The number of the party whose command it is.
    pub fn by(&self) -> u32
        ensures { result ≡ party_of self.now }
    {
        match self {
            Command::HostType { by, sub: _ } => *by,
            Command::Module { by, groups: _ } => *by,
            Command::Clone { by, handle: _ } => *by,
            Command::Root { by, index: _ } => *by,
            Command::Drop { by, handle: _ } => *by,
            Command::Sweep { by, handle: _ } => *by,
            Command::Release { by, handle: _ } => *by,
            Command::Trampoline { by, ty: _ } => *by,
            Command::Subtype { by, sub: _, sup: _ } => *by,
            Command::Matches { by, a: _, b: _ } => *by,
            Command::Show { by, ty: _ } => *by,
            Command::Live { by } => *by,
        }
    }
}

/// Whether a command is one that a session can run: the types of a module are counted by 32 bits, and refer
/// to each other by module indices.
fn is_command(command: &Command) -> bool
    ensures { IsTrue result ↔ IsCommand command.now }
{
    match command {
        Command::Module { by: _, groups } => are_countable(groups) && are_module_types(groups),
        _ => true,
    }
}

/// Whether each command is one that a session can run. It takes no memory.
pub fn are_commands(commands: &[Command]) -> bool
    ensures { IsTrue result ↔ AreCommands commands.now }
{
    for command in commands {
        if !is_command(command) {
            return false;
        }
    }
    true
}
