//! Facts that follow from the contracts, each carried by a call.

ghost use Rattle.std.specs.Prelude.{◌≡◌, ℕ, ◌≤◌, ◌⊎◌, ◌++◌, [], length, take, OnOk, OnErr};
ghost use Rattle.wt_registry.specs.Holds.{waiting};
ghost use Rattle.wt_registry.specs.Sound.{OneIndexPerTree};
ghost use Rattle.wt_session.specs.World.{HasExactlyReached, TakesMemoryAt, holds};
ghost use Rattle.wt_commands.specs.Commands.{AreCommands};
ghost use Rattle.wt_session.specs.Run.{replies_of, world_after};

use crate::reply::Reply;
use crate::run::run_session;
use crate::session::Session;
use wt_commands::command::Command;
use wt_env::memory::OutOfMemory;

/// Runs one list of commands and then another. That is the run of the two lists joined, with the same
/// refusal, which may come between the two as well: the room for the second list's replies is taken there.
pub fn run_both(
    session: &mut Session,
    first: &[Command],
    second: &[Command],
    replies: &mut Vec<Reply>,
) -> Result<(), OutOfMemory>
    requires first { AreCommands first.now }
    requires second { AreCommands second.now }
    ensures replies { OnOk result (replies.new.items ≡ replies.old.items ++ replies_of session.old (first.now ++ second.now)) }
    ensures world { OnOk result (session.new ≡ world_after session.old (first.now ++ second.now)) }
    ensures err { OnErr result ((n : ℕ) × (n ≤ length (first.now ++ second.now))
        × (replies.new.items ≡ replies.old.items ++ replies_of session.old (take n (first.now ++ second.now)))
        × (session.new ≡ world_after session.old (take n (first.now ++ second.now)))
        × ((n ≡ 0) ⊎ (n ≡ length first.now) ⊎ TakesMemoryAt n (first.now ++ second.now))) }
    ensures one_index { OneIndexPerTree session.new.registry.made }
    ensures reached { HasExactlyReached session.new }
{
    run_session(session, first, replies)?;
    run_session(session, second, replies)
}

/// Where nothing is held and nothing waits for a sweep, nothing is registered.
pub fn nothing_stands(session: &Session)
    requires held { holds session.now ≡ [] }
    requires waits { waiting session.now.registry.standings ≡ [] }
    ensures { session.now.registry.made ≡ [] }
{
    session.tell_invariant();
}
