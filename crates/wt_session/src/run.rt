//! Runs of commands: one reply for each, in turn.

ghost use Rattle.std.specs.Prelude.{◌≡◌, ℕ, ◌≤◌, ◌<◌, ◌+◌, ◌⊎◌, ◌++◌, ◌∷◌, [], length, take, OnOk, OnErr, IsOk, vec_len, vec_capacity};
ghost use Rattle.wt_registry.specs.Sound.{OneIndexPerTree};
ghost use Rattle.wt_session.specs.World.{HasExactlyReached, HoldsNamedTypes, TakeNoMemory, TakesMemoryAt};
ghost use Rattle.wt_commands.specs.Commands.{AreCommands};
ghost use Rattle.wt_session.specs.Run.{replies_of, world_after};
ghost use Rattle.wt_session.specs.Answered.{EachReply, IsAcceptedAsChecked, NamesTreesAsked, TellsSubtypes, TellsMatches, TellsTexts, LeavesAllIfRefused, HasOneIndexPerTree, IsExactlyReached};

use crate::reply::Reply;
use crate::session::Session;
use wt_commands::command::Command;
use wt_env::memory::OutOfMemory;

/// Runs commands in order, and adds the reply to each. Each registration is accepted exactly where its build
/// checks give no cause: the party is below the limit, each name in what a host describes is that of a registered type
/// of the kind that its place needs, the type of a host or the groups of a module break no rule, the engine has what
/// the types need, and no limit is passed. Else the reply tells the first cause. An accepted registration is
/// answered with indices whose closed trees are the command's. An answer to a subtype test tells whether zero or
/// more declared supertype steps lead from the first type that the party names to the second, and an answer to a match
/// whether the first value type, over what the party names, matches the second (WebAssembly 3.0, "Matching"). What is
/// shown is the text of the registered type that the party names. A refused command leaves all as before. After each command two registered types have one index
/// exactly where their closed trees are equal, and the registered groups are exactly those reached from what is
/// held or waits for a sweep. Each index that a party names by a handle afterwards is that of a registered group,
/// which the party holds.
///
/// The only error is want of memory. Then some of the commands from the first on are done and replied to, and
/// no other is done in part: either none is done, or the next one takes memory. It never comes where each command
/// is a drop, a sweep, a release, a trampoline, a subtype test or a match, and there is room for their replies.
///
/// What a caller sees to is tested by `are_commands`: the lists of a module's types are shorter than 2^32, and
/// they refer to types by module indices.
pub fn run_session(
    session: &mut Session,
    commands: &[Command],
    replies: &mut Vec<Reply>,
) -> Result<(), OutOfMemory>
    requires { AreCommands commands.now }
    ensures replies { OnOk result (replies.new.items ≡ replies.old.items ++ replies_of session.old commands.now) }
    ensures world { OnOk result (session.new ≡ world_after session.old commands.now) }
    ensures accepted { EachReply IsAcceptedAsChecked session.old commands.now (length replies.old.items) replies.new.items }
    ensures named { EachReply NamesTreesAsked session.old commands.now (length replies.old.items) replies.new.items }
    ensures subtypes { EachReply TellsSubtypes session.old commands.now (length replies.old.items) replies.new.items }
    ensures matches { EachReply TellsMatches session.old commands.now (length replies.old.items) replies.new.items }
    ensures texts { EachReply TellsTexts session.old commands.now (length replies.old.items) replies.new.items }
    ensures unchanged { EachReply LeavesAllIfRefused session.old commands.now (length replies.old.items) replies.new.items }
    ensures one_index_after_each { EachReply HasOneIndexPerTree session.old commands.now (length replies.old.items) replies.new.items }
    ensures reached_after_each { EachReply IsExactlyReached session.old commands.now (length replies.old.items) replies.new.items }
    ensures err { OnErr result ((n : ℕ) × (n ≤ length commands.now)
        × (replies.new.items ≡ replies.old.items ++ replies_of session.old (take n commands.now))
        × (session.new ≡ world_after session.old (take n commands.now))
        × ((n ≡ 0) ⊎ TakesMemoryAt n commands.now)) }
    ensures takes_no_memory { TakeNoMemory commands.now → vec_len replies.old + length commands.now ≤ vec_capacity replies.old → IsOk result }
    ensures one_index { OneIndexPerTree session.new.registry.made }
    ensures reached { HasExactlyReached session.new }
    ensures named_types { HoldsNamedTypes session.new }
{
    session.tell_invariant();
    replies.reserve(commands.len())?;
    for command in commands {
        let reply = session.step(command)?;
        replies.push_reserved(reply);
    }
    Ok(())
}
