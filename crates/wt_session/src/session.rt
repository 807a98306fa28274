//! A session: an engine's registry, and what each party holds of it.

use crate::acting::run_command_of_party;
use crate::counts::ObjectCounts;
use crate::party_handles::PartyHandles;
use crate::reply::{Refusal, Reply};
use std::alloc::Global;
use std::marker::Model;
use wt_commands::command::Command;
use wt_env::limits::{Engine, Limit};
use wt_env::memory::OutOfMemory;
use wt_env::seq::Seq;
use wt_registry::live::LiveGroup;
use wt_registry::refusal::Full;
use wt_registry::registry::TypeRegistry;

/// A session of an engine. It is never dropped: `close` spends it.
pub struct Session {
    alloc: Global,
    registry: TypeRegistry,
    counts: ObjectCounts,
    rows: Vec<PartyHandles>,
}

impl Model for Session {
    ghost use Rattle.wt_session.specs.World.{World};
    ghost use Rattle.wt_session.specs.Session.{world_of, rows_of, IsKept};

    ghost Value = { World };

    ghost view = { λ session. world_of session.registry session.counts (rows_of session.rows.items) };

    ghost invariant = { λ session. IsKept session.registry (rows_of session.rows.items) };
}

impl Session {
    ghost use Rattle.std.specs.Prelude.{◌≡◌, false, IfOk, OnErr, IsOk};
    ghost use Rattle.wt_registry.specs.Sound.{OneIndexPerTree};
    ghost use Rattle.wt_registry.specs.Live.{live_of};
    ghost use Rattle.wt_session.specs.World.{HasExactlyReached, HoldsNamedTypes, takes_memory};
    ghost use Rattle.wt_commands.specs.Commands.{IsCommand};
    ghost use Rattle.wt_session.specs.Run.{step};
    ghost use Rattle.wt_session.specs.Answered.{IsAnswered};
    ghost use Rattle.wt_session.specs.Session.{new_world};

    /// A session of the engine in which nothing was done. It takes no memory.
    pub fn new(alloc: Global, engine: Engine) -> Session
        ensures { result ≡ new_world engine }
    {
        Session {
            alloc,
            registry: TypeRegistry::new(alloc, &engine),
            counts: ObjectCounts::none(),
            rows: Vec::new(alloc),
        }
    }

    /// The registered groups, in order of their registration numbers: exactly those that are reached from
    /// what is held or waits for a sweep.
    pub fn registered(&self) -> Result<Seq<LiveGroup>, OutOfMemory>
        ensures groups { IfOk result (λ groups. groups ≡ live_of self.now.registry.made) }
        ensures reached { HasExactlyReached self.now }
        ensures one_index { OneIndexPerTree self.now.registry.made }
    {
        self.registry.live()
    }

    /// What is true of every session.
    pub(crate) fn tell_invariant(&self)
        ensures reached { HasExactlyReached self.now }
        ensures one_index { OneIndexPerTree self.now.registry.made }
        ensures named_types { HoldsNamedTypes self.now }
    {
        let _ = &self.registry;
    }

    /// One step of the session. Want of memory leaves all as before.
    pub(crate) fn step(&mut self, command: &Command) -> Result<Reply, OutOfMemory>
        requires { IsCommand command.now }
        ensures ok { IfOk result (λ reply. step self.old command.now ≡ (reply, self.new)) }
        ensures answered { IfOk result (λ reply. IsAnswered self.old command.now reply self.new) }
        ensures err { OnErr result (self.new ≡ self.old) }
        ensures takes_no_memory { takes_memory command.now ≡ false → IsOk result }
        ensures one_index { OneIndexPerTree self.new.registry.made }
        ensures reached { HasExactlyReached self.new }
        ensures named_types { HoldsNamedTypes self.new }
    {
        let party = command.by();
        let bound = self.registry.engine().limits().parties;
        if party as u64 >= bound {
            return Ok(Reply::Refused(Refusal::Full(Full {
                limit: Limit::Parties,
                bound,
                wanted: party as u64 + 1,
            })));
        }
        run_command_of_party(
            self.alloc,
            &mut self.registry,
            &mut self.counts,
            &mut self.rows,
            party,
            command,
        )
    }

    /// Gives the session up. It spends every handle, and takes no memory.
    pub fn close(self) {
        let Session {
            alloc: _,
            registry: _,
            counts: _,
            rows: mut rows,
        } = self;
        while let Some(row) = rows.pop() {
            row.forget();
        }
        rows.destroy_empty();
    }
}
