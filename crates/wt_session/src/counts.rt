//! How many stores, modules, components and instances of components were made so far.

ghost use Rattle.std.specs.Prelude.{◌≡◌};
ghost use Rattle.wt_session.specs.Run.{raised, counts_after};

use crate::reply::Reply;

/// How many of each were made so far, over all parties. A count stands still at 2^64 - 1.
#[derive(Clone, Copy, Debug, PartialEq, Eq)]
pub struct ObjectCounts {
    pub stores: u64,
    pub modules: u64,
    pub components: u64,
    pub component_instances: u64,
}

fn one_more(count: u64) -> u64
    ensures { result ≡ raised count }
{
    if count < u64::MAX { count + 1 } else { count }
}

impl ObjectCounts {
    ghost use Rattle.wt_session.specs.World.{no_counts};

    /// Nothing was made yet.
    pub(crate) fn none() -> ObjectCounts
        ensures { result ≡ no_counts }
    {
        ObjectCounts {
            stores: 0,
            modules: 0,
            components: 0,
            component_instances: 0,
        }
    }

    /// Counts what a reply says was made.
    pub(crate) fn add_made(&mut self, reply: &Reply)
        ensures { self.new ≡ counts_after reply.now self.old }
    {
        if let Reply::Module { .. } = reply {
            self.modules = one_more(self.modules);
        }
    }
}
