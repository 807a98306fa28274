//! The handles of each party, by the party's number.

ghost use Rattle.std.specs.Prelude.{◌≡◌, ◌<◌, ◌≤◌, ℕ, length, OnOk, IsOk, vec_len, vec_capacity};
ghost use Rattle.wt_session.specs.Session.{rows_of, padded};

use crate::handle::Handle;
use std::alloc::Global;
use wt_env::memory::OutOfMemory;

/// The handles of one party, by their numbers.
#[derive(Debug)]
pub struct PartyHandles {
    pub(crate) handles: Vec<Handle>,
}

impl PartyHandles {
    /// Spends every handle at the moment at which the session is given up. It takes no memory.
    pub(crate) fn forget(self) {
        let PartyHandles {
            handles: mut handles,
        } = self;
        while let Some(handle) = handles.pop() {
            handle.forget();
        }
        handles.destroy_empty();
    }
}

/// Gives a row without handles to each party up to this one that has none.
pub(crate) fn add_missing_parties(
    alloc: Global,
    rows: &mut Vec<PartyHandles>,
    party: u32,
) -> Result<(), OutOfMemory>
    ensures takes_no_memory { party < length rows.old.items → IsOk result }
    ensures there { OnOk result (party < length rows.new.items) }
    ensures within { (parties : ℕ) → party < parties → length rows.old.items ≤ parties → length rows.new.items ≤ parties }
    ensures same { (parties : ℕ) → party < parties → length rows.old.items ≤ parties
        → padded parties (rows_of rows.new.items) ≡ padded parties (rows_of rows.old.items) }
{
    while rows.len() <= party as usize {
        rows.reserve(1)?;
        rows.push_reserved(PartyHandles {
            handles: Vec::new(alloc),
        });
    }
    Ok(())
}
