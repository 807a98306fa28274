//! A host that embeds the registry: two parties register one module, and its types stay while a party holds them.
#![tactic(auto)]

mod structs;
#[cfg(test)]
mod tests;

ghost use Rattle.std.specs.Prelude.{◌≡◌, true, IsSome, IfOk};

use crate::structs::mutual_structs;
use std::alloc::Global;
use std::io;
use wt_env::limits::{Engine, EngineLimits};
use wt_env::types::{ModuleInternedTypeIndex, VMSharedTypeIndex};
use wt_registry::refusal::BuildRefusal;
use wt_registry::registered_type::{PartyNumber, RegisteredType};
use wt_registry::registry::TypeRegistry;
use wt_registry::swept::Swept;

/// What the host sees of the module's first type.
#[derive(Debug, PartialEq, Eq, Drop)]
struct Seen {
    /// Its index, as the first party got it.
    first: VMSharedTypeIndex,
    /// Its index, as the second party got it.
    second: VMSharedTypeIndex,
    /// Whether it is registered after the first party's holds ended.
    stays: bool,
    /// What the sweep did that was owed after the second party's hold ended.
    swept: Option<Swept>,
}

/// Two parties register the module. Its first type has one index, stays while the second party holds it, and a
/// sweep is owed at the end.
fn share(alloc: Global) -> Result<Seen, BuildRefusal>
    ensures one_index { IfOk result (λ seen. seen.first ≡ seen.second) }
    ensures stays { IfOk result (λ seen. seen.stays ≡ true) }
    ensures owed { IfOk result (λ seen. IsSome seen.swept) }
{
    let types = mutual_structs(alloc)?;
    let mut registry = TypeRegistry::new(alloc, &Engine::new(1, EngineLimits::USUAL, true));
    let mut first = PartyNumber::new(0);
    let mut second = PartyNumber::new(1);
    let left = registry.register_module(&mut first, &types)?;
    let right = match registry.register_module(&mut second, &types) {
        Ok(right) => right,
        Err(refusal) => {
            left.forget();
            return Err(refusal);
        }
    };
    let left_index = left.shared_type(ModuleInternedTypeIndex(0)).unwrap();
    let right_index = right.shared_type(ModuleInternedTypeIndex(0)).unwrap();
    let hold = match RegisteredType::try_root(&mut registry, &mut second, right_index) {
        Ok(Some(hold)) => hold,
        Ok(None) => unreachable!(),
        Err(full) => {
            left.forget();
            right.forget();
            return Err(BuildRefusal::Full(full));
        }
    };
    registry.release(&mut second, right);
    registry.release(&mut first, left);
    let stays = registry.contains(hold.index());
    let swept = match hold.decref(&mut registry, &mut second) {
        Some(debt) => Some(registry.sweep(debt)),
        None => None,
    };
    Ok(Seen {
        first: left_index,
        second: right_index,
        stays,
        swept,
    })
}

fn main(rt: HostRuntime) -> io::Result<()> {
    match share(rt.alloc()) {
        Ok(seen) => println!(rt; "{seen:?}"),
        Err(refusal) => println!(rt; "refused {refusal:?}"),
    }
}
