//! What a party holds of a module's types.

ghost use Rattle.std.specs.Prelude.{◌≡◌, ◌<◌, ◌^◌, ◌==◌, length, option_map};
ghost use Rattle.std.specs.List.{list_any};
ghost use Rattle.wt_model.specs.Indices.{place_in};

use std::marker::Model;
use wt_env::types::{ModuleInternedTypeIndex, VMSharedTypeIndex};
use wt_keys::search::place_of;

/// Whether the index is among these.
fn has_index(indices: &[VMSharedTypeIndex], index: VMSharedTypeIndex) -> bool
    ensures { result ≡ list_any (λ at. at.0 == index.0) indices.now }
{
    indices.iter().any(|at| at.bits() == index.bits())
}

/// The first place of an index in a map of a module's types.
fn first_type(
    map: &[VMSharedTypeIndex],
    index: VMSharedTypeIndex,
) -> Option<ModuleInternedTypeIndex>
    requires { length map.now < 2 ^ 32 }
    ensures { result ≡ option_map (λ place. record { 0 = place }) (place_in index map.now) }
{
    match place_of(map, index) {
        Some(place) => Some(ModuleInternedTypeIndex(place as u32)),
        None => None,
    }
}

/// The registered types of a module, of which a party has holds: one of each group for each time that the group
/// occurs in the module. It is never dropped by itself, so it must be spent.
#[derive(Debug)]
pub struct TypeCollection {
    engine: u64,
    party: u32,
    numbers: Vec<u64>,
    map: Vec<VMSharedTypeIndex>,
    trampolines: Vec<VMSharedTypeIndex>,
}

impl Model for TypeCollection {
    ghost use Rattle.std.specs.Prelude.{◌<◌, ◌^◌, length};
    ghost use Rattle.wt_model.specs.Holds.{Collection};

    ghost Value = { Collection };

    ghost view = { λ types. record {
      engine = types.engine;
      party = types.party;
      numbers = types.numbers.items;
      map = types.map.items;
      trampolines = types.trampolines.items;
    } };

    ghost invariant = { λ types. length types.map.items < 2 ^ 32 };
}

impl TypeCollection {
    ghost use Rattle.std.specs.Prelude.{◌≡◌, ◌<◌, ◌^◌, length, slice_get};
    ghost use Rattle.wt_model.specs.FunctionIndices.{module_trampoline};

    pub(crate) fn new(
        engine: u64,
        party: u32,
        numbers: Vec<u64>,
        map: Vec<VMSharedTypeIndex>,
        trampolines: Vec<VMSharedTypeIndex>,
    ) -> TypeCollection
        requires { length map.items < 2 ^ 32 }
        ensures { result ≡ record { engine = engine; party = party; numbers = numbers.items; map = map.items; trampolines = trampolines.items } }
    {
        TypeCollection {
            engine,
            party,
            numbers,
            map,
            trampolines,
        }
    }

    /// The number of the engine.
    pub fn engine(&self) -> u64
        ensures { result ≡ self.now.engine }
    {
        self.engine
    }

    /// The number of the party that has the holds.
    pub fn party(&self) -> u32
        ensures { result ≡ self.now.party }
    {
        self.party
    }

    /// The index of each type of the module, by its module type index.
    pub fn as_module_map(&self) -> &[VMSharedTypeIndex]
        ensures { result.now ≡ self.now.map }
    {
        self.map.as_slice()
    }

    /// The index of a type of the module; `None` exactly where the module has no type of this index.
    pub fn shared_type(&self, index: ModuleInternedTypeIndex) -> Option<VMSharedTypeIndex>
        ensures { result ≡ slice_get self.now.map index.0 }
    {
        self.map.get(index.0 as usize).copied()
    }

    /// The first type of the module that is registered at this index, where this is the trampoline of one of the
    /// module's function types. `None` where it is the trampoline of none of them, or where none of the module's
    /// types is registered there. It takes no memory.
    pub fn trampoline_type(&self, index: VMSharedTypeIndex) -> Option<ModuleInternedTypeIndex>
        ensures { result ≡ module_trampoline self.now index }
    {
        if has_index(self.trampolines.as_slice(), index) {
            first_type(self.map.as_slice(), index)
        } else {
            None
        }
    }

    /// The registration number of the group of each occurrence, in order.
    pub(crate) fn numbers(&self) -> &[u64]
        ensures { result.now ≡ self.now.numbers }
    {
        self.numbers.as_slice()
    }

    /// Spends the collection at the moment at which its registry is given up. It changes no registry and takes
    /// no memory.
    pub fn forget(self) {
        let TypeCollection {
            engine: _,
            party: _,
            numbers: _,
            map: _,
            trampolines: _,
        } = self;
    }
}
