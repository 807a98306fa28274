//! Global types: the type of the value, and whether it can change.

ghost use Rattle.std.specs.Prelude.{◌≡◌};
ghost use Rattle.wt_tree.specs.Kinds.{kinded_val, indices_of};
ghost use Rattle.wt_heap.specs.Engines.{val_engine, IsOfEngine, AreEngineIndices};
ghost use Rattle.wt_extern.specs.declared.global_type.GlobalType.{GlobalType as Typed};
ghost use Rattle.wt_extern.specs.Entities.{global_to_wasm};

use crate::entity::Global;
use wt_heap::mutability::Mutability;
use wt_heap::val_type::ValType;

/// The type of a global (WebAssembly 3.0, "Global Types").
///
/// `==` compares contents.
#[derive(Clone, Copy, Debug, PartialEq, Eq, Hash)]
pub struct GlobalType {
    content: ValType,
    mutability: Mutability,
}

impl GlobalType {
    /// The type of globals with a value of this type, which can change or not.
    pub fn new(content: ValType, mutability: Mutability) -> GlobalType
        ensures content { result.content ≡ content }
        ensures mutability { result.mutability ≡ mutability }
    {
        GlobalType {
            content,
            mutability,
        }
    }

    /// The type of the global's value.
    pub fn content(&self) -> &ValType
        ensures { result.now ≡ self.now.content }
    {
        &self.content
    }

    /// Whether the global can change.
    pub fn mutability(&self) -> Mutability
        ensures { result ≡ self.now.mutability }
    {
        self.mutability
    }

    /// The same as data, with a registered type by its index.
    pub fn to_wasm(&self) -> Global
        ensures { result ≡ global_to_wasm self.now }
    {
        Global {
            wasm_ty: self.content.to_wasm(),
            mutability: self.mutability.is_var(),
        }
    }

    /// The type that is this data, where the registered type that it names, if any, is one of the engine with this
    /// number. Its index is an engine index.
    pub fn from_wasm(engine: u64, global: &Global) -> GlobalType
        requires { AreEngineIndices (indices_of (kinded_val global.now.wasm_ty)) }
        ensures wasm { global_to_wasm result ≡ global.now }
        ensures engine { IsOfEngine engine (val_engine result.content) }
        ensures only { (g : Typed) → global_to_wasm g ≡ global.now → IsOfEngine engine (val_engine g.content) → result ≡ g }
    {
        let mutability = if global.mutability {
            Mutability::Var
        } else {
            Mutability::Const
        };
        GlobalType {
            content: ValType::from_wasm(engine, &global.wasm_ty),
            mutability,
        }
    }
}
