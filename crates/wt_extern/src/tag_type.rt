//! Tag types: the function type of what a tag throws.

ghost use Rattle.std.specs.Prelude.{◌≡◌, Some};
ghost use Rattle.wt_env.specs.declared.types.EngineOrModuleTypeIndex.TheVariants as type_index;
ghost use Rattle.wt_heap.specs.Engines as engines;
ghost use Rattle.wt_extern.specs.declared.tag_type.TagType.{TagType as Typed};
ghost use Rattle.wt_extern.specs.Entities.{tag_to_wasm};

use crate::entity::Tag;
use wt_env::types::EngineOrModuleTypeIndex;
use wt_heap::names::FuncName;

/// The type of a tag: a function type, whose parameters are what an exception of the tag carries (WebAssembly 3.0, "Tag
/// Types").
///
/// `==` compares contents.
#[derive(Clone, Copy, Debug, PartialEq, Eq, Hash)]
pub struct TagType {
    ty: FuncName,
}

impl TagType {
    /// The type of tags of this function type.
    pub fn new(ty: FuncName) -> TagType
        ensures { result.ty ≡ ty }
    {
        TagType { ty }
    }

    /// The function type of the tag.
    pub fn ty(&self) -> &FuncName
        ensures { result.now ≡ self.now.ty }
    {
        &self.ty
    }

    /// The same as data, with the function type by its index.
    pub fn to_wasm(&self) -> Tag
        ensures { result ≡ tag_to_wasm self.now }
    {
        Tag {
            signature: EngineOrModuleTypeIndex::Engine(self.ty.index),
        }
    }

    /// The type that is this data, where its function type is one of the engine with this number. Its index is an engine
    /// index.
    pub fn from_wasm(engine: u64, tag: &Tag) -> TagType
        requires { engines.IsEngineIndex tag.now.signature }
        ensures wasm { tag_to_wasm result ≡ tag.now }
        ensures engine { result.ty.engine ≡ engine }
        ensures only { (t : Typed) → tag_to_wasm t ≡ tag.now → t.ty.engine ≡ engine → result ≡ t }
    {
        TagType {
            ty: name_of(engine, tag.signature),
        }
    }
}

/// The name of the function type that an engine index names.
pub(crate) fn name_of(engine: u64, index: EngineOrModuleTypeIndex) -> FuncName
    requires { engines.IsEngineIndex index }
    ensures engine { result.engine ≡ engine }
    ensures index { index ≡ type_index.Engine result.index }
{
    match index {
        EngineOrModuleTypeIndex::Engine(index) => FuncName { engine, index },
        _ => unreachable!(),
    }
}
