//! What the core types share: how one is registered, how the hold of one is made from an index, and what is asked of
//! the registered type of a hold.

ghost use Rattle.std.specs.Prelude.{◌≡◌, ◌↔◌, ◌<◌, ◌∷◌, [], map, true, None, IsSome, IfOk, IfErr, OnOk, OnErr, Ok, Err, Some, option_map};
ghost use Rattle.wt_tree.specs.Fit.{ShowsAt, TellsFit};
ghost use Rattle.wt_tree.specs.Kinds.{kind_of as kind_of_shape, member_kind, type_indices};
ghost use Rattle.wt_tree.specs.Subtyping.{TellsSteps, engine_index};
ghost use Rattle.wt_rules.specs.HostTypes.{is_host_type};
ghost use Rattle.wt_model.specs.Indices.{closed_tree};
ghost use Rattle.wt_model.specs.Shown.{sub_type_at};
ghost use Rattle.wt_model.specs.Subtyping.{is_subtype_index};
ghost use Rattle.wt_model.specs.Holds.{root as root_of, IsHeld};
ghost use Rattle.wt_env.specs.declared.types.Kind.TheVariants as kind;
ghost use Rattle.wt_model.specs.HostExceptions.{exception_function};
ghost use Rattle.wt_model.specs.Registration.{host_type, host_exception, trees_of, registration_refusal, IsRefusal, register, register_exception as exception_registered};
ghost use Rattle.wt_model.specs.Sound.{IsSound};
ghost use Rattle.wt_model.specs.Changes.{HoldChanges};
ghost use Rattle.wt_heap.specs.Engines.{IsEngineIndex, AreEngineIndices};
ghost use Rattle.wt_core.specs.CoreTypes.{is_of_kind as has_kind, IsOfKind, root_of_kind as kind_root, supertype_at, finality_of};

use wt_env::types::{
    EngineOrModuleTypeIndex, Kind, VMSharedTypeIndex, WasmCompositeInnerType, WasmSubType,
    WasmValType,
};
use wt_heap::mutability::Finality;
use wt_registry::refusal::{BuildRefusal, Full};
use wt_registry::registered_type::{PartyNumber, RegisteredType};
use wt_registry::registry::TypeRegistry;
use wt_tree::fit::fit_shape;
use wt_tree::supers::declared_index;

/// The registered type that an engine index names.
pub fn shared(named: EngineOrModuleTypeIndex) -> VMSharedTypeIndex
    requires { IsEngineIndex named }
    ensures { engine_index named ≡ Some result }
{
    match named {
        EngineOrModuleTypeIndex::Engine(index) => index,
        _ => unreachable!(),
    }
}

/// The kind of a shape.
fn kind_of(shape: &WasmCompositeInnerType) -> Kind
    ensures { result ≡ kind_of_shape shape.now }
{
    match shape {
        WasmCompositeInnerType::Func(_) => Kind::Func,
        WasmCompositeInnerType::Struct(_) => Kind::Struct,
        WasmCompositeInnerType::Array(_) => Kind::Array,
        WasmCompositeInnerType::Exn(_) => Kind::Exn,
        WasmCompositeInnerType::Cont(_) => Kind::Cont,
    }
}

/// Whether the index names a registered type of this kind.
fn is_of_kind(registry: &TypeRegistry, kind: Kind, index: VMSharedTypeIndex) -> bool
    ensures { result ≡ has_kind registry.now.made kind index }
{
    match registry.borrow(index) {
        Some(ty) => kind_of(&ty.composite_type) == kind,
        None => false,
    }
}

/// Registers a type for a party. Its kind is that of the type.
///
/// It is refused with the first cause of the build checks, as `RegisteredType::new`, and then all is as before.
pub fn register_type(
    registry: &mut TypeRegistry,
    party: &mut PartyNumber,
    ty: WasmSubType,
) -> Result<RegisteredType, BuildRefusal>
    requires host { is_host_type (closed_tree registry.old.made) ty ≡ true }
    requires party { party.old < registry.old.engine.limits.parties }
    ensures ok { IfOk result (λ hold. register registry.old party.old ty ≡ Ok (hold, registry.new)) }
    ensures kind { IfOk result (λ hold. IsOfKind registry.new.made (member_kind ty) hold.index) }
    ensures accepted { OnOk result (registration_refusal registry.old party.old (host_type ty) ≡ None) }
    ensures refused { IfErr result (λ why. IsRefusal (registration_refusal registry.old party.old (host_type ty)) why) }
    ensures named { IfOk result (λ hold. closed_tree registry.new.made hold.index ∷ [] ≡ map Some (trees_of registry.old.made (host_type ty))) }
    ensures err { OnErr result (registry.new ≡ registry.old) }
    ensures party { party.new ≡ party.old }
    ensures changes { IfOk result (λ hold. HoldChanges registry.old registry.new party.old (hold.number ∷ [])) }
    ensures owner { IfOk result (λ hold. hold.party ≡ party.old) }
    ensures held { IfOk result (λ hold. IsHeld registry.new hold) }
    ensures sound { IsSound registry.new }
{
    match RegisteredType::new(registry, party, ty) {
        Ok(registered) => {
            let _shown = registered.ty(registry);
            Ok(registered)
        }
        Err(why) => Err(why),
    }
}

/// Registers the exception that holds values of these types, with its function type, for a party.
///
/// It is refused with the first cause of the build checks, as `RegisteredType::new_exn`, and then all is as before.
pub fn register_exception(
    registry: &mut TypeRegistry,
    party: &mut PartyNumber,
    fields: &[WasmValType],
) -> Result<RegisteredType, BuildRefusal>
    requires host { is_host_type (closed_tree registry.old.made) (exception_function fields.now) ≡ true }
    requires party { party.old < registry.old.engine.limits.parties }
    ensures ok { IfOk result (λ hold. exception_registered registry.old party.old fields.now ≡ Ok (hold, registry.new)) }
    ensures kind { IfOk result (λ hold. IsOfKind registry.new.made kind.Exn hold.index) }
    ensures accepted { OnOk result (registration_refusal registry.old party.old (host_exception fields.now) ≡ None) }
    ensures refused { IfErr result (λ why. IsRefusal (registration_refusal registry.old party.old (host_exception fields.now)) why) }
    ensures named { IfOk result (λ hold. closed_tree registry.new.made hold.index ∷ [] ≡ map Some (trees_of registry.old.made (host_exception fields.now))) }
    ensures err { OnErr result (registry.new ≡ registry.old) }
    ensures party { party.new ≡ party.old }
    ensures changes { IfOk result (λ hold. HoldChanges registry.old registry.new party.old (hold.number ∷ [])) }
    ensures owner { IfOk result (λ hold. hold.party ≡ party.old) }
    ensures held { IfOk result (λ hold. IsHeld registry.new hold) }
    ensures sound { IsSound registry.new }
{
    match RegisteredType::new_exn(registry, party, fields) {
        Ok(registered) => {
            let _shown = registered.ty(registry);
            Ok(registered)
        }
        Err(why) => Err(why),
    }
}

/// One more hold of the type of this kind that has this index; `None` exactly where there is none. It is refused exactly
/// where the party's holds of the type's group would pass the limit. It takes no memory.
pub fn root_of_kind(
    registry: &mut TypeRegistry,
    party: &mut PartyNumber,
    kind: Kind,
    index: VMSharedTypeIndex,
) -> Result<Option<RegisteredType>, Full>
    requires { party.old < registry.old.engine.limits.parties }
    ensures ok { IfOk result (λ found. kind_root kind registry.old party.old index ≡ Ok (found, registry.new)) }
    ensures found { IfOk result (λ found. IsSome found ↔ IsOfKind registry.old.made kind index) }
    ensures kind { IfOk result (λ found. (hold : _) → found ≡ Some hold → IsOfKind registry.new.made kind hold.index) }
    ensures owner { IfOk result (λ found. (hold : _) → found ≡ Some hold → hold.party ≡ party.old) }
    ensures held { IfOk result (λ found. (hold : _) → found ≡ Some hold → IsHeld registry.new hold) }
    ensures changes { IfOk result (λ found. (hold : _) → found ≡ Some hold → HoldChanges registry.old registry.new party.old (hold.number ∷ [])) }
    ensures full { (full : _) → result ≡ Err full → kind_root kind registry.old party.old index ≡ Err full }
    ensures err { OnErr result (registry.new ≡ registry.old) }
    ensures party { party.new ≡ party.old }
    ensures sound { IsSound registry.new }
{
    registry.tell_invariant();
    if is_of_kind(registry, kind, index) {
        RegisteredType::try_root(registry, party, index)
    } else {
        Ok(None)
    }
}

/// The registered type of a hold. Each type index in it is that of a registered type.
pub fn sub_type<'r>(registered: &RegisteredType, registry: &'r TypeRegistry) -> &'r WasmSubType
    requires { IsHeld registry.now registered.now }
    ensures value { sub_type_at registry.now.made registered.now.index ≡ Some result.now }
    ensures shows { ShowsAt (closed_tree registry.now.made) registered.now.index result.now }
    ensures engine { AreEngineIndices (type_indices result.now) }
{
    registry.tell_invariant();
    registered.ty(registry)
}

/// Whether the registered type of a hold may have subtypes.
pub fn finality(registered: &RegisteredType, registry: &TypeRegistry) -> Finality
    requires { IsHeld registry.now registered.now }
    ensures { Some result ≡ option_map finality_of (sub_type_at registry.now.made registered.now.index) }
{
    if registered.ty(registry).is_final {
        Finality::Final
    } else {
        Finality::NonFinal
    }
}

/// The index that the registered type of a hold declares as its supertype.
pub fn supertype(registered: &RegisteredType, registry: &TypeRegistry) -> Option<VMSharedTypeIndex>
    requires { IsHeld registry.now registered.now }
    ensures { result ≡ supertype_at registry.now.made registered.now.index }
{
    declared_index(registered.ty(registry))
}

/// Whether declared supertype steps lead from the registered type of one hold to that of another.
pub fn leads_to(
    registered: &RegisteredType,
    other: &RegisteredType,
    registry: &TypeRegistry,
) -> bool
    requires held { IsHeld registry.now registered.now }
    requires other_held { IsHeld registry.now other.now }
    ensures value { result ≡ is_subtype_index registry.now.made registered.now.index other.now.index }
    ensures steps { TellsSteps (closed_tree registry.now.made) registered.now.index other.now.index result }
{
    registry.is_subtype(registered.index(), other.index())
}

/// Whether the shape of the registered type of one hold matches that of another's. A type is known to match itself.
pub fn shapes_fit(
    registered: &RegisteredType,
    other: &RegisteredType,
    registry: &TypeRegistry,
) -> bool
    requires held { IsHeld registry.now registered.now }
    requires other_held { IsHeld registry.now other.now }
    ensures { TellsFit (closed_tree registry.now.made) registered.now.index other.now.index result }
{
    let ty = sub_type(registered, registry);
    let other_ty = sub_type(other, registry);
    if registered.index() == other.index() {
        return true;
    }
    fit_shape(&ty.composite_type, &other_ty.composite_type, registry)
}
