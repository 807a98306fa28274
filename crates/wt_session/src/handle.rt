//! What a party holds.

use wt_registry::collection::TypeCollection;
use wt_registry::debt::Debt;
use wt_registry::registered_type::RegisteredType;

/// What one of a party's handles stands for. Its number is its place among the party's handles.
#[derive(Debug)]
pub enum Handle {
    /// A registered type, which the party holds.
    Type(RegisteredType),
    /// A type that was dropped, and whose group the party is to sweep.
    Owed(Debt),
    /// The types of a module, of whose groups the party has holds.
    Module(TypeCollection),
    /// Nothing any more.
    Ended,
}

impl Handle {
    /// Spends the handle at the moment at which its session is given up. It takes no memory.
    pub(crate) fn forget(self) {
        match self {
            Handle::Type(hold) => hold.forget(),
            Handle::Owed(debt) => debt.forget(),
            Handle::Module(types) => types.forget(),
            Handle::Ended => {}
        }
    }
}
