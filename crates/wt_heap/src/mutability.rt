//! Whether a field can change, and whether a type may have subtypes.

ghost use Rattle.std.specs.Prelude.{◌≡◌, ◌↔◌, IsTrue};
ghost use Rattle.wt_heap.specs.declared.mutability.Mutability.TheVariants as mutability;
ghost use Rattle.wt_heap.specs.declared.mutability.Finality.TheVariants as finality;

/// Whether a global, a field or the elements of an array can change (WebAssembly 3.0, "Field Types" and "Global Types").
#[derive(Clone, Copy, Debug, PartialEq, Eq, Hash)]
pub enum Mutability {
    /// The value never changes.
    Const,
    /// The value can change.
    Var,
}

impl Mutability {
    /// Whether the value never changes.
    pub fn is_const(&self) -> bool
        ensures { IsTrue result ↔ (self.now ≡ mutability.Const) }
    {
        *self == Mutability::Const
    }

    /// Whether the value can change.
    pub fn is_var(&self) -> bool
        ensures { IsTrue result ↔ (self.now ≡ mutability.Var) }
    {
        *self == Mutability::Var
    }
}

/// Whether a type may have subtypes (WebAssembly 3.0, "Recursive Types").
#[derive(Clone, Copy, Debug, PartialEq, Eq, Hash)]
pub enum Finality {
    /// No type may declare it as its supertype.
    Final,
    /// A type may.
    NonFinal,
}

impl Finality {
    /// Whether no type may declare it as its supertype.
    pub fn is_final(&self) -> bool
        ensures { IsTrue result ↔ (self.now ≡ finality.Final) }
    {
        *self == Finality::Final
    }

    /// Whether a type may declare it as its supertype.
    pub fn is_non_final(&self) -> bool
        ensures { IsTrue result ↔ (self.now ≡ finality.NonFinal) }
    {
        *self == Finality::NonFinal
    }
}
