//! What a party owes after a drop.

use std::marker::Model;

/// A group that waits for a sweep since its last hold ended. It is never dropped by itself: a sweep spends it.
#[derive(Debug)]
pub struct Debt {
    number: u64,
}

impl Model for Debt {
    ghost use Rattle.std.specs.Prelude.{ℕ};

    ghost Value = { ℕ };

    ghost view = { λ debt. debt.number };
}

impl Debt {
    ghost use Rattle.std.specs.Prelude.{◌≡◌};

    pub(crate) fn new(number: u64) -> Debt
        ensures { result ≡ number }
    {
        Debt { number }
    }

    /// The registration number of the group.
    pub fn number(&self) -> u64
        ensures { result ≡ self.now }
    {
        self.number
    }

    /// Spends the debt at the moment at which its registry is given up. It changes no registry and takes no
    /// memory.
    pub fn forget(self) {
        let Debt { number: _ } = self;
    }
}
