//! Why a call on a store fails.
ghost use Rattle.std.specs.Prelude.{◌≡◌};
ghost use Rattle.clear_values.specs.Causes.{cause_of};

use std::alloc::{AllocError, AllocFailed};

/// Why a call on the store failed, or why what it holds can't be told.
#[derive(Clone, Copy)]
pub enum Fault {
    /// There was no memory.
    Memory,
    /// The records could not be read or written, or are none that a book has.
    Store(StoreCause),
}

impl From<AllocError> for Fault {
    ghost use Rattle.clear_values.specs.declared.causes.Fault.TheVariants.{Memory};

    ghost from_gives = { λ _ fault. fault ≡ Memory };

    fn from(_error: AllocError) -> Fault {
        Fault::Memory
    }
}

impl<T: Drop> From<AllocFailed<T>> for Fault {
    ghost use Rattle.clear_values.specs.declared.causes.Fault.TheVariants.{Memory};

    ghost from_gives = { λ _ fault. fault ≡ Memory };

    fn from(_error: AllocFailed<T>) -> Fault {
        Fault::Memory
    }
}

/// Why the records could not be read or written.
#[derive(Clone, Copy)]
pub enum StoreCause {
    /// A key or a unique value stood already.
    Constraint,
    /// A row was out of its range.
    Row,
    Other,
}

impl StoreCause {
    /// The word that names the cause.
    pub fn word(self) -> &'static str
        ensures { result.now ≡ cause_of self }
    {
        match self {
            StoreCause::Constraint => "Constraint",
            StoreCause::Row => "Row",
            StoreCause::Other => "Other",
        }
    }
}
