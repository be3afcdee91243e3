//! Why a bank file is refused.
use crate::fields::RecordFault;
use std::alloc::{AllocError, AllocFailed};

/// The number of the first data record: the header is record 1.
pub const FIRST_ROW: usize = 2;

/// Why a bank file is refused. Its records are numbered from 1, the header being the first.
#[derive(Clone, Copy)]
pub enum BankFault {
    /// More data records than the limit.
    OverLimit,
    /// A record that is not as it should be. `line` is its number.
    BadCsv { line: usize, fault: RecordFault },
    /// A record whose reference stands earlier with another content. `line` is its number.
    RefConflict { line: usize },
    Memory,
}

impl From<AllocError> for BankFault {
    ghost use Rattle.std.specs.Prelude.{◌≡◌};
    ghost use Rattle.clear_bank.specs.declared.fault.BankFault.TheVariants.{Memory};

    ghost from_gives = { λ _ e. e ≡ Memory };

    fn from(_error: AllocError) -> BankFault {
        BankFault::Memory
    }
}

impl<T: Drop> From<AllocFailed<T>> for BankFault {
    ghost use Rattle.std.specs.Prelude.{◌≡◌};
    ghost use Rattle.clear_bank.specs.declared.fault.BankFault.TheVariants.{Memory};

    ghost from_gives = { λ _ e. e ≡ Memory };

    fn from(_error: AllocFailed<T>) -> BankFault {
        BankFault::Memory
    }
}
