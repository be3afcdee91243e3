//! What stands in the way of a connection on a store's file.
ghost use Rattle.std.specs.Prelude.{◌≡◌};
ghost use Rattle.clear_host.specs.Hindrances.{hindrance_of};

use sqlite::{Error, ErrorCode};

/// What stands in the way of a connection on a store's file.
#[derive(Clone, Copy)]
pub enum Hindrance {
    /// The file can't be opened.
    NotReachable,
    /// Another process holds the file.
    InUse,
    /// What the file holds is no database, or a damaged one.
    NoDatabase,
}

/// What an error of the database says of it, if that is more than the fault says.
pub(crate) fn hindrance_of(error: &Error) -> Option<Hindrance>
    ensures { result ≡ hindrance_of error.now }
{
    match error {
        Error::SqliteFailure(ErrorCode::CannotOpen) => Some(Hindrance::NotReachable),
        Error::SqliteFailure(ErrorCode::DatabaseBusy) => Some(Hindrance::InUse),
        Error::SqliteFailure(ErrorCode::NotADatabase) => Some(Hindrance::NoDatabase),
        _ => None,
    }
}
