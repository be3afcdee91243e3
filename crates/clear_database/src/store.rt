//! A store: a connection on a database that has the office's tables.
ghost use Rattle.std.specs.Prelude.{◌≡◌, false, IfOk, IfErr};
ghost use Rattle.sqlite.specs.Held.{state};
ghost use Rattle.clear_database.specs.Outcomes.{CreatesStore, OpensStore};
ghost use Rattle.clear_database.specs.Outcomes.{RefusesToCreate, RefusesToOpen};

use crate::create::create_in;
use crate::open::open_tables;
use clear_money::rates::RateTable;
use clear_schema::fault::OpenFault;
use sqlite::{Alter, Connection};

/// The number of this program's schema.
pub const SCHEMA: u64 = 1;

/// A connection on a database that is a store.
#[derive(Drop)]
pub struct Store<S: Alter> {
    pub conn: Connection<S>,
}

/// Why a database is not taken as a store, and the connection on it.
#[derive(Drop)]
pub struct Refusal<S: Alter> {
    pub fault: OpenFault,
    pub connection: Connection<S>,
}

impl<S: Alter> Store<S> {
    /// Makes the tables of an office without requests in an empty database, with its opening rates,
    /// in one transaction. A database that has a table, an index or a view is refused: where it tells a
    /// number in `meta`, by `WrongVersion` with that one, and otherwise with 0. A refusal leaves any
    /// database as it was, and hands the connection back.
    pub fn create(connection: Connection<S>, rates: &RateTable) -> Result<Store<S>, Refusal<S>>
        requires { connection.in_transaction ≡ false }
        ensures mode { IfOk result (λ store. store.conn.in_transaction ≡ false) }
        ensures mode_left { IfErr result (λ left. left.connection.in_transaction ≡ false) }
        ensures created { IfOk result (λ store.
            CreatesStore rates.now (state S.Store connection) (state S.Store store.conn)) }
        ensures refused { IfErr result (λ left. RefusesToCreate rates.now
            (state S.Store connection) left.fault (state S.Store left.connection)) }
    {
        let mut connection = connection;
        match create_in(&mut connection, rates) {
            Ok(()) => Ok(Store { conn: connection }),
            Err(fault) => Err(Refusal { fault, connection }),
        }
    }

    /// Finds the store in a database that it was made in. Where the database tells our number, but has
    /// other tables or indexes than ours, `Failed(Fault::Store(StoreCause::Other))`. An open changes
    /// nothing, whatever the database is, and a refusal hands the connection back.
    pub fn open(connection: Connection<S>) -> Result<Store<S>, Refusal<S>>
        requires { connection.in_transaction ≡ false }
        ensures mode { IfOk result (λ store. store.conn.in_transaction ≡ false) }
        ensures mode_left { IfErr result (λ left. left.connection.in_transaction ≡ false) }
        ensures opened { IfOk result (λ store.
            OpensStore (state S.Store connection) (state S.Store store.conn)) }
        ensures refused { IfErr result (λ left.
            RefusesToOpen (state S.Store connection) left.fault (state S.Store left.connection)) }
    {
        let mut connection = connection;
        match open_tables(&mut connection) {
            Ok(()) => Ok(Store { conn: connection }),
            Err(fault) => Err(Refusal { fault, connection }),
        }
    }

    /// The connection alone.
    pub fn into_connection(self) -> Connection<S>
        ensures { result ≡ self.conn }
    {
        let Store { conn } = self;
        conn
    }
}
