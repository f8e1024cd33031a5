//! The laws of a store in SQLite, each the contract of a function that does nothing.

ghost use Rattle.sqlite.specs.Held.{state};
ghost use Rattle.cs_sql.specs.Laws.{EmptyOpensToNothing, FilesOpenAgain, LeftOpens, NoneIsForeign, OneIsAdopted, OneIsFound, OneIsHeld, OneIsOpened, SomeIsFound};

use crate::SqlStore;
use crate::schema::laws::judgements;
use sqlite::{Alter, Connection};

/// Stores that are opened in files that hold a database hold one thing.
pub fn one_is_opened()
    ensures { OneIsOpened }
{
    one_is_held();
}

/// A store that is opened in files that hold a store's database holds what that holds.
pub fn files_open_again()
    ensures { FilesOpenAgain }
{
    one_is_held();
}

/// A store that is opened in a database file without bytes holds nothing.
pub fn empty_opens_to_nothing()
    ensures { EmptyOpensToNothing }
{}

/// What a store holds of a database is one.
pub fn one_is_held()
    ensures { OneIsHeld }
{
    judgements();
}

/// What stores hold that adopt what a connection shows is one, and a stop leaves one; none adopts what is foreign.
pub fn one_is_adopted<A: Alter>(_conn: &Connection<A>)
    ensures one { OneIsAdopted A.Store (state A.Store _conn.now) }
    ensures none { NoneIsForeign A.Store (state A.Store _conn.now) }
{
    one_is_held();
}

/// A database is found to be one thing, and no database is found to be nothing.
pub fn one_is_found()
    ensures one { OneIsFound }
    ensures some { SomeIsFound }
{
    judgements();
}

/// What a stop may leave of a store opens as one that holds what was left.
pub fn left_opens<A: Alter>(_store: &SqlStore<A>)
    ensures { LeftOpens A.Store _store.now }
{
    one_is_held();
    one_is_found();
    _store.leaves_store();
}
