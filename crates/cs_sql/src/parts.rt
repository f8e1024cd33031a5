//! The tables of a store.

ghost use Rattle.std.specs.Prelude.{◌≡◌};
ghost use Rattle.cs_sql.specs.schema.Making.{create_text};
ghost use Rattle.cs_sql.specs.statements.Tables.{all_text};

/// One of the tables of a store.
#[derive(Clone, Copy)]
pub enum Part {
    /// Rows.
    Rows,
    /// Pending changes.
    Pending,
    /// Values by name.
    Meta,
    /// Entries of the log.
    Log,
}

impl Part {
    /// The statement that makes the table.
    pub(crate) fn create(self) -> &'static str
        ensures { result.now ≡ create_text self }
    {
        match self {
            Part::Rows => {
                "CREATE TABLE rows (tab INTEGER NOT NULL, key BLOB NOT NULL, body BLOB NOT NULL, PRIMARY KEY (tab, key)) STRICT"
            }
            Part::Meta => {
                "CREATE TABLE meta (name TEXT NOT NULL PRIMARY KEY, body BLOB NOT NULL) STRICT"
            }
            Part::Log => {
                "CREATE TABLE log (version INTEGER PRIMARY KEY, origin INTEGER NOT NULL, number INTEGER NOT NULL, body BLOB NOT NULL) STRICT"
            }
            Part::Pending => {
                "CREATE TABLE pending (tab INTEGER NOT NULL, key BLOB NOT NULL, body BLOB NOT NULL, PRIMARY KEY (tab, key)) STRICT"
            }
        }
    }

    /// The query that shows all that the table holds: the bodies of the log in the order of their versions.
    pub(crate) fn query(self) -> &'static str
        ensures { result.now ≡ all_text self }
    {
        match self {
            Part::Rows => "SELECT tab, key, body FROM rows",
            Part::Pending => "SELECT tab, key, body FROM pending",
            Part::Meta => "SELECT name FROM meta",
            Part::Log => "SELECT body FROM log ORDER BY version",
        }
    }
}
