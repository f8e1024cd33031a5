//! The two tables that have a body at each place, and the statements on either.

ghost use Rattle.std.specs.Prelude.{◌≡◌};
ghost use Rattle.cs_sql.specs.statements.Tables.{insert_text, list_text, remove_text, select_text};

/// One of the two tables.
#[derive(Clone, Copy)]
pub enum Space {
    /// Rows.
    Rows,
    /// Pending changes.
    Pending,
}

/// The statements on one of the two tables.
#[derive(Clone, Copy)]
pub(crate) struct Texts {
    pub(crate) remove: &'static str,
    pub(crate) insert: &'static str,
    pub(crate) select: &'static str,
    pub(crate) list: &'static str,
}

impl Space {
    /// The statements on the table.
    pub(crate) fn texts(self) -> Texts
        ensures remove { result.remove.now ≡ remove_text self }
        ensures insert { result.insert.now ≡ insert_text self }
        ensures select { result.select.now ≡ select_text self }
        ensures list { result.list.now ≡ list_text self }
    {
        match self {
            Space::Rows => Texts {
                remove: "DELETE FROM rows WHERE tab = ?1 AND key = ?2",
                insert: "INSERT INTO rows VALUES (?1, ?2, ?3)",
                select: "SELECT body FROM rows WHERE tab = ?1 AND key = ?2",
                list: "SELECT key, body FROM rows WHERE tab = ?1 ORDER BY key",
            },
            Space::Pending => Texts {
                remove: "DELETE FROM pending WHERE tab = ?1 AND key = ?2",
                insert: "INSERT INTO pending VALUES (?1, ?2, ?3)",
                select: "SELECT body FROM pending WHERE tab = ?1 AND key = ?2",
                list: "SELECT key, body FROM pending WHERE tab = ?1 ORDER BY key",
            },
        }
    }
}
