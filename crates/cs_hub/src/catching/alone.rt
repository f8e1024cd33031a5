//! Entries that are told alone.

ghost use Rattle.std.specs.Prelude.{◌↔◌, IsTrue};
ghost use Rattle.cs_hub.specs.catching.Catches.{IsToldAlone};

use cs_store::log::LogEntry;

/// Whether an entry is told alone to this replica, and not as one with others: its own is, and one that widens a table.
pub fn is_told_alone(asker: u32, entry: &LogEntry) -> bool
    ensures { IsTrue result ↔ IsToldAlone asker entry.now }
{
    entry.origin == asker || entry.body.changes().is_none()
}
