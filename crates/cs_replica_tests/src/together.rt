//! Edits that are one commit.

use crate::given::{Edit, FIRST, K1, Shown, V1, opened, shows, values};
use cs_map_store::MapStore;
use cs_pending::{EditFault, EditsFault};
use cs_replica::Replica;
use cs_store::RowStore;
use cs_value::{Edit as Asked, Field, Items, Memory, Text, Value};
use std::alloc::Global;

fn text_of(alloc: Global, text: &str) -> Result<Text, Memory> {
    Ok(Text::from_string(String::from_str(alloc, text)?))
}

fn fields_of(alloc: Global, text: &str) -> Result<Items<Field>, Memory> {
    let text = text_of(alloc, text)?;
    let mut fields = Vec::new(alloc);
    fields.push(Field::Undefined)?;
    fields.push(Field::Is(Value::Text(text)))?;
    Ok(Items::from_vec(fields))
}

/// The edit, as an application asks for it.
fn asked(alloc: Global, edit: &Edit) -> Result<Asked, Memory> {
    match edit {
        Edit::Insert(number, text) => {
            let row = values(alloc, *number, Some(text))?;
            let table = text_of(alloc, "t1")?;
            Ok(Asked::Insert { table, row })
        }
        Edit::Update(number, text) => {
            let key = values(alloc, *number, None)?;
            let fields = fields_of(alloc, text)?;
            let table = text_of(alloc, "t1")?;
            Ok(Asked::Update { table, key, fields })
        }
        Edit::Delete(number) => {
            let key = values(alloc, *number, None)?;
            let table = text_of(alloc, "t1")?;
            Ok(Asked::Delete { table, key })
        }
    }
}

fn all_asked(alloc: Global, edits: &[Edit]) -> Result<Vec<Asked>, Memory> {
    let mut list = Vec::new(alloc);
    for edit in edits {
        let edit = asked(alloc, edit)?;
        list.push(edit)?;
    }
    Ok(list)
}

fn make_all<S: RowStore>(
    alloc: Global,
    replica: &mut Replica<S>,
    edits: &[Edit],
) -> Result<(), EditsFault> {
    let list = all_asked(alloc, edits)?;
    replica.edit_all(alloc, list.as_slice())
}

/// The row (1, 'v1'), pending.
const ONE: Shown = Shown {
    rows: &[&K1, &V1],
    pending: FIRST,
    count: 1,
    flight: &[],
};

/// An edit meets what those before it left.
const MADE: [Edit; 4] = [
    Edit::Insert(1, "x"),
    Edit::Update(1, "v1"),
    Edit::Insert(2, "x"),
    Edit::Delete(2),
];

/// The third is refused.
const REFUSED: [Edit; 4] = [
    Edit::Update(1, "v9"),
    Edit::Insert(2, "x"),
    Edit::Insert(1, "x"),
    Edit::Delete(2),
];

const WHY: EditsFault = EditsFault::Refused {
    at: 2,
    fault: EditFault::Exists,
};

/// Whether edits are made together, and others refused together.
fn are_together(alloc: Global) -> Option<bool> {
    let mut replica = opened(alloc, MapStore::new(alloc))?;
    let made = make_all(alloc, &mut replica, &MADE) == Ok(())
        && shows(alloc, &mut replica, 0, &ONE)
        && make_all(alloc, &mut replica, &REFUSED) == Err(WHY)
        && make_all(alloc, &mut replica, &[]) == Ok(());
    Some(made && shows(alloc, &mut replica, 0, &ONE))
}

#[test]
fn edits_are_made_together_or_none(rt: HostRuntime) {
    let alloc = rt.alloc();
    assert!(rt; are_together(alloc).unwrap_or(false));
}
