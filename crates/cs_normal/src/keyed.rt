//! Changes of one table behind the bytes of their keys, all in bytes: what normal forms are made of. It stands on changes as
//! read (`cs_change`), records (`cs_record`), values (`cs_value`) and the order of keys (`cs_order`). `put_key` and
//! `gather_keys` write the keys of changes, which `KeysBuilder` puts together; `lend_key` lends a key that stands in its change;
//! `lend_form` gives the normal form of one change, and `pick_form` puts it behind others; `KeyedChanges` keeps changes behind
//! their keys, searched, compared and spelled exactly. `laws` says that the bytes of keys tell the keys apart.
//! Its tests stand in `cs_changes_tests`.

mod builder;
mod gathering;
mod key_bytes;
mod key_of_change;
mod keyed_changes;
mod lending;
mod one_form;
mod picking;

pub use builder::KeysBuilder;
pub use gathering::{gather_keys, keys_for, push_keys};
pub use key_bytes::encode_key;
pub use key_of_change::{key_front, put_key, put_record_key};
pub use keyed_changes::KeyedChanges;
pub use lending::{lend_key, lend_record_key};

pub mod laws;

pub use one_form::{all_normal, is_normal, lend_form};
pub use picking::pick_form;
