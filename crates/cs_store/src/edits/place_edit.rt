//! One edit of a place.

use std::marker::Model;

/// A body that is set at a place, or with no body the place is cleared. Its bytes are lent.
#[derive(Drop)]
pub struct PlaceEdit<'a> {
    table: u32,
    key: &'a [u8],
    body: Option<&'a [u8]>,
}

impl<'a> Model for PlaceEdit<'a> {
    ghost use Rattle.std.specs.Prelude.{option_map};
    ghost use Rattle.cs_store.specs.edits.Edits.{BodyEdit};

    ghost Value = { BodyEdit };

    ghost view = { λ edit. record { table = edit.table; key = edit.key.now; body = option_map (λ body. body.now) edit.body } };
}

impl<'a> PlaceEdit<'a> {
    ghost use Rattle.std.specs.Prelude.{◌≡◌, option_map};

    /// The edit at a table's number, which is its place in the catalog, and the bytes of a key, the record of its values. No body
    /// removes the one that stands there, if there is one.
    #[inline(always)]
    pub fn new(table: u32, key: &'a [u8], body: Option<&'a [u8]>) -> PlaceEdit<'a>
        ensures { result ≡ record { table = table; key = key.now; body = option_map (λ set. set.now) body.entry } }
    {
        PlaceEdit { table, key, body }
    }

    /// The table's number.
    #[inline(always)]
    pub fn table(&self) -> u32
        ensures { result ≡ self.now.table }
    {
        self.table
    }

    /// The bytes of the key.
    #[inline(always)]
    pub fn key(&self) -> &'a [u8]
        ensures { result.now ≡ self.now.key }
    {
        self.key
    }

    /// The bytes of the body that is set, or none.
    #[inline(always)]
    pub fn body(&self) -> Option<&'a [u8]>
        ensures { option_map (λ body. body.now) result ≡ self.now.body }
    {
        self.body
    }
}
