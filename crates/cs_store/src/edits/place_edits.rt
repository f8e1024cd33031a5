//! Edits in pieces of memory.

ghost use Rattle.std.specs.Prelude.{◌≡◌, ◌<◌, ◌++◌, ◌∷◌, [], length, slice_set, IfOk, OnOk, OnErr};
ghost use Rattle.std.specs.List.{All};
ghost use Rattle.cs_store.specs.edits.Pieces.{HaveGrown};
ghost use Rattle.cs_store.specs.edits.Spots.{IsEditSpotIn, edit_in, edits_in, set_bytes};

use crate::edits::lent_edits::{EditSpot, LentEdits};
use crate::edits::pieces::Pieces;
use crate::edits::place_edit::PlaceEdit;
use std::alloc::{AllocError, Global};
use std::marker::Model;

/// Edits of places, in order.
#[derive(Debug, Drop)]
pub struct PlaceEdits {
    pieces: Pieces,
    spots: Vec<EditSpot>,
}

impl Model for PlaceEdits {
    ghost use Rattle.std.specs.Prelude.{List};
    ghost use Rattle.std.specs.List.{All};
    ghost use Rattle.cs_store.specs.edits.Edits.{BodyEdit};
    ghost use Rattle.cs_store.specs.edits.Spots.{IsEditSpotIn, edits_in};

    ghost Value = { List BodyEdit };

    ghost view = { λ edits. edits_in edits.pieces edits.spots.items };

    ghost invariant = { λ edits. All (IsEditSpotIn edits.pieces) edits.spots.items };
}

/// The bytes of the body that is set, or no byte.
#[inline(always)]
fn set_bytes<'a>(edit: &PlaceEdit<'a>) -> &'a [u8]
    ensures { result.now ≡ set_bytes edit.now.body }
{
    match edit.body() {
        Some(body) => body,
        None => &[],
    }
}

/// Appends the bytes of an edit, and gives where it stands in them. After an `Err` there may be bytes more, where none stands.
#[inline(always)]
fn put_bytes(pieces: &mut Pieces, edit: &PlaceEdit<'_>) -> Result<EditSpot, AllocError>
    ensures grown { HaveGrown pieces.old pieces.new }
    ensures within { IfOk result (λ spot. IsEditSpotIn pieces.new spot) }
    ensures stands { IfOk result (λ spot. edit_in pieces.new spot ≡ edit.now) }
{
    let stand = pieces.put(edit.key(), set_bytes(edit))?;
    let past = if edit.body().is_some() {
        stand.end + 1
    } else {
        0
    };
    Ok(EditSpot {
        table: edit.table(),
        piece: stand.piece,
        key: stand.start,
        body: stand.middle,
        past,
    })
}

/// Appends an edit. An `Err` changes no edit.
#[inline(always)]
fn put(
    pieces: &mut Pieces,
    spots: &mut Vec<EditSpot>,
    edit: &PlaceEdit<'_>,
) -> Result<(), AllocError>
    requires { All (IsEditSpotIn pieces.old) spots.old.items }
    ensures within { All (IsEditSpotIn pieces.new) spots.new.items }
    ensures ok { OnOk result (edits_in pieces.new spots.new.items ≡ edits_in pieces.old spots.old.items ++ edit.now ∷ []) }
    ensures err { OnErr result (edits_in pieces.new spots.new.items ≡ edits_in pieces.old spots.old.items) }
{
    let spot = put_bytes(pieces, edit)?;
    spots.push(spot)?;
    Ok(())
}

/// Puts an edit in place of the one there. An `Err` changes no edit.
#[inline(always)]
fn set(
    pieces: &mut Pieces,
    spots: &mut [EditSpot],
    at: usize,
    edit: &PlaceEdit<'_>,
) -> Result<(), AllocError>
    requires spots { All (IsEditSpotIn pieces.old) spots.old }
    requires at { at < length spots.old }
    ensures within { All (IsEditSpotIn pieces.new) spots.new }
    ensures ok { OnOk result (edits_in pieces.new spots.new ≡ slice_set (edits_in pieces.old spots.old) at edit.now) }
    ensures err { OnErr result (edits_in pieces.new spots.new ≡ edits_in pieces.old spots.old) }
{
    spots[at] = put_bytes(pieces, edit)?;
    Ok(())
}

impl PlaceEdits {
    ghost use Rattle.std.specs.Prelude.{◌≡◌, ◌<◌, ◌++◌, ◌∷◌, [], length, take, slice_get, slice_set, Some, IfOk, OnOk, OnErr};
    ghost use Rattle.std.specs.List.{All};
    ghost use Rattle.cs_store.specs.edits.Edits.{BodyEdit};
    ghost use Rattle.cs_store.specs.edits.Spots.{IsEditSpotIn, edits_in};

    /// No edit. It takes no memory.
    pub fn new(alloc: Global) -> PlaceEdits
        ensures { result ≡ [] }
    {
        PlaceEdits {
            pieces: Pieces::new(alloc),
            spots: Vec::new(alloc),
        }
    }

    /// No edit, with room for so many of so many bytes together, or for the first of them.
    pub fn with_capacity(
        alloc: Global,
        edits: usize,
        bytes: usize,
    ) -> Result<PlaceEdits, AllocError>
        ensures { IfOk result (λ made. made ≡ []) }
    {
        Ok(PlaceEdits {
            pieces: Pieces::with_capacity(alloc, bytes)?,
            spots: Vec::with_capacity(alloc, edits)?,
        })
    }

    /// How many edits there are.
    #[inline(always)]
    pub fn len(&self) -> usize
        ensures { result ≡ length self.now }
    {
        self.spots.len()
    }

    /// Appends an edit. An `Err` changes nothing.
    #[inline(always)]
    pub fn push(&mut self, edit: &PlaceEdit<'_>) -> Result<(), AllocError>
        ensures ok { OnOk result (self.new ≡ self.old ++ edit.now ∷ []) }
        ensures err { OnErr result (self.new ≡ self.old) }
    {
        put(&mut self.pieces, &mut self.spots, edit)
    }

    /// Puts an edit in place of the one there, whose bytes aren't given back. An `Err` changes nothing.
    #[inline(always)]
    pub fn set(&mut self, at: usize, edit: &PlaceEdit<'_>) -> Result<(), AllocError>
        requires { at < length self.old }
        ensures ok { OnOk result (self.new ≡ slice_set self.old at edit.now) }
        ensures err { OnErr result (self.new ≡ self.old) }
    {
        set(&mut self.pieces, self.spots.as_mut_slice(), at, edit)
    }

    /// Puts the edit from one place also at another, in place of the one there. Its bytes aren't copied.
    #[inline(always)]
    pub fn copy_to(&mut self, from: usize, to: usize)
        requires from { from < length self.old }
        requires to { to < length self.old }
        ensures { (edit : BodyEdit) → slice_get self.old from ≡ Some edit → self.new ≡ slice_set self.old to edit }
    {
        self.spots[to] = self.spots[from];
    }

    /// Takes out all edits but the first so many.
    pub fn truncate(&mut self, len: usize)
        ensures { self.new ≡ take len self.old }
    {
        self.spots.truncate(len);
    }

    /// The edits, lent.
    #[inline(always)]
    pub fn lend(&self) -> LentEdits<'_>
        ensures { result ≡ self.now }
    {
        LentEdits::of_parts(&self.pieces, self.spots.as_slice())
    }
}
