//! Edits that are lent.

ghost use Rattle.std.specs.Prelude.{◌≡◌};
ghost use Rattle.std.specs.List.{All};
ghost use Rattle.cs_store.specs.edits.Spots.{IsEditSpotIn, edit_in, edits_in};

use crate::edits::pieces::Pieces;
use crate::edits::place_edit::PlaceEdit;
use std::marker::Model;

/// Where an edit stands in a piece: its key up to `body`, and behind it the body, if one is set.
#[derive(Clone, Copy, Debug)]
pub(crate) struct EditSpot {
    pub table: u32,
    pub piece: u32,
    pub key: usize,
    pub body: usize,
    /// One more than where the body ends, or 0 for none.
    pub past: usize,
}

/// Edits that follow one another, lent.
#[derive(Drop)]
pub struct LentEdits<'a> {
    pieces: &'a Pieces,
    spots: &'a [EditSpot],
}

impl<'a> Model for LentEdits<'a> {
    ghost use Rattle.std.specs.Prelude.{List};
    ghost use Rattle.std.specs.List.{All};
    ghost use Rattle.cs_store.specs.edits.Edits.{BodyEdit};
    ghost use Rattle.cs_store.specs.edits.Spots.{IsEditSpotIn, edits_in};

    ghost Value = { List BodyEdit };

    ghost view = { λ edits. edits_in edits.pieces.now edits.spots.now };

    ghost invariant = { λ edits. All (IsEditSpotIn edits.pieces.now) edits.spots.now };
}

/// The edit at a spot.
#[inline(always)]
fn edit_at<'a>(pieces: &'a Pieces, spot: &EditSpot) -> PlaceEdit<'a>
    requires { IsEditSpotIn pieces.now spot.now }
    ensures { result ≡ edit_in pieces.now spot.now }
{
    let bytes = pieces.get(spot.piece);
    let key = &bytes[spot.key..spot.body];
    if spot.past == 0 {
        PlaceEdit::new(spot.table, key, None)
    } else {
        PlaceEdit::new(spot.table, key, Some(&bytes[spot.body..spot.past - 1]))
    }
}

impl<'a> LentEdits<'a> {
    ghost use Rattle.std.specs.Prelude.{◌≡◌, ◌<◌, ◌≤◌, ◌∷◌, [], length, slice_get, slice_range, MatchOption, Some};
    ghost use Rattle.std.specs.List.{All};
    ghost use Rattle.cs_store.specs.edits.Spots.{IsEditSpotIn, edits_in};

    /// The edits at these spots of these pieces.
    #[inline(always)]
    pub(crate) fn of_parts(pieces: &'a Pieces, spots: &'a [EditSpot]) -> LentEdits<'a>
        requires { All (IsEditSpotIn pieces.now) spots.now }
        ensures { result ≡ edits_in pieces.now spots.now }
    {
        LentEdits { pieces, spots }
    }

    /// How many edits there are.
    #[inline(always)]
    pub fn len(&self) -> usize
        ensures { result ≡ length self.now }
    {
        self.spots.len()
    }

    /// The edit there.
    #[inline(always)]
    pub fn get(&self, at: usize) -> PlaceEdit<'a>
        requires { at < length self.now }
        ensures { slice_get self.now at ≡ Some result }
    {
        edit_at(self.pieces, &self.spots[at])
    }

    /// The edits from one place up to another.
    #[inline(always)]
    pub fn part(&self, from: usize, to: usize) -> LentEdits<'a>
        requires { (from ≤ to) × (to ≤ length self.now) }
        ensures { result ≡ slice_range self.now from to }
    {
        LentEdits::of_parts(self.pieces, &self.spots[from..to])
    }

    /// The first edit, and those behind it; `None` where there is none.
    #[inline(always)]
    pub fn split_first(&self) -> Option<(PlaceEdit<'a>, LentEdits<'a>)>
        ensures { MatchOption result (self.now ≡ []) (λ split. self.now ≡ split.0 ∷ split.1) }
    {
        let Some((spot, rest)) = self.spots.split_first() else {
            return None;
        };
        Some((
            edit_at(self.pieces, spot),
            LentEdits::of_parts(self.pieces, rest),
        ))
    }
}
