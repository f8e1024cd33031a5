//! Pickers that see the clash at which a wish stops.

ghost use Rattle.std.specs.Prelude.{◌≡◌, Some};
ghost use Rattle.cs_node_lines.specs.declared.following.note.Note.TheVariants.{Nothing};
ghost use Rattle.cs_node_lines.specs.following.Steps.{IsNote};
ghost use Rattle.cs_node_lines.specs.told.Clash.{clash_text};

use crate::following::note::Note;
use crate::told::ClashText;
use cs_conflict::wish_list::Wishes;
use cs_conflict::{Clash, Picker, Wish};
use cs_value::Catalog;
use std::alloc::Global;
use std::marker::Model;

/// Wishes, used one a clash as `Wishes` does, which notes the clash at which one stops. Contracts see it as the tables, the
/// wishes that are left, and the note.
#[derive(Drop)]
pub(crate) struct Noting<'w> {
    alloc: Global,
    catalog: &'w Catalog,
    wishes: Wishes<'w>,
    note: Note,
}

impl<'w> Model for Noting<'w> {
    ghost use Rattle.cs_node_lines.specs.following.Steps.{Noted};

    ghost Value = { Noted };

    ghost view = { λ here. record { tables = here.catalog.now; wishes = here.wishes; note = here.note } };
}

/// The note of a clash.
fn noted(alloc: Global, catalog: &Catalog, clash: &Clash<'_>) -> Note
    ensures { IsNote result (Some (clash_text catalog.now clash.now)) }
{
    match format!(in alloc; "{}", ClashText { catalog, clash }) {
        Ok(text) => Note::Text(text),
        Err(_) => Note::Lacking,
    }
}

impl<'w> Noting<'w> {
    /// The picker that wishes so, and has noted nothing.
    pub(crate) fn new(alloc: Global, catalog: &'w Catalog, wishes: &'w [Wish]) -> Noting<'w>
        ensures { result ≡ record { tables = catalog.now; wishes = wishes.now; note = Nothing } }
    {
        Noting {
            alloc,
            catalog,
            wishes: Wishes::new(wishes),
            note: Note::Nothing,
        }
    }

    /// What it noted.
    pub(crate) fn into_note(self) -> Note
        ensures { result ≡ self.entry.note }
    {
        self.note
    }
}

impl<'w> Picker for Noting<'w> {
    ghost use Rattle.cs_node_lines.specs.following.Steps.{IsNoted};

    ghost is_ready = { λ _. Unit {0} };

    ghost picks = { IsNoted };

    fn pick(&mut self, clash: &Clash<'_>) -> Wish {
        let wish = self.wishes.pick(clash);
        if let Wish::Stop = wish {
            self.note = noted(self.alloc, self.catalog, clash);
        }
        wish
    }
}

/// Wishes that have run out, so that none stops. It carries the law of pickers to the definition of what is seen.
#[derive(Drop)]
pub(crate) struct Unwished<'w> {
    wishes: Wishes<'w>,
}

impl<'w> Model for Unwished<'w> {
    ghost use Rattle.std.specs.Prelude.{◌≡◌, [], None};
    ghost use Rattle.cs_node_lines.specs.following.Seen.{Seeing};

    ghost Value = { Seeing };

    ghost view = { λ here. record { wishes = here.wishes; seen = None } };

    ghost invariant = { λ here. here.wishes ≡ [] };
}

impl<'w> Picker for Unwished<'w> {
    ghost use Rattle.cs_node_lines.specs.following.Seen.{IsSeen};

    ghost is_ready = { λ _. Unit {0} };

    ghost picks = { IsSeen };

    fn pick(&mut self, clash: &Clash<'_>) -> Wish {
        self.wishes.pick(clash)
    }
}
