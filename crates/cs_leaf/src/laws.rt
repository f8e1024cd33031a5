//! The laws of edits of lists of bodies, each the contract of a function that does nothing.

ghost use Rattle.cs_leaf.specs.Laws.{EditsAreOfMaps, EditsBeforeKeep, EditsBehindKeep, EditsKeepOrder};

/// Edits change no entries but those near their places: those behind some entries keep them, and so do those before some. They
/// keep entries in order, and make of the finite map that these are what edits of maps do.
pub fn edited_entries()
    ensures behind { EditsBehindKeep }
    ensures before { EditsBeforeKeep }
    ensures order { EditsKeepOrder }
    ensures maps { EditsAreOfMaps }
{}
