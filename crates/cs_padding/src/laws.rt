//! The laws of stores whose tables get more columns, each the contract of a function that does nothing.

ghost use Rattle.cs_padding.specs.Laws.{OnePendingEdits, OneRowEdits, ShowsWidens, SoundWidens, WideStoreCanBe};

/// One list of edits makes a state of the tables, and one makes what is pending.
pub fn one_edits()
    ensures rows { OneRowEdits }
    ensures pending { OnePendingEdits }
{
    cs_store::laws::listings();
}

/// What is pending stays sound where a table gets more columns, and the rows before it have them too.
pub fn sound_widens()
    ensures { SoundWidens }
{
    cs_normal::laws::one_key_stands();
    cs_widening::laws::net_widens();
    cs_widening::laws::widened_fits();
    cs_widening::laws::widened_is_state();
}

/// A commit of the edits leaves a store that shows what it showed, with the new columns.
pub fn shows_widens()
    ensures { ShowsWidens }
{
    sound_widens();
    cs_store::laws::commits();
    cs_store::laws::states();
    cs_widening::laws::widened_is_state();
}

/// There is a store that shows with the new columns what a store shows.
pub fn wide_store_can_be()
    ensures { WideStoreCanBe }
{
    sound_widens();
    cs_pending::laws::one_view();
    cs_widening::laws::widened_is_state();
}
