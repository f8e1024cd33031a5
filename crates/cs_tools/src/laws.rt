//! The laws of the tools, each the contract of a function that does nothing.

ghost use Rattle.cs_tools.specs.Files.{OneCombinedFault, OneCombinedOfFiles, OneShownFile, OneShownFileFault};
ghost use Rattle.cs_tools.specs.Laws.{CombinedStaysTheSame, NoFaultWhereOwed, NothingCombinedOfTwoOrders, NothingRebasedOfTwoOrders, OneCombinedText, OneFault, OneRebasedText, OneShownBlob, OneShownChangeset, RebasedStaysTheSame, TextOrFault};

use crate::input_files::InputFiles;

/// An input has one text that `combine` owes in each form.
pub fn one_combined_text()
    ensures { OneCombinedText }
{
    cs_changeset::laws::changesets();
    cs_group::laws::one_combined();
}

/// It has one text that `rebase` owes in each form, and one rest that it leaves.
pub fn one_rebased_text()
    ensures { OneRebasedText }
{
    cs_blob::laws::blobs();
    cs_changeset::laws::changesets();
    cs_group::laws::one_combined();
}

/// `combine --sqlite` owes no text where headers of one table have its key's columns in two orders.
pub fn nothing_combined_of_two_orders()
    ensures { NothingCombinedOfTwoOrders }
{
    cs_changeset::laws::changesets();
    cs_column_bytes::laws::one_order_or_two();
}

/// Nor does `rebase --sqlite`.
pub fn nothing_rebased_of_two_orders()
    ensures { NothingRebasedOfTwoOrders }
{
    cs_blob::laws::blobs();
    cs_changeset::laws::changesets();
    cs_column_bytes::laws::one_order_or_two();
}

/// Changesets taken together are the same in either form but for the column bytes, and the reader takes them.
pub fn combined_stays_the_same()
    ensures { CombinedStaysTheSame }
{
    cs_column_bytes::laws::heads_of_catalog();
    cs_column_bytes::laws::stays_the_same();
}

/// So is a changeset rebased over a blob.
pub fn rebased_stays_the_same()
    ensures { RebasedStaysTheSame }
{
    cs_column_bytes::laws::heads_of_catalog();
    cs_rebaser::laws::rebased_is_normal();
    cs_column_bytes::laws::stays_the_same();
}

/// An input has one text that `show changeset` owes, and one rest that it leaves.
pub fn one_shown_changeset()
    ensures { OneShownChangeset }
{
    cs_changeset::laws::changesets();
}

/// It has one text that `show blob` owes, and one rest that it leaves.
pub fn one_shown_blob()
    ensures { OneShownBlob }
{
    cs_blob::laws::blobs();
}

/// Nor does it have two faults, but for want of memory and failed reads.
pub fn one_fault()
    ensures { OneFault }
{
    cs_blob::laws::blobs();
    cs_changeset::laws::changesets();
    cs_group::laws::no_fault_where_combined();
    cs_group::laws::one_combine_fault();
    cs_group::laws::one_combined();
    cs_rebaser::laws::no_wrong_shape();
    cs_column_bytes::laws::one_order_or_two();
}

/// Where a tool owes a text, the input has no fault.
pub fn no_fault_where_owed()
    ensures { NoFaultWhereOwed }
{
    cs_blob::laws::blobs();
    cs_changeset::laws::changesets();
    cs_group::laws::no_fault_where_combined();
    cs_group::laws::one_combine_fault();
    cs_group::laws::one_combined();
    cs_rebaser::laws::no_wrong_shape();
    cs_column_bytes::laws::one_order_or_two();
}

/// An input owes a text, or has a fault that is neither want of memory nor a failed read.
pub fn text_or_fault()
    ensures { TextOrFault }
{
    cs_blob::laws::blobs();
    cs_changeset::laws::changesets();
    cs_column_bytes::laws::some_order();
    cs_group::laws::combined_or_fault();
    cs_lines::laws::lines_taken();
    cs_rebaser::laws::each_once_or_not();
    cs_rebaser::laws::shapes_or_wrong();
}

/// A file whose readers have its bytes has one text that `show` owes, or one fault; and so have such files for `combine`.
pub fn one_answer_of_files<F: InputFiles>()
    ensures shown { OneShownFile F.Input.PieceInput F.InputFiles }
    ensures fault { OneShownFileFault F.Input.PieceInput F.InputFiles }
    ensures combined { OneCombinedOfFiles F.Input.PieceInput F.InputFiles }
    ensures combine_fault { OneCombinedFault F.Input.PieceInput F.InputFiles }
{
    cs_blob::laws::blobs();
    cs_changeset::laws::changesets();
    cs_group::laws::no_fault_where_combined();
    cs_group::laws::one_combine_fault();
    cs_group::laws::one_combined();
    cs_rebaser::laws::no_wrong_shape();
    cs_column_bytes::laws::one_order_or_two();
}
