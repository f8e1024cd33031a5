//! The laws of the C functions, the contract of a function that does nothing.

ghost use Rattle.cs_ffi.specs.Laws.{AnswerLaws};

use cs_blob::laws::blobs;
use cs_changeset::laws::changesets;
use cs_column_bytes::laws::one_order_or_two;
use cs_group::laws::{no_fault_where_combined, one_combine_fault, one_combined};
use cs_normalising::laws::{no_fault_where_fit, one_normal_form, one_unfit};
use cs_rebaser::laws::no_wrong_shape;

/// Unless one of them tells want of memory, two answers of a C function to one input are equal. So is then what stands
/// in the caller's memory after them.
pub fn answers()
    ensures { AnswerLaws }
{
    changesets();
    no_fault_where_fit();
    one_unfit();
    one_normal_form();
    one_combined();
    no_fault_where_combined();
    one_combine_fault();
    blobs();
    no_wrong_shape();
    one_order_or_two();
}
