//! The laws of how a normal form is made, each the contract of a function that does nothing.

ghost use Rattle.cs_normalising.specs.Laws.{FitHasForm, FormAtKey, FormOrUnfit, HeadersHaveTables, NoFaultWhereFit, NormalAgain, NormalFormKeeps, NormalFormLeads, NormalIsItsForm, OneNormalForm, OneUnfit};

/// The normal form of a change is normal and means the same wherever the change is defined.
pub fn normal_form_keeps()
    ensures { NormalFormKeeps }
{}

/// Where each change of a changeset is defined on what the earlier ones left of a state, so is the normal form on that
/// state. It leaves the same.
pub fn normal_form_leads()
    ensures { NormalFormLeads }
{
    cs_normal::keyed::laws::bytes_tell_keys();
}

/// A changeset that fits a catalog has no fault.
pub fn no_fault_where_fit()
    ensures { NoFaultWhereFit }
{}

/// A changeset has one fault: the first group that is wrong, and what is wrong with it first.
pub fn one_unfit()
    ensures { OneUnfit }
{}

/// A changeset in range has a normal form by a catalog, or a fault that isn't want of memory.
pub fn form_or_unfit()
    ensures { FormOrUnfit }
{
    fit_has_form();
}

/// A changeset that fits a catalog has a normal form.
pub fn fit_has_form()
    ensures { FitHasForm }
{}

/// Where each name has one shape, each group is of one of the tables of all headers.
pub fn headers_have_tables()
    ensures { HeadersHaveTables }
{}

/// At each key of a normal form stands the normal form of the change that was read with it.
pub fn form_at_key()
    ensures { FormAtKey }
{}

/// A change in normal form is its own normal form.
pub fn normal_is_its_form()
    ensures { NormalIsItsForm }
{}

/// A changeset has one normal form by a catalog.
pub fn one_normal_form()
    ensures { OneNormalForm }
{
    cs_normal::laws::one_normal();
}

/// A changeset in normal form, read again as it is written, is its own normal form.
pub fn normal_again()
    ensures { NormalAgain }
{}
