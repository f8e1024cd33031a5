//! The laws of this crate, each the contract of a function that does nothing.

ghost use Rattle.cs_tasks.specs.Laws as law;

/// The blob of a changeset as it is read is one that the reader of blobs takes.
pub fn blob_fits()
    ensures { law.BlobFits }
{}

/// The blob of a group and of the groups behind it is what the group has of its answers, and then the blob of those.
pub fn blob_by_groups()
    ensures { law.BlobByGroups }
{}

/// A group of which no conflict was answered has no bytes in the blob, and a change without a conflict adds none.
pub fn unanswered_adds_nothing()
    ensures group { law.UnansweredGroup }
    ensures change { law.UnansweredChange }
{}
