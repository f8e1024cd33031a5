//! The laws of stores, each the contract of a function that does nothing.

ghost use Rattle.cs_store.specs.Laws.{CommitCanBe, CommitsThenReads, CountsBodies, CountsLog, FailsToCommit, KeepsOtherNames, KeepsOtherPending, KeepsOtherRows, ListsTwoRows, NamesApart, OneCommit, OneListing, OneRefusal, OnlyMemory, ReadsAlike, ReadsEdits, ReadsThenCommits, ReadsThenReads, WritesLog, WritesMeta, WritesPending, WritesRows};
ghost use Rattle.cs_store.specs.StateLaws.{EditsLeadToState, HoldsOneState};
ghost use Rattle.cs_store.specs.WholeLaws.{BodiesInOrder, DecodesOn, LogDecodes, OnePresent, PresentAreTables, RefusedOn};

use crate::RowStore;
use crate::log::laws::one_body;
use cs_widening::laws::widened_are_tables;

/// A table has one listing. A table of two rows shows that there are such.
pub fn listings()
    ensures one { OneListing }
    ensures two_rows { ListsTwoRows }
{}

/// Commits of one batch to one store leave one store where they succeed, and a stop then leaves one; so do those that are
/// refused.
pub fn one_commit<S: RowStore>(_store: &S)
    ensures taken { OneCommit S.RowStore }
    ensures refused { OneRefusal S.RowStore }
{}

/// Calls that follow one another, the first answering a `T` and the second a `U`, where the first succeeds. Reads are reads
/// together. A read and a commit are that commit, and so are a commit and reads that succeed. All of this holds also of
/// what a stop may leave. A read that fails changes as little as a commit that fails.
pub fn calls<S: RowStore, T, U>(_store: &S)
    ensures reads { ReadsThenReads S.RowStore T U }
    ensures commits { ReadsThenCommits S.RowStore T U }
    ensures read_again { CommitsThenReads S.RowStore T U }
    ensures fails { FailsToCommit S.RowStore T U }
    ensures alike { ReadsAlike S.RowStore T U }
{}

/// What a commit leaves at each place of the tables and of the pending changes, at each name and at each version. What it
/// doesn't name stays. A store that does just that shows that there are such commits.
pub fn commits()
    ensures rows { WritesRows }
    ensures pending { WritesPending }
    ensures meta { WritesMeta }
    ensures log { WritesLog }
    ensures count { CountsLog }
    ensures other_rows { KeepsOtherRows }
    ensures other_pending { KeepsOtherPending }
    ensures other_names { KeepsOtherNames }
    ensures edits { ReadsEdits }
    ensures bodies { CountsBodies }
    ensures can_be { CommitCanBe }
{}

/// A store holds one state of the tables at most. A commit of the edits of one state to another leaves a store that holds the
/// other.
pub fn states()
    ensures one { HoldsOneState }
    ensures edited { EditsLeadToState }
{}

/// The bodies of a log leave one catalog where they decode. They decode one after another, and those of a log's entries leave the
/// catalog of that log. Where no version below the count lacks its entry, the bodies are those of the entries in order.
pub fn decoding()
    ensures one { OnePresent }
    ensures tables { PresentAreTables }
    ensures on { DecodesOn }
    ensures refused { RefusedOn }
    ensures log { LogDecodes }
    ensures in_order { BodiesInOrder }
{
    one_body();
    widened_are_tables();
}

/// Where the count of failures stood still below its last value, a fault is `Memory`.
pub fn only_memory<T>(_answer: &T)
    ensures { OnlyMemory T }
{}

/// No two names have one text.
pub fn names_apart()
    ensures { NamesApart }
{}
