//! The laws of the program, and what some command lines ask for, by computation: each is the contract of a function
//! that does nothing.

ghost use Rattle.cs_command.specs.Laws.{AsksForAFile, AsksForAHub, AsksForANode, AsksForAWorld, AsksForHelp, AsksForNothing, AsksForTwoWishes, AsksToCombine, AsksToCombineFiles, AsksToCombineForSqlite, AsksToExchange, AsksToFollow, AsksToRebase, AsksToRebaseForSqlite, AsksToShow, AsksToShowABlobFile, AsksToShowAFile, AsksToShowBlob, IsNotTaken, NoCatalogRefused, OneCatalog, OneRefusedWord};

/// Table words are one catalog.
pub fn one_catalog()
    ensures { OneCatalog }
{}

/// Table words that are no catalog have one first word that is refused.
pub fn one_refused_word()
    ensures { OneRefusedWord }
{}

/// No word of a catalog is refused.
pub fn no_catalog_refused()
    ensures { NoCatalogRefused }
{}

/// `sync hub t1:10` is taken and asks for a hub of that table word.
pub fn asks_for_a_hub()
    ensures { AsksForAHub }
{}

/// `sync hub --file f t1:10` is taken and asks for that hub over the file `f`.
pub fn asks_for_a_file()
    ensures { AsksForAFile }
{}

/// `sync world 2 t1:10` is taken and asks for a world of two replicas.
pub fn asks_for_a_world()
    ensures { AsksForAWorld }
{}

/// `sync node f 7 t1:10` is taken and asks for the replica 7 over the file `f`.
pub fn asks_for_a_node()
    ensures { AsksForANode }
{}

/// `sync node --follow f 7 t1:10` is taken and asks for that replica, which answers each line as it comes.
pub fn asks_to_follow()
    ensures { AsksToFollow }
{}

/// `sync exchange --keep h f 7 t1:10` is taken and asks for the hub over the file `h` and the replica 7 over the file `f` to
/// meet, where own changes are kept.
pub fn asks_to_exchange()
    ensures { AsksToExchange }
{}

/// `sync exchange --keep --take h f 7` is taken and asks for nothing.
pub fn asks_for_two_wishes()
    ensures { AsksForTwoWishes }
{}

/// `sync combine` is taken and asks to combine.
pub fn asks_to_combine()
    ensures { AsksToCombine }
{}

/// `sync combine --sqlite` is taken and asks to combine with the column bytes that came in.
pub fn asks_to_combine_for_sqlite()
    ensures { AsksToCombineForSqlite }
{}

/// `sync combine --file f --file g` is taken and asks to combine the files `f` and `g`.
pub fn asks_to_combine_files()
    ensures { AsksToCombineFiles }
{}

/// `sync rebase` is taken and asks to rebase.
pub fn asks_to_rebase()
    ensures { AsksToRebase }
{}

/// `sync rebase --sqlite` is taken and asks to rebase with the column bytes that came in.
pub fn asks_to_rebase_for_sqlite()
    ensures { AsksToRebaseForSqlite }
{}

/// `sync show changeset` is taken and asks to show a changeset.
pub fn asks_to_show()
    ensures { AsksToShow }
{}

/// `sync show blob` is taken and asks to show a rebase blob.
pub fn asks_to_show_blob()
    ensures { AsksToShowBlob }
{}

/// `sync show changeset --file f` is taken and asks to show the file `f` as a changeset.
pub fn asks_to_show_a_file()
    ensures { AsksToShowAFile }
{}

/// `sync show blob --file f` is taken and asks to show the file `f` as a rebase blob.
pub fn asks_to_show_a_blob_file()
    ensures { AsksToShowABlobFile }
{}

/// `sync show nothing` is taken and asks for nothing.
pub fn asks_for_nothing()
    ensures { AsksForNothing }
{}

/// `sync --help` asks for help.
pub fn asks_for_help()
    ensures { AsksForHelp }
{}

/// `sync hub --flag` is refused.
pub fn is_not_taken()
    ensures { IsNotTaken }
{}
