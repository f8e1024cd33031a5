//! Wishes in a list, as the one who answers clashes. There is one a clash in their order, `Take` where they have run out, and each is
//! made lawful. So whoever hands on a list, as of a script, needs no closure. It stands on `cs_conflict`. That each clash has one answer
//! by them, and a lawful one, is a law of `cs_world`; its tests are those of `cs_world_tests`.

mod wishes;

pub use wishes::Wishes;
