//! What a command line asks for.

ghost use Rattle.std.specs.Prelude.{◌≡◌, [], ◌<◌, ◌-◌, ◌^◌, IfSome, MatchOption, map, option_map};
ghost use Rattle.clap.specs.Words.{found_of, rows_of, subcommand_rows_of};
ghost use Rattle.cs_command.specs.CommandLine.{exchange_wanted, form_of, files_in, id_among, id_at, is_given, node_wanted, number_at, over_file, shown_tool, tool_by, wanted_by, wanted_in, wish_in};
ghost use Rattle.cs_command.specs.Wanted.{HasId, wanted};

use crate::number::number_in;
use clap::ArgMatches;
use cs_conflict::Wish;
use cs_tools::{Form, Shown, Tool};

/// What a command line asks for, beside its table words and lists of files.
#[derive(Clone, Copy, Debug)]
pub enum Asked<'a> {
    /// A hub.
    Hub {
        /// The file that its rows and its log are in; none, where they are in memory.
        file: Option<&'a str>,
    },
    /// A world in memory.
    World {
        /// How many replicas there are.
        count: u32,
    },
    /// A replica over a file.
    Node {
        /// The file.
        file: &'a str,
        /// The replica's id.
        id: u32,
    },
    /// The same, which answers each line as it comes.
    Follow {
        /// The file.
        file: &'a str,
        /// The replica's id.
        id: u32,
    },
    /// A hub and a replica, each over a file, that meet.
    Exchange {
        /// The hub's file.
        hub: &'a str,
        /// The replica's file.
        file: &'a str,
        /// The replica's id.
        id: u32,
        /// What is wished at each clash.
        wish: Wish,
    },
    /// A tool over the input.
    Tool(Tool),
    /// A file is shown.
    ShowFile {
        /// What it is shown as.
        shown: Shown,
        /// The file.
        file: &'a str,
    },
    /// The changesets of files are taken together as one, in this form.
    CombineFiles(Form),
}

/// The number that the word with this id spells.
fn number_of(found: &ArgMatches<'_>, id: &str) -> Option<u32>
    ensures { result ≡ number_at id.now (rows_of (found_of found.now)) }
{
    number_in(found.get_str(id)?)
}

/// The id of a replica, which the largest number of 32 bits isn't.
fn id_among(number: u32) -> Option<u32>
    ensures found { result ≡ id_among number }
    ensures small { IfSome result (λ id. id < 2 ^ 32 - 1) }
{
    if number < u32::MAX {
        Some(number)
    } else {
        None
    }
}

/// The id that the words of `node` name.
fn id_of(found: &ArgMatches<'_>) -> Option<u32>
    ensures found { result ≡ id_at (rows_of (found_of found.now)) }
    ensures small { IfSome result (λ id. id < 2 ^ 32 - 1) }
{
    let number = number_of(found, "ID")?;
    id_among(number)
}

/// Whether the flag with this id is given.
fn is_given(found: &ArgMatches<'_>, id: &str) -> bool
    ensures { result ≡ is_given id.now (rows_of (found_of found.now)) }
{
    found.get_one(id).unwrap_or(false)
}

/// The replica that the words of `node` ask for.
fn node_asked<'a>(found: &ArgMatches<'a>) -> Option<Asked<'a>>
    ensures asked { option_map wanted result ≡ node_wanted (rows_of (found_of found.now)) }
    ensures id { IfSome result HasId }
{
    let file = found.get_str("FILE")?;
    let id = id_of(found)?;
    if is_given(found, "follow") {
        Some(Asked::Follow { file, id })
    } else {
        Some(Asked::Node { file, id })
    }
}

/// What the flags of `exchange` wish at each clash.
fn wish_of(found: &ArgMatches<'_>) -> Option<Wish>
    ensures { result ≡ wish_in (rows_of (found_of found.now)) }
{
    match (
        is_given(found, "keep"),
        is_given(found, "take"),
        is_given(found, "stop"),
    ) {
        (true, false, false) => Some(Wish::Keep),
        (false, true, false) => Some(Wish::Take),
        (false, false, _) => Some(Wish::Stop),
        _ => None,
    }
}

/// The meeting that the words of `exchange` ask for.
fn exchange_asked<'a>(found: &ArgMatches<'a>) -> Option<Asked<'a>>
    ensures asked { option_map wanted result ≡ exchange_wanted (rows_of (found_of found.now)) }
    ensures id { IfSome result HasId }
{
    let wish = wish_of(found)?;
    let hub = found.get_str("HUB")?;
    let file = found.get_str("FILE")?;
    let id = id_of(found)?;
    Some(Asked::Exchange {
        hub,
        file,
        id,
        wish,
    })
}

/// The tool that the words of `show` ask for.
fn shown_tool(show: &ArgMatches<'_>) -> Option<Tool>
    ensures { result ≡ shown_tool (rows_of (found_of show.now)) }
{
    match show.get_str("WHAT") {
        Some(what) => {
            if what == "changeset" {
                Some(Tool::ShowChangeset)
            } else if what == "blob" {
                Some(Tool::ShowBlob)
            } else {
                None
            }
        }
        None => None,
    }
}

/// The form that the words of `combine` or `rebase` ask for.
fn form_of(found: &ArgMatches<'_>) -> Form
    ensures { result ≡ form_of (rows_of (found_of found.now)) }
{
    if is_given(found, "sqlite") {
        Form::Sqlite
    } else {
        Form::Normal
    }
}

/// The tool that a subcommand and its words ask for.
fn tool_asked(name: &str, found: &ArgMatches<'_>) -> Option<Tool>
    ensures { result ≡ tool_by name.now (rows_of (found_of found.now)) }
{
    if name == "combine" {
        Some(Tool::Combine(form_of(found)))
    } else if name == "rebase" {
        Some(Tool::Rebase(form_of(found)))
    } else if name == "show" {
        shown_tool(found)
    } else {
        None
    }
}

/// A tool, over the input, or over files where one is named.
fn over_file<'a>(tool: Tool, file: Option<&'a str>) -> Option<Asked<'a>>
    ensures id { IfSome result HasId }
    ensures asked { option_map wanted result ≡ over_file (option_map (λ word. word.now) file.entry) tool }
{
    let Some(file) = file else {
        return Some(Asked::Tool(tool));
    };
    match tool {
        Tool::Combine(form) => Some(Asked::CombineFiles(form)),
        Tool::Rebase(_) => None,
        Tool::ShowChangeset => Some(Asked::ShowFile {
            shown: Shown::Changeset,
            file,
        }),
        Tool::ShowBlob => Some(Asked::ShowFile {
            shown: Shown::Blob,
            file,
        }),
    }
}

/// What a subcommand and its words ask for.
fn asked_by<'a>(name: &str, found: &ArgMatches<'a>) -> Option<Asked<'a>>
    ensures id { IfSome result HasId }
    ensures asked { option_map wanted result ≡ wanted_by name.now (rows_of (found_of found.now)) }
{
    if name == "hub" {
        let file = found.get_str("FILE");
        Some(Asked::Hub { file })
    } else if name == "world" {
        let count = number_of(found, "N")?;
        Some(Asked::World { count })
    } else if name == "node" {
        node_asked(found)
    } else if name == "exchange" {
        exchange_asked(found)
    } else {
        let tool = tool_asked(name, found)?;
        over_file(tool, found.get_str("FILE"))
    }
}

/// What a command line asks for that the parser took.
pub fn asked_of<'a>(matches: &ArgMatches<'a>) -> Option<Asked<'a>>
    // A replica that is asked for has an id that replicas have.
    ensures id { IfSome result HasId }

    ensures asked { option_map wanted result ≡ wanted_in (subcommand_rows_of matches.now) }
{
    match matches.subcommand() {
        Some((name, found)) => asked_by(name, found),
        None => None,
    }
}

/// The files that a command line names that the parser took, in their order; none where it names none.
pub fn files_of<'m, 'a>(matches: &'m ArgMatches<'a>) -> Option<&'m [&'a str]>
    ensures { MatchOption result ([] ≡ files_in (subcommand_rows_of matches.now))
        (λ files. map (λ word. word.now) files.now ≡ files_in (subcommand_rows_of matches.now)) }
{
    match matches.subcommand() {
        Some((_, found)) => found.get_strs("FILE"),
        None => None,
    }
}
