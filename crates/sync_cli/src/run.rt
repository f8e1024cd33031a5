//! One run of the program, over any reader and writer.

ghost use Rattle.std.specs.Prelude.{◌≡◌, ◌≢◌, [], List, ℕ, None, OnOk, Some, map, option_map};
ghost use Rattle.clap.specs.Words.{kind_of, subcommand_rows_of};
ghost use Rattle.cs_command.specs.CommandLine.{faults_of, file_words_of, files_in, table_words_of, tables_in, wanted_of};
ghost use Rattle.cs_command.specs.Wanted.{HasId, Wanted, wanted};
ghost use Rattle.cs_tools.specs.Endings.{Ends};
ghost use Rattle.cs_tools.specs.Files.{CombinesFiles, RefusesFiles};
ghost use Rattle.sync_cli.specs.Endings.{EndsHelping, EndsRefused, EndsUnasked, EndsUntaken};
ghost use Rattle.sync_cli.specs.OverFiles.{EndsAsked, EndsWanted};
ghost use Rattle.sync_cli.specs.Streams.{streams_of};

use crate::exchange::exchange_files;
use crate::fault::RunFault;
use crate::hub::serve_asked;
use crate::node::{follow_file, work_file};
use crate::opener::Opener;
use crate::world::play_script;
use clap::error::ErrorKind;
use clap::{ArgMatches, Error};
use cs_command::{Asked, asked_of, catalog_of, files_of, parse};
use cs_lines::{LineInput, LineOutput, write_text};
use cs_store::RowStore;
use cs_tools::{Form, InputFiles, ToolFault, combine_files, run_tool, show_file};
use std::alloc::Global;
use std::convert::AsStr;

/// Runs `sync` on its words, of which the first is the program's name. Stores in files and readers of files come from the opener.
/// Where all was done, also where help was asked for, what was written is sent.
pub fn run<'w, S: AsStr, O: Opener + InputFiles, R: LineInput, W: LineOutput>(
    alloc: Global,
    opener: &mut O,
    words: &'w [S],
    reader: &mut R,
    writer: &mut W,
) -> Result<(), RunFault<'w>>
    // Where all was done, nothing that was written is held back.
    ensures sent { OnOk result (W.sent writer.old → W.sent writer.new) }

    // Words that the command line doesn't take, among them those that ask for help.
    ensures untaken { faults_of (map S.text words.entry.now) ≢ []
        → EndsUntaken (faults_of (map S.text words.entry.now)) (streams_of R.LineInput W.LineOutput reader.old reader.new writer.old writer.new) result }

    // What the words ask for was done, or why not. A hub answered the lines, a world ran the script, or a replica was worked by
    // the lines. Or a tool wrote what it owes for lines or files.
    ensures asked { (asked : Wanted) → faults_of (map S.text words.entry.now) ≡ []
        → wanted_of (map S.text words.entry.now) ≡ Some asked
        → EndsAsked O.Store.RowStore O.Opener O.Input.PieceInput O.InputFiles opener.new
        asked (table_words_of (map S.text words.entry.now)) (file_words_of (map S.text words.entry.now)) (streams_of R.LineInput W.LineOutput reader.old reader.new writer.old writer.new) result }

    // Words that the command line takes and that ask for nothing.
    ensures unasked { faults_of (map S.text words.entry.now) ≡ [] → wanted_of (map S.text words.entry.now) ≡ None
        → EndsUnasked (streams_of R.LineInput W.LineOutput reader.old reader.new writer.old writer.new) result }
{
    let matches = match parse(alloc, words) {
        Ok(matches) => matches,
        Err(error) => return end_untaken(alloc, &error, writer),
    };
    match asked_of(&matches) {
        Some(asked) => run_asked(alloc, opener, &asked, &matches, reader, writer),
        None => Err(RunFault::CommandLine),
    }
}

// Does what the words ask for.
fn run_asked<'w, O: Opener + InputFiles, R: LineInput, W: LineOutput>(
    alloc: Global,
    opener: &mut O,
    asked: &Asked<'_>,
    matches: &ArgMatches<'w>,
    reader: &mut R,
    writer: &mut W,
) -> Result<(), RunFault<'w>>
    requires id { HasId asked.now }
    ensures ends { EndsWanted O.Store.RowStore O.Opener O.Input.PieceInput O.InputFiles opener.new
        (wanted asked.now) (tables_in (subcommand_rows_of matches.now)) (files_in (subcommand_rows_of matches.now)) (streams_of R.LineInput W.LineOutput reader.old reader.new writer.old writer.new) result }
    ensures sent { OnOk result (W.sent writer.old → W.sent writer.new) }
{
    if let Asked::Tool(tool) = asked {
        return Ok(run_tool(alloc, *tool, reader, writer)?);
    }
    if let Asked::ShowFile { shown, file } = asked {
        return Ok(show_file(alloc, *shown, opener, file, writer)?);
    }
    if let Asked::CombineFiles(form) = asked {
        return Ok(combine_named(alloc, *form, opener, matches, writer)?);
    }
    let catalog = catalog_of(alloc, matches)?;
    match asked {
        Asked::Hub { file } => serve_asked(alloc, opener, *file, &catalog, reader, writer),
        Asked::World { count } => play_script(alloc, *count, &catalog, reader, writer),
        Asked::Node { file, id } => work_file(alloc, opener, file, *id, &catalog, reader, writer),
        Asked::Follow { file, id } => {
            follow_file(alloc, opener, file, *id, &catalog, reader, writer)
        }
        Asked::Exchange {
            hub,
            file,
            id,
            wish,
        } => exchange_files(alloc, opener, hub, file, *id, *wish, &catalog, writer),
        Asked::Tool(_) | Asked::ShowFile { .. } | Asked::CombineFiles(_) => {
            Err(RunFault::CommandLine)
        }
    }
}

// Takes the changesets of the files that the words name together as one.
fn combine_named<F: InputFiles, W: LineOutput>(
    alloc: Global,
    form: Form,
    files: &mut F,
    matches: &ArgMatches<'_>,
    writer: &mut W,
) -> Result<(), ToolFault>
    ensures ends { Ends (CombinesFiles F.Input.PieceInput F.InputFiles files.new
        form (files_in (subcommand_rows_of matches.now)))
        (RefusesFiles F.Input.PieceInput F.InputFiles files.new
        form (files_in (subcommand_rows_of matches.now)))
        (W.failed writer.new) (W.contents writer.old) (W.contents writer.new) result }
    ensures sent { OnOk result (W.sent writer.new) }
{
    match files_of(matches) {
        Some(paths) => combine_files(alloc, form, files, paths, writer),
        None => combine_files(alloc, form, files, &[], writer),
    }
}

// Help goes to the output; any other refusal is told.
fn end_untaken<'w, W: LineOutput>(
    alloc: Global,
    error: &Error,
    writer: &mut W,
) -> Result<(), RunFault<'w>>
    ensures ends { EndsRefused (kind_of error.now) (W.failed writer.new) (W.contents writer.old) (W.contents writer.new) result }
    ensures sent { OnOk result (W.sent writer.new) }
{
    match error.kind() {
        ErrorKind::OutOfMemory => Err(RunFault::Memory),
        ErrorKind::DisplayHelp => show_help(alloc, error, writer),
        _ => Err(RunFault::CommandLine),
    }
}

fn show_help<'w, W: LineOutput>(
    alloc: Global,
    error: &Error,
    writer: &mut W,
) -> Result<(), RunFault<'w>>
    ensures ends { EndsHelping (W.failed writer.new) (W.contents writer.old) (W.contents writer.new) result }
    ensures sent { OnOk result (W.sent writer.new) }
{
    let help = format!(in alloc; "{error}")?;
    match write_text(writer, help.as_str()) {
        Ok(()) => Ok(()),
        Err(_) => Err(RunFault::Write),
    }
}
