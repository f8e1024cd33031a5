//! The command line.

ghost use Rattle.std.specs.Prelude.{◌≡◌, IfOk, IfErr, codes, false, map};
ghost use Rattle.clap.specs.Words.{app_of, kind_of, rule_of, subcommand_of, subcommand_rows_of, FailsBy};
ghost use Rattle.cs_command.specs.CommandLine.{bare_exchange_app, bare_node_app, combine_app, count_rule, exchange_app, faults_of, file_rule, flag_rule, hub_app, hub_rule, id_rule, node_app, rebase_app, show_app, sync_app, syncing_app, table_rule, world_app};

use clap::builder::ValueParser;
use clap::error::ErrorKind;
use clap::{Arg, ArgAction, ArgMatches, Command, Error};
use std::alloc::{AllocError, Global};
use std::convert::AsStr;

fn table_words<'a>(alloc: Global) -> Arg<'a>
    ensures rule { rule_of result ≡ table_rule }
    ensures own { result.global ≡ false }
{
    Arg::new(alloc, "TABLE").action(ArgAction::Append).help(
        "A table as NAME:MARKS, a 1 for a key column and a 0 for another",
    )
}

fn hub_command<'a>(alloc: Global) -> Result<Command<'a>, AllocError>
    ensures { IfOk result (λ command. app_of command ≡ hub_app) }
{
    let file = Arg::new(alloc, "FILE").long("file").help(
        "The file of SQLite that keeps rows and log, which is made where there is none",
    );
    let tables = table_words(alloc);
    Command::new(alloc, "hub")
        .about("Answer requests, one a line in hex, as a hub of these tables")
        .override_usage("sync hub [--file FILE] [TABLE]...")
        .arg(file)?
        .arg(tables)
}

fn count_word<'a>(alloc: Global) -> Arg<'a>
    ensures rule { rule_of result ≡ count_rule }
    ensures own { result.global ≡ false }
{
    Arg::new(alloc, "N")
        .required(true)
        .value_parser(ValueParser::unsigned(0, u32::MAX as u64))
        .help("How many replicas there are")
}

fn world_command<'a>(alloc: Global) -> Result<Command<'a>, AllocError>
    ensures { IfOk result (λ command. app_of command ≡ world_app) }
{
    let count = count_word(alloc);
    let tables = table_words(alloc);
    Command::new(alloc, "world")
        .about("Run a script of a hub of these tables, its replicas and their messages")
        .override_usage("sync world <N> [TABLE]...")
        .arg(count)?
        .arg(tables)
}

fn file_word<'a>(alloc: Global) -> Arg<'a>
    ensures rule { rule_of result ≡ file_rule }
    ensures own { result.global ≡ false }
{
    Arg::new(alloc, "FILE").required(true).help(
        "The file of SQLite that keeps the replica, which is made where there is none",
    )
}

fn id_word<'a>(alloc: Global) -> Arg<'a>
    ensures rule { rule_of result ≡ id_rule }
    ensures own { result.global ≡ false }
{
    Arg::new(alloc, "ID")
        .required(true)
        .value_parser(ValueParser::unsigned(0, u32::MAX as u64 - 1))
        .help("The replica's id, which no other at its hub has")
}

/// The flag `--NAME`.
fn flag<'a>(alloc: Global, name: &'a str, help: &'a str) -> Arg<'a>
    ensures rule { rule_of result ≡ flag_rule name.entry.now }
    ensures own { result.global ≡ false }
{
    Arg::new(alloc, name)
        .long(name)
        .action(ArgAction::SetTrue)
        .help(help)
}

/// The subcommand before its words.
fn bare_node_command<'a>(alloc: Global) -> Result<Command<'a>, AllocError>
    ensures { IfOk result (λ command. app_of command ≡ bare_node_app) }
{
    let follow = flag(
        alloc,
        "follow",
        "Answer each line as it comes, with an empty line behind each answer",
    );
    Command::new(alloc, "node")
        .about("Edit, push and pull as a replica of these tables, one line a step")
        .override_usage("sync node [--follow] <FILE> <ID> [TABLE]...")
        .arg(follow)
}

fn node_command<'a>(alloc: Global) -> Result<Command<'a>, AllocError>
    ensures { IfOk result (λ command. app_of command ≡ node_app) }
{
    let command = bare_node_command(alloc)?;
    let file = file_word(alloc);
    let id = id_word(alloc);
    let tables = table_words(alloc);
    command.arg(file)?.arg(id)?.arg(tables)
}

/// The subcommand with its flags.
fn bare_exchange_command<'a>(alloc: Global) -> Result<Command<'a>, AllocError>
    ensures { IfOk result (λ command. app_of command ≡ bare_exchange_app) }
{
    let keep = flag(alloc, "keep", "Keep the own change at each clash");
    let take = flag(alloc, "take", "Take the other's change at each clash");
    let stop = flag(
        alloc,
        "stop",
        "Stop at a clash and show it, as without a flag",
    );
    Command::new(alloc, "exchange")
        .about("Have a hub and a replica, each in a file, exchange what they have")
        .override_usage("sync exchange [--keep | --take | --stop] <HUB> <FILE> <ID> [TABLE]...")
        .arg(keep)?
        .arg(take)?
        .arg(stop)
}

fn hub_word<'a>(alloc: Global) -> Arg<'a>
    ensures rule { rule_of result ≡ hub_rule }
    ensures own { result.global ≡ false }
{
    Arg::new(alloc, "HUB")
        .required(true)
        .help("The hub's file, which is made where there is none")
}

fn exchange_command<'a>(alloc: Global) -> Result<Command<'a>, AllocError>
    ensures { IfOk result (λ command. app_of command ≡ exchange_app) }
{
    let command = bare_exchange_command(alloc)?;
    let hub = hub_word(alloc);
    let file = file_word(alloc);
    let id = id_word(alloc);
    let tables = table_words(alloc);
    command.arg(hub)?.arg(file)?.arg(id)?.arg(tables)
}

fn show_command<'a>(alloc: Global) -> Result<Command<'a>, AllocError>
    ensures { IfOk result (λ command. app_of command ≡ show_app) }
{
    let what = Arg::new(alloc, "WHAT")
        .required(true)
        .help("What it is: changeset or blob");
    let file = Arg::new(alloc, "FILE")
        .long("file")
        .help("The file that holds it, as its bytes");
    Command::new(alloc, "show")
        .about(
            "Show the changeset or rebase blob that the first line spells in hex, or that a file holds",
        )
        .override_usage("sync show [--file FILE] <WHAT>")
        .arg(what)?
        .arg(file)
}

/// What `combine` and `rebase` may write.
fn sqlite_flag<'a>(alloc: Global) -> Arg<'a>
    ensures rule { rule_of result ≡ flag_rule (codes "sqlite") }
    ensures own { result.global ≡ false }
{
    flag(
        alloc,
        "sqlite",
        "Write the column bytes that came in, as SQLite applies them",
    )
}

fn combine_command<'a>(alloc: Global) -> Result<Command<'a>, AllocError>
    ensures { IfOk result (λ command. app_of command ≡ combine_app) }
{
    let sqlite = sqlite_flag(alloc);
    let files = Arg::new(alloc, "FILE")
        .long("file")
        .action(ArgAction::Append)
        .help("A file that holds a changeset, as its bytes");
    Command::new(alloc, "combine")
        .about(
            "Take the changesets that the lines spell in hex, or that files hold, together as one",
        )
        .override_usage("sync combine [--sqlite] [--file FILE]...")
        .arg(sqlite)?
        .arg(files)
}

fn rebase_command<'a>(alloc: Global) -> Result<Command<'a>, AllocError>
    ensures { IfOk result (λ command. app_of command ≡ rebase_app) }
{
    let sqlite = sqlite_flag(alloc);
    Command::new(alloc, "rebase")
        .about("Rebase the changeset of the first line over the rebase blob of the second, in hex")
        .override_usage("sync rebase [--sqlite]")
        .arg(sqlite)
}

/// The commands that sync.
fn syncing_command<'a>(alloc: Global) -> Result<Command<'a>, AllocError>
    ensures { IfOk result (λ command. app_of command ≡ syncing_app) }
{
    let sync = Command::new(alloc, "sync")
        .about("Offline-first table sync: a hub, replicas, and tools for changesets")
        .override_usage("sync [COMMAND]");
    let hub = hub_command(alloc)?;
    let one = sync.subcommand(hub)?;
    let node = node_command(alloc)?;
    let two = one.subcommand(node)?;
    let exchange = exchange_command(alloc)?;
    let three = two.subcommand(exchange)?;
    let world = world_command(alloc)?;
    let four = three.subcommand(world)?;
    Ok(four)
}

/// All commands.
fn sync_command<'a>(alloc: Global) -> Result<Command<'a>, AllocError>
    ensures { IfOk result (λ command. app_of command ≡ sync_app) }
{
    let syncing = syncing_command(alloc)?;
    let show = show_command(alloc)?;
    let one = syncing.subcommand(show)?;
    let combine = combine_command(alloc)?;
    let two = one.subcommand(combine)?;
    let rebase = rebase_command(alloc)?;
    let three = two.subcommand(rebase)?;
    Ok(three)
}

/// What the words say, of which the first is the program's name.
pub fn parse<'a, S: AsStr>(alloc: Global, words: &'a [S]) -> Result<ArgMatches<'a>, Error>
    ensures found { IfOk result (λ matches.
        subcommand_rows_of matches ≡ subcommand_of sync_app (map S.text words.entry.now)) }
    ensures faults { FailsBy (faults_of (map S.text words.entry.now)) result }
{
    let command = sync_command(alloc)?;
    command.try_get_matches_from(words)
}
