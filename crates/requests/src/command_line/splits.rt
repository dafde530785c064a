ghost use Rattle.std.specs.Prelude.{◌≡◌, true, codes, map, option_map, unwrap_or, IfOk, []};
ghost use Rattle.clap.specs.Walk.{rows_of, all_of, first_of};
ghost use Rattle.clap.specs.Simple.{app_of, new_app, on_top, with_rule};
ghost use Rattle.clap.specs.Matches.{found_of};
ghost use Rattle.requests.specs.command_line.Parts.{parts_of, line_texts, are_of_a_run};
ghost use Rattle.requests.specs.command_line.Command.{run_app, options_app, bare, option_rule, flag_rule, operands_rule, says_set, line_in};
ghost use Rattle.requests.specs.command_line.Texts.{texts};

use crate::command_line::lines::Line;
use clap::{Arg, ArgAction, ArgMatches, Command};
use std::alloc::{AllocError, Global};

/// The texts of the words behind `run`, each under what it is.
pub fn split(alloc: Global, words: &[String]) -> Result<Line<'_>, AllocError>
    requires { are_of_a_run (parts_of (texts words.now)) ≡ true }
    ensures { IfOk result (λ line. line ≡ line_texts (parts_of (texts words.now))) }
{
    let command = run_command(alloc)?;
    match command.try_get_matches_from(words) {
        Ok(matches) => line(alloc, &matches),
        Err(_) => Err(AllocError),
    }
}

// The command that takes the words behind `run`.
fn run_command<'a>(alloc: Global) -> Result<Command<'a>, AllocError>
    ensures { IfOk result (λ c. app_of c ≡ run_app) }
{
    let command = options_command(alloc)?;
    let command = with_flag(alloc, command, "--colours", "colours")?;
    with_operands(alloc, command)
}

// Its options.
fn options_command<'a>(alloc: Global) -> Result<Command<'a>, AllocError>
    ensures { IfOk result (λ c. app_of c ≡ options_app) }
{
    let command = with_option(alloc, bare_command(alloc), "--side", "side")?;
    let command = with_option(alloc, command, "--buckets", "buckets")?;
    let command = with_option(alloc, command, "--cap", "cap")?;
    let command = with_option(alloc, command, "--keep", "keep")?;
    let command = with_option(alloc, command, "--journal", "journal")?;
    with_option(alloc, command, "--report", "report")
}

fn bare_command<'a>(alloc: Global) -> Command<'a>
    ensures { app_of result ≡ on_top bare (new_app (codes "run")) }
{
    Command::new(alloc, "run")
        .no_binary_name(true)
        .disable_help_flag(true)
}

fn with_operands<'a>(alloc: Global, command: Command<'a>) -> Result<Command<'a>, AllocError>
    ensures { IfOk result (λ c. app_of c ≡ with_rule (app_of command.entry) operands_rule) }
{
    command.arg(Arg::new(alloc, "operands").action(ArgAction::Append))
}

fn with_option<'a>(
    alloc: Global,
    command: Command<'a>,
    word: &'a str,
    name: &'a str,
) -> Result<Command<'a>, AllocError>
    ensures { IfOk result (λ c. app_of c
        ≡ with_rule (app_of command.entry) (option_rule word.now name.now)) }
{
    command.arg(Arg::new(alloc, word).long(name))
}

fn with_flag<'a>(
    alloc: Global,
    command: Command<'a>,
    word: &'a str,
    name: &'a str,
) -> Result<Command<'a>, AllocError>
    ensures { IfOk result (λ c. app_of c
        ≡ with_rule (app_of command.entry) (flag_rule word.now name.now)) }
{
    command.arg(Arg::new(alloc, word).long(name).action(ArgAction::SetTrue))
}

fn line<'w>(alloc: Global, matches: &ArgMatches<'w>) -> Result<Line<'w>, AllocError>
    ensures { IfOk result (λ line. line ≡ line_in (rows_of (found_of matches.now))) }
{
    let operands = operands(alloc, matches)?;
    Ok(Line {
        side: value(matches, "--side"),
        buckets: value(matches, "--buckets"),
        cap: value(matches, "--cap"),
        keep: value(matches, "--keep"),
        journal: value(matches, "--journal"),
        report: value(matches, "--report"),
        colours: says_set(value(matches, "--colours")),
        operands,
    })
}

fn value<'w>(matches: &ArgMatches<'w>, id: &str) -> Option<&'w str>
    ensures { option_map (λ t. t.now) result
        ≡ first_of id.now (rows_of (found_of matches.now)) }
{
    matches.get_str(id)
}

// Whether the first text of a flag says that it is set.
fn says_set(text: Option<&str>) -> bool
    ensures { result ≡ says_set (option_map (λ t. t.now) text.entry) }
{
    match text {
        None => false,
        Some(text) => text == "true",
    }
}

#[tactic(auto, using(crate::proofs::OfCommandLine::Matching::operands_some, crate::proofs::OfCommandLine::Matching::operands_none))]
fn operands<'w>(alloc: Global, matches: &ArgMatches<'w>) -> Result<Vec<&'w str>, AllocError>
    ensures { IfOk result (λ names. map (λ n. n.now) names.items
        ≡ unwrap_or (all_of (codes "operands") (rows_of (found_of matches.now))) []) }
{
    match matches.get_strs("operands") {
        Some(names) => Vec::from_slice(alloc, names),
        None => Ok(Vec::new(alloc)),
    }
}
