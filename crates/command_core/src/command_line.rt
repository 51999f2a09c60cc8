//! The words behind the program's name, read by `clap`.
ghost use Rattle.std.specs.Prelude.{◌≡◌, ◌≢◌, ◌≤◌, [], IfErr, IfOk, Some, codes, false, map, option_map, string_bytes, true, unwrap_or};
ghost use Rattle.clap.specs.Words.{all_of, app_of, first_of, found_of, kind_of, one_of, rows_of, rule_of, subcommand_name_of, with_subcommand};
ghost use Rattle.clap.specs.declared.builder.command.Command.TheViews.{out-Command as fields_of};
ghost use Rattle.command_core.specs.CommandLine.{AsksForHelp, AsksForLanes, AsksForLocked, AsksForTrace, IsCount, IsMistake, IsMonitorCount, IsRunRequest, IsSenderCount, asked_of, bare_line, lanes_line, locked_line, monitors_option, monitors_text, parameter_argument, parameter_words, program_line, rows_behind, seed_option, seed_text, senders_line, senders_option, senders_text, trace_line};
ghost use Rattle.command_core.specs.Shown.{IsShown};

use crate::manual;
use crate::shown::shown;
use clap::error::ErrorKind;
use clap::{Arg, ArgAction, ArgMatches, Command, Error};
use std::alloc::{AllocError, Global};

/// At most so many senders, each a thread of its own.
pub const MAX_SENDERS: u32 = 64;

/// So many senders where the words don't say.
pub const STANDARD_SENDERS: u32 = 2;

/// At most so many monitors, each a thread of its own.
pub const MAX_MONITORS: u32 = 64;

/// The run of a trace, as it was asked for.
#[derive(Debug, Drop)]
pub struct RunRequest<'a> {
    /// The text behind `--seed`, where there is one.
    pub seed: Option<&'a str>,
    /// The parameter words.
    pub parameters: Vec<&'a str>,
}

/// The run of a trace by senders, as it was asked for.
#[derive(Debug, Drop)]
pub struct SendersRequest<'a> {
    /// The run.
    pub run: RunRequest<'a>,
    /// How many senders there are, 1 to 64.
    pub senders: u32,
}

/// The run of a trace by senders with a lane each, as it was asked for.
#[derive(Debug, Drop)]
pub struct LanesRequest<'a> {
    /// The run and its senders.
    pub by: SendersRequest<'a>,
    /// How many monitors read its statistics meanwhile, 0 to 64.
    pub monitors: u32,
}

/// What the words ask for.
#[derive(Debug, Drop)]
pub enum Request<'a> {
    /// The run of a trace.
    Trace(RunRequest<'a>),
    /// The run of a trace by senders that are threads and share the scheduler.
    Locked(SendersRequest<'a>),
    /// The run of a trace by senders that are threads with a lane each.
    Lanes(LanesRequest<'a>),
    /// Help, with its text.
    Help(String),
}

/// Why the words ask for nothing.
#[derive(Debug, Drop)]
pub enum CommandFault {
    /// They aren't those of a command line. The text says what is wrong, in whole lines. Of the control characters it
    /// has line feeds alone: each other one of a word is written as `\u{1b}`.
    Mistake(String),
    /// A growth was refused.
    Memory,
}

impl From<AllocError> for CommandFault {
    ghost use Rattle.command_core.specs.declared.command_line.CommandFault.TheVariants.{Memory};

    ghost from_gives = { λ _ fault. fault ≡ Memory };

    fn from(_: AllocError) -> CommandFault {
        CommandFault::Memory
    }
}

/// Reads the words behind the program's name.
pub fn parse<'a>(alloc: Global, words: &'a [&'a str]) -> Result<Request<'a>, CommandFault>
    ensures trace { IfOk result (λ r. (trace : _) → r ≡ Request.Trace trace
        → AsksForTrace (map (λ w. w.now) words.entry.now)) }
    ensures seed { IfOk result (λ r. (trace : _) → r ≡ Request.Trace trace
        → option_map (λ s. s.now) trace.seed ≡ seed_text (map (λ w. w.now) words.entry.now)) }
    ensures parameters { IfOk result (λ r. (trace : _) → r ≡ Request.Trace trace
        → map (λ w. w.now) trace.parameters.items ≡ parameter_words (map (λ w. w.now) words.entry.now)) }
    ensures locked { IfOk result (λ r. (locked : _) → r ≡ Request.Locked locked
        → AsksForLocked (map (λ w. w.now) words.entry.now)) }
    ensures locked_seed { IfOk result (λ r. (locked : _) → r ≡ Request.Locked locked
        → option_map (λ s. s.now) locked.run.seed ≡ seed_text (map (λ w. w.now) words.entry.now)) }
    ensures locked_parameters { IfOk result (λ r. (locked : _) → r ≡ Request.Locked locked
        → map (λ w. w.now) locked.run.parameters.items ≡ parameter_words (map (λ w. w.now) words.entry.now)) }
    ensures senders { IfOk result (λ r. (locked : _) → r ≡ Request.Locked locked
        → IsSenderCount (senders_text (map (λ w. w.now) words.entry.now)) locked.senders) }
    ensures lanes { IfOk result (λ r. (lanes : _) → r ≡ Request.Lanes lanes
        → AsksForLanes (map (λ w. w.now) words.entry.now)) }
    ensures lanes_seed { IfOk result (λ r. (lanes : _) → r ≡ Request.Lanes lanes
        → option_map (λ s. s.now) lanes.by.run.seed ≡ seed_text (map (λ w. w.now) words.entry.now)) }
    ensures lanes_parameters { IfOk result (λ r. (lanes : _) → r ≡ Request.Lanes lanes
        → map (λ w. w.now) lanes.by.run.parameters.items ≡ parameter_words (map (λ w. w.now) words.entry.now)) }
    ensures lanes_senders { IfOk result (λ r. (lanes : _) → r ≡ Request.Lanes lanes
        → IsSenderCount (senders_text (map (λ w. w.now) words.entry.now)) lanes.by.senders) }
    ensures monitors { IfOk result (λ r. (lanes : _) → r ≡ Request.Lanes lanes
        → IsMonitorCount (monitors_text (map (λ w. w.now) words.entry.now)) lanes.monitors) }
    ensures help { IfOk result (λ r. (text : _) → r ≡ Request.Help text
        → AsksForHelp (map (λ w. w.now) words.entry.now)) }
    ensures mistake { IfErr result (λ fault. (text : _) → fault ≡ CommandFault.Mistake text
        → IsMistake (map (λ w. w.now) words.entry.now)) }
    ensures shown { IfErr result (λ fault. (text : _) → fault ≡ CommandFault.Mistake text
        → IsShown (string_bytes text)) }
{
    let command = program_command(alloc)?;
    match command.try_get_matches_from(words) {
        Ok(matches) => Ok(request_of(alloc, &matches)?),
        Err(error) => without_matches(alloc, error),
    }
}

/// What is answered where there are no matches: help, or a fault.
fn without_matches<'a>(alloc: Global, error: Error) -> Result<Request<'a>, CommandFault>
    ensures trace { IfOk result (λ r. (trace : _) → r ≡ Request.Trace trace → ⊥) }
    ensures locked { IfOk result (λ r. (locked : _) → r ≡ Request.Locked locked → ⊥) }
    ensures lanes { IfOk result (λ r. (lanes : _) → r ≡ Request.Lanes lanes → ⊥) }
    ensures help { IfOk result (λ r. (text : _) → r ≡ Request.Help text
        → kind_of error ≡ ErrorKind.DisplayHelp) }
    ensures mistake { IfErr result (λ fault. (text : _) → fault ≡ CommandFault.Mistake text
        → (kind_of error ≢ ErrorKind.DisplayHelp) × (kind_of error ≢ ErrorKind.OutOfMemory)) }
    ensures shown { IfErr result (λ fault. (text : _) → fault ≡ CommandFault.Mistake text
        → IsShown (string_bytes text)) }
{
    match error.kind() {
        ErrorKind::OutOfMemory => Err(CommandFault::Memory),
        ErrorKind::DisplayHelp => Ok(Request::Help(format!(in alloc; "{error}")?)),
        _ => {
            let text = format!(in alloc; "{error}")?;
            Err(CommandFault::Mistake(shown(alloc, &text)?))
        }
    }
}

/// What the matches ask for.
fn request_of<'a>(alloc: Global, matches: &ArgMatches<'a>) -> Result<Request<'a>, AllocError>
    ensures trace { IfOk result (λ r. (trace : _) → r ≡ Request.Trace trace
        → (subcommand_name_of matches.now ≢ Some (codes "locked"))
        × (subcommand_name_of matches.now ≢ Some (codes "lanes")) × IsRunRequest (rows_behind matches.now) trace) }
    ensures locked { IfOk result (λ r. (locked : _) → r ≡ Request.Locked locked
        → (subcommand_name_of matches.now ≡ Some (codes "locked")) × IsRunRequest (rows_behind matches.now) locked.run
        × IsSenderCount (one_of (codes "senders") (rows_behind matches.now)) locked.senders) }
    ensures lanes { IfOk result (λ r. (lanes : _) → r ≡ Request.Lanes lanes
        → (subcommand_name_of matches.now ≡ Some (codes "lanes"))
        × IsRunRequest (rows_behind matches.now) lanes.by.run
        × IsSenderCount (one_of (codes "senders") (rows_behind matches.now)) lanes.by.senders
        × IsMonitorCount (one_of (codes "monitors") (rows_behind matches.now)) lanes.monitors) }
    ensures help { IfOk result (λ r. (text : _) → r ≡ Request.Help text → ⊥) }
{
    let run = run_request(alloc, matches)?;
    if let Some(found) = matches.subcommand_matches("locked") {
        let senders = sender_count(found);
        return Ok(Request::Locked(SendersRequest { run, senders }));
    }
    if let Some(found) = matches.subcommand_matches("lanes") {
        let by = SendersRequest {
            run,
            senders: sender_count(found),
        };
        let monitors = monitor_count(found);
        return Ok(Request::Lanes(LanesRequest { by, monitors }));
    }
    Ok(Request::Trace(run))
}

/// The run that the matches ask for, whichever subcommand it is.
fn run_request<'a>(alloc: Global, matches: &ArgMatches<'a>) -> Result<RunRequest<'a>, AllocError>
    ensures seed { IfOk result (λ r. option_map (λ s. s.now) r.seed
        ≡ first_of (codes "seed") (rows_behind matches.now)) }
    ensures parameters { IfOk result (λ r. map (λ w. w.now) r.parameters.items
        ≡ unwrap_or (all_of (codes "PARAM") (rows_behind matches.now)) []) }
{
    let mut parameters = Vec::new(alloc);
    let Some((_, found)) = matches.subcommand() else {
        // Words without the subcommand have no matches: `clap` refuses them.
        return Ok(RunRequest {
            seed: None,
            parameters,
        });
    };
    if let Some(words) = found.get_strs("PARAM") {
        parameters.extend_from_slice(words)?;
    }
    Ok(RunRequest {
        seed: found.get_str("seed"),
        parameters,
    })
}

/// How many senders the matches of a subcommand ask for.
fn sender_count(matches: &ArgMatches<'_>) -> u32
    ensures { IsSenderCount (one_of (codes "senders") (rows_of (found_of matches.now))) result }
{
    count_of(matches, "senders", 1, MAX_SENDERS, STANDARD_SENDERS)
}

/// How many monitors the matches of a subcommand ask for.
fn monitor_count(matches: &ArgMatches<'_>) -> u32
    ensures { IsMonitorCount (one_of (codes "monitors") (rows_of (found_of matches.now))) result }
{
    count_of(matches, "monitors", 0, MAX_MONITORS, 0)
}

/// The number that the matches of a subcommand have for an option, and the standard one where it wasn't given.
fn count_of(matches: &ArgMatches<'_>, option: &str, least: u32, most: u32, standard: u32) -> u32
    requires { (least ≤ standard) × (standard ≤ most) }
    ensures { IsCount least most standard (one_of option.now (rows_of (found_of matches.now))) result }
{
    match matches.get_one::<u32>(option) {
        Some(count) if (least..=most).contains(&count) => count,
        // `clap` refuses what is no number from the least to the most, so here none was given.
        _ => standard,
    }
}

/// The command line: one of the subcommands, which has to be there. Each function adds one subcommand: a way out of a
/// function that owns several commands is dear to prove.
fn program_command<'a>(alloc: Global) -> Result<Command<'a>, AllocError>
    ensures { IfOk result (λ r. app_of r ≡ program_line) }
{
    let bare = bare_command(alloc)?;
    let one = with_trace(alloc, bare)?;
    let two = with_locked(alloc, one)?;
    with_lanes(alloc, two)
}

/// The command line without its subcommands.
fn bare_command<'a>(alloc: Global) -> Result<Command<'a>, AllocError>
    ensures { IfOk result (λ r. app_of r ≡ bare_line) }
{
    let named = Command::new(alloc, "fqsim").bin_name("fqsim")?;
    Ok(described(named))
}

/// The command line without its subcommands, by the name alone.
fn described<'a>(named: Command<'a>) -> Command<'a>
    ensures { app_of result ≡ asked_of (app_of named.entry) }
{
    named
        .no_binary_name(true)
        .subcommand_required(true)
        .arg_required_else_help(true)
        .about(manual::PROGRAM_SUMMARY)
        .long_about(manual::PROGRAM_DESCRIPTION)
        .after_help(manual::PROGRAM_NOTES)
}

/// The command with the subcommand that runs a trace.
fn with_trace<'a>(alloc: Global, command: Command<'a>) -> Result<Command<'a>, AllocError>
    ensures { IfOk result (λ r. app_of r ≡ with_subcommand (app_of command.entry) trace_line.top) }
{
    let trace = trace_command(alloc)?;
    command.subcommand(trace)
}

/// The command with the subcommand that runs a trace by senders that share the scheduler.
fn with_locked<'a>(alloc: Global, command: Command<'a>) -> Result<Command<'a>, AllocError>
    ensures { IfOk result (λ r. app_of r ≡ with_subcommand (app_of command.entry) locked_line.top) }
{
    let locked = senders_command(
        alloc,
        "locked",
        manual::LOCKED_SUMMARY,
        manual::LOCKED_DESCRIPTION,
        manual::LOCKED_NOTES,
    )?;
    command.subcommand(locked)
}

/// The command with the subcommand that runs a trace by senders with a lane each.
fn with_lanes<'a>(alloc: Global, command: Command<'a>) -> Result<Command<'a>, AllocError>
    ensures { IfOk result (λ r. app_of r ≡ with_subcommand (app_of command.entry) lanes_line.top) }
{
    let lanes = lanes_command(alloc)?;
    command.subcommand(lanes)
}

/// `--seed HEX32`
fn seed_argument<'a>(alloc: Global) -> Arg<'a>
    ensures rule { rule_of result ≡ seed_option }
    ensures local { result.global ≡ false }
{
    Arg::new(alloc, "seed")
        .long("seed")
        .value_name("HEX32")
        .help(manual::SEED_SUMMARY)
        .long_help(manual::SEED_DESCRIPTION)
}

/// `--senders N`
fn senders_argument<'a>(alloc: Global) -> Arg<'a>
    ensures rule { rule_of result ≡ senders_option }
    ensures local { result.global ≡ false }
{
    Arg::new(alloc, "senders")
        .long("senders")
        .value_name("N")
        .value_parser(clap::value_parser!(u32).range(1..=64))
        .help(manual::SENDERS_SUMMARY)
        .long_help(manual::SENDERS_DESCRIPTION)
}

/// `--monitors M`
fn monitors_argument<'a>(alloc: Global) -> Arg<'a>
    ensures rule { rule_of result ≡ monitors_option }
    ensures local { result.global ≡ false }
{
    Arg::new(alloc, "monitors")
        .long("monitors")
        .value_name("M")
        .value_parser(clap::value_parser!(u32).range(0..=64))
        .help(manual::MONITORS_SUMMARY)
        .long_help(manual::MONITORS_DESCRIPTION)
}

/// `[PARAM]...`
fn parameter_argument<'a>(alloc: Global) -> Arg<'a>
    ensures rule { rule_of result ≡ parameter_argument }
    ensures local { result.global ≡ false }
{
    Arg::new(alloc, "PARAM")
        .action(ArgAction::Append)
        .help(manual::PARAMETERS_SUMMARY)
        .long_help(manual::PARAMETERS_DESCRIPTION)
}

/// The subcommand that runs a trace.
fn trace_command<'a>(alloc: Global) -> Result<Command<'a>, AllocError>
    ensures line { IfOk result (λ r. app_of r ≡ trace_line) }
    ensures local { IfOk result (λ r. (fields_of r).has_globals ≡ false) }
{
    let command = Command::new(alloc, "trace")
        .about(manual::TRACE_SUMMARY)
        .long_about(manual::TRACE_DESCRIPTION)
        .after_long_help(manual::TRACE_NOTES);
    command
        .arg(seed_argument(alloc))?
        .arg(parameter_argument(alloc))
}

/// A subcommand that runs a trace by senders that are threads: its name, what it does, in a line and at length, and
/// what stands below its help.
fn senders_command<'a>(
    alloc: Global,
    name: &'a str,
    summary: &'a str,
    description: &'a str,
    notes: &'a str,
) -> Result<Command<'a>, AllocError>
    ensures line { IfOk result (λ r. app_of r ≡ senders_line name.entry.now) }
    ensures local { IfOk result (λ r. (fields_of r).has_globals ≡ false) }
{
    let command = Command::new(alloc, name)
        .about(summary)
        .long_about(description)
        .after_long_help(notes);
    command
        .arg(seed_argument(alloc))?
        .arg(senders_argument(alloc))?
        .arg(parameter_argument(alloc))
}

/// The subcommand that runs a trace by senders with a lane each.
fn lanes_command<'a>(alloc: Global) -> Result<Command<'a>, AllocError>
    ensures line { IfOk result (λ r. app_of r ≡ lanes_line) }
    ensures local { IfOk result (λ r. (fields_of r).has_globals ≡ false) }
{
    let command = senders_command(
        alloc,
        "lanes",
        manual::LANES_SUMMARY,
        manual::LANES_DESCRIPTION,
        manual::LANES_NOTES,
    )?;
    command.arg(monitors_argument(alloc))
}
