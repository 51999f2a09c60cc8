//! The program's arguments, read by `clap`.

ghost use Rattle.std.specs.Prelude.{◌≡◌, ◌≢◌, ◌⊎◌, IfErr, IfOk, codes, false, map, option_map, string_bytes};
ghost use Rattle.clap.specs.Words.{app_of, first_of, found_of, kind_of, rows_of, rule_of, with_rule};
ghost use Rattle.clap.specs.declared.builder.command.Command.TheViews.{out-Command as fields_of};
ghost use Rattle.command_core.specs.Shown.{IsShown};
ghost use Rattle.link_command.specs.CommandLine.{AsksForLink, AsksForText, IsLinkMistake, IsProgramLine, TakesNames, bare_link_line, named_rule, option_rule, parameter_rule, queue_names, rate_rule, table_called, table_named, table_names, texts_in, texts_of};

use crate::faults::ProgramFault;
use crate::manual;
use crate::mistakes::mistake_text;
use clap::builder::ValueParser;
use clap::error::ErrorKind;
use clap::{Arg, ArgAction, ArgMatches, Command, Error};
use command_core::shown::shown;
use std::alloc::{AllocError, Global};

/// The names of the tables.
const TABLES: [&str; 5] = ["flows", "packets", "series", "steps", "svg"];

/// The queues that a run may be compared with.
const QUEUES: [&str; 1] = ["fifo"];

/// The table that is asked for.
#[derive(Clone, Copy, Debug, PartialEq, Eq)]
pub enum TableName {
    /// A row for each five-tuple.
    Flows,
    /// A row for each packet.
    Packets,
    /// A row for each bin of time and five-tuple.
    Series,
    /// The run's steps as a trace.
    Steps,
    /// No table: the picture.
    Svg,
}

/// A run, as it was asked for.
#[derive(Debug, Drop)]
pub struct RunRequest<'a> {
    /// The text of the rate.
    pub rate: &'a str,
    /// The text of the overhead on the wire, if it is given.
    pub overhead: Option<&'a str>,
    /// The text of the minimum size on the wire, if it is given.
    pub mpu: Option<&'a str>,
    /// The text of the seed, if it is given.
    pub seed: Option<&'a str>,
    /// The text of the width of a bin, if it is given.
    pub every: Option<&'a str>,
    /// Whether a FIFO is run to compare with.
    pub has_fifo: bool,
    /// The table.
    pub table: TableName,
    /// The parameters.
    pub parameters: Vec<&'a str>,
}

/// What the arguments ask for.
#[derive(Debug, Drop)]
pub enum Asked<'a> {
    /// A run.
    Run(RunRequest<'a>),
    /// A text: help, or the version.
    Text(String),
}

/// Reads the program's arguments.
pub fn parse<'a>(alloc: Global, words: &'a [&'a str]) -> Result<Asked<'a>, ProgramFault>
    ensures run { IfOk result (λ asked. (run : _) → asked ≡ Asked.Run run
        → AsksForLink (map (λ w. w.now) words.entry.now) (texts_of run)) }
    ensures text { IfOk result (λ asked. (text : _) → asked ≡ Asked.Text text
        → AsksForText (map (λ w. w.now) words.entry.now)) }
    ensures mistake { IfErr result (λ fault. (text : _) → fault ≡ ProgramFault.CommandLine text
        → IsLinkMistake (map (λ w. w.now) words.entry.now)) }
    ensures fault { IfErr result (λ fault. (fault ≡ ProgramFault.Memory)
        ⊎ ((text : _) × (fault ≡ ProgramFault.CommandLine text))) }
    ensures shown { IfErr result (λ fault. (text : _) → fault ≡ ProgramFault.CommandLine text
        → IsShown (string_bytes text)) }
{
    let command = program_command(alloc)?;
    match command.try_get_matches_from(words) {
        Ok(matches) => Ok(Asked::Run(run_request(alloc, &matches)?)),
        Err(error) => without_matches(alloc, words, &error),
    }
}

/// What is returned if there are no matches: a text, or a fault.
fn without_matches<'a>(
    alloc: Global,
    words: &[&str],
    error: &Error,
) -> Result<Asked<'a>, ProgramFault>
    ensures run { IfOk result (λ asked. (run : _) → asked ≡ Asked.Run run → ⊥) }
    ensures text { IfOk result (λ asked. (text : _) → asked ≡ Asked.Text text
        → (kind_of error.now ≡ ErrorKind.DisplayHelp) ⊎ (kind_of error.now ≡ ErrorKind.DisplayVersion)) }
    ensures mistake { IfErr result (λ fault. (text : _) → fault ≡ ProgramFault.CommandLine text
        → (kind_of error.now ≢ ErrorKind.DisplayHelp) × (kind_of error.now ≢ ErrorKind.DisplayVersion)
        × (kind_of error.now ≢ ErrorKind.OutOfMemory)) }
    ensures fault { IfErr result (λ fault. (fault ≡ ProgramFault.Memory)
        ⊎ ((text : _) × (fault ≡ ProgramFault.CommandLine text))) }
    ensures shown { IfErr result (λ fault. (text : _) → fault ≡ ProgramFault.CommandLine text
        → IsShown (string_bytes text)) }
{
    match error.kind() {
        ErrorKind::OutOfMemory => Err(ProgramFault::Memory),
        ErrorKind::DisplayHelp => Ok(Asked::Text(format!(in alloc; "{error}")?)),
        ErrorKind::DisplayVersion => Ok(Asked::Text(format!(in alloc; "{error}")?)),
        _ => {
            let text = mistake_text(alloc, words, error)?;
            Err(ProgramFault::CommandLine(shown(alloc, &text)?))
        }
    }
}

/// The run that the matches ask for.
fn run_request<'a>(alloc: Global, matches: &ArgMatches<'a>) -> Result<RunRequest<'a>, AllocError>
    ensures { IfOk result (λ run. texts_of run ≡ texts_in (rows_of (found_of matches.now))) }
{
    let parameters = parameters_of(alloc, matches)?;
    Ok(RunRequest {
        // `clap` refuses words without a rate.
        rate: matches.get_str("rate").unwrap_or(""),
        overhead: matches.get_str("overhead"),
        mpu: matches.get_str("mpu"),
        seed: matches.get_str("seed"),
        every: matches.get_str("every"),
        has_fifo: matches.get_str("compare").is_some(),
        table: table_named(matches.get_str("write")),
        parameters,
    })
}

/// The parameters.
fn parameters_of<'a>(alloc: Global, matches: &ArgMatches<'a>) -> Result<Vec<&'a str>, AllocError>
    ensures { IfOk result (λ words. map (λ w. w.now) words.items
        ≡ (texts_in (rows_of (found_of matches.now))).parameters) }
{
    let mut parameters = Vec::new(alloc);
    if let Some(words) = matches.get_strs("PARAM") {
        parameters.extend_from_slice(words)?;
    }
    Ok(parameters)
}

/// The table of that name. `clap` refuses other names than those of `TABLES`.
fn table_named(name: Option<&str>) -> TableName
    ensures { result ≡ table_named (option_map (λ n. n.now) name.entry) }
{
    match name {
        Some(name) => table_called(name),
        None => TableName::Flows,
    }
}

/// The table of that name.
#[tactic(auto, using(crate::proofs::TextLemmas::differ))]
fn table_called(name: &str) -> TableName
    ensures { result ≡ table_called name.now }
{
    match name {
        "packets" => TableName::Packets,
        "series" => TableName::Series,
        "steps" => TableName::Steps,
        "svg" => TableName::Svg,
        _ => TableName::Flows,
    }
}

/// The command line.
fn program_command<'a>(alloc: Global) -> Result<Command<'a>, AllocError>
    ensures { IfOk result (λ r. IsProgramLine (app_of r)) }
{
    let bare = bare_command(alloc)?;
    bare.arg(rate_argument(alloc))?
        .arg(option(alloc, "overhead", "N"))?
        .arg(option(alloc, "mpu", "N"))?
        .arg(option(alloc, "seed", "HEX32"))?
        .arg(queue_argument(alloc))?
        .arg(option(alloc, "every", "TIME"))?
        .arg(table_argument(alloc))?
        .arg(parameter_argument(alloc))
}

/// The command line without its arguments.
fn bare_command<'a>(alloc: Global) -> Result<Command<'a>, AllocError>
    ensures line { IfOk result (λ r. app_of r ≡ bare_link_line) }
    ensures local { IfOk result (λ r. (fields_of r).has_globals ≡ false) }
{
    let named = Command::new(alloc, "maltlink").bin_name("maltlink")?;
    Ok(
        named
            .no_binary_name(true)
            .version(manual::VERSION)
            .about(manual::SUMMARY)
            .override_help(manual::PAGE),
    )
}

/// `--rate RATE`
fn rate_argument<'a>(alloc: Global) -> Arg<'a>
    ensures rule { rule_of result ≡ rate_rule }
    ensures local { result.global ≡ false }
{
    option(alloc, "rate", "RATE").required(true)
}

/// `--compare QUEUE`
fn queue_argument<'a>(alloc: Global) -> Arg<'a>
    ensures rule { (names : _) × TakesNames queue_names names × (rule_of result ≡ named_rule (codes "compare") names) }
    ensures local { result.global ≡ false }
{
    option(alloc, "compare", "QUEUE").value_parser(ValueParser::Names(&QUEUES))
}

/// `--write TABLE`
fn table_argument<'a>(alloc: Global) -> Arg<'a>
    ensures rule { (names : _) × TakesNames table_names names × (rule_of result ≡ named_rule (codes "write") names) }
    ensures local { result.global ≡ false }
{
    option(alloc, "write", "TABLE").value_parser(ValueParser::Names(&TABLES))
}

/// `[PARAM]...`
fn parameter_argument<'a>(alloc: Global) -> Arg<'a>
    ensures rule { rule_of result ≡ parameter_rule }
    ensures local { result.global ≡ false }
{
    Arg::new(alloc, "PARAM").action(ArgAction::Append)
}

/// An option with a value.
fn option<'a>(alloc: Global, name: &'a str, value: &'a str) -> Arg<'a>
    ensures rule { rule_of result ≡ option_rule name.entry.now }
    ensures local { result.global ≡ false }
{
    Arg::new(alloc, name).long(name).value_name(value)
}
