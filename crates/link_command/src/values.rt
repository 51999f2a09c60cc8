//! The values of options, from their texts.

ghost use Rattle.std.specs.Prelude.{◌≡◌, ◌≤◌, ◌⊎◌, ◌-◌, [], Err, IfErr, IfOk, None, Ok, Some, get_or, map, option_map, string_bytes, unwrap_or};
ghost use Rattle.packet_core.specs.Words.{params_of_words};
ghost use Rattle.command_core.specs.Seeds.{seed_given};
ghost use Rattle.link_command.specs.CommandLine.{texts_of};
ghost use Rattle.link_command.specs.FaultsOn.{IsGivenFault, IsOfValue, IsWordsFault};
ghost use Rattle.link_command.specs.PlainWords.{plain_words_of};
ghost use Rattle.link_command.specs.Rates.{bit_rate_of};
ghost use Rattle.link_command.specs.Values.{AreGoodBefore, SaysLink, SaysRun, bytes_given, fault_within, word_place_of, value_text, width_fault, width_given};
ghost use Rattle.link_command.specs.RunsSaid.{run_parts_of};
ghost use Rattle.link_command.specs.declared.values.GivenFault.TheVariants as given;

use crate::command_line::RunRequest;
use crate::faults::{ProgramFault, ValueFault, ValueName};
use crate::plain::plain_words;
use crate::rates::read_rate;
use command_core::{ZERO_SEED, read_seed};
use link_core::{Link, LinkFields};
use packet_core::{ParamFault, Params, Seed, read_numeral, read_params};
use std::alloc::{AllocError, Global};

/// The least rate, in bits per second.
const MIN_RATE: u64 = 1_000;

/// The greatest rate, in bits per second.
const MAX_RATE: u64 = 1_000_000_000_000;

/// The greatest overhead on the wire, in bytes.
const MAX_OVERHEAD: u64 = 1_000;

/// The greatest minimum size on the wire, in bytes.
const MAX_MPU: u64 = 65_535;

/// The least width of a bin, in microseconds.
const MIN_EVERY: u64 = 1_000;

/// The width of a bin where none is given, in microseconds.
const STANDARD_EVERY: u64 = 100_000;

/// A run that is asked for, and the width of its bins, in microseconds.
#[derive(Clone, Copy)]
pub(crate) struct Run {
    pub(crate) params: Params,
    pub(crate) seed: Seed,
    pub(crate) link: Link,
    pub(crate) every: u64,
}

/// What is wrong with the words of a run.
#[derive(Clone, Copy)]
pub(crate) enum GivenFault {
    /// The value of an option.
    Value(ValueName, ValueFault),
    /// The seed.
    Seed,
    /// A parameter.
    Params(ParamFault),
    /// Out of memory.
    Memory,
}

/// The run of a request. The values of options are tested in their order, and then the parameters.
pub(crate) fn run_of(alloc: Global, request: &RunRequest<'_>) -> Result<Run, ProgramFault>
    ensures run { IfOk result (λ run. SaysRun (texts_of request.now) (run_parts_of run)) }
    ensures fault { IfErr result (IsWordsFault (texts_of request.now)) }
{
    match said(alloc, request) {
        Ok(run) => Ok(run),
        Err(fault) => match told(alloc, request, fault) {
            Ok(fault) => Err(fault),
            Err(_) => Err(ProgramFault::Memory),
        },
    }
}

/// What a request says, or its first fault.
fn said(alloc: Global, request: &RunRequest<'_>) -> Result<Run, GivenFault>
    ensures run { IfOk result (λ run. SaysRun (texts_of request.now) (run_parts_of run)) }
    ensures fault { IfErr result (IsGivenFault (texts_of request.now)) }
{
    let link = link_of(request)?;
    let every = every_of(request.every)?;
    let seed = seed_of(request.seed)?;
    let params = params_of(alloc, &request.parameters)?;
    Ok(Run {
        params,
        seed,
        link,
        every,
    })
}

/// The link of a request.
fn link_of(request: &RunRequest<'_>) -> Result<Link, GivenFault>
    ensures link { IfOk result (λ link. SaysLink (texts_of request.now) link) }
    ensures good { IfOk result (λ _. AreGoodBefore ValueName.Every (texts_of request.now)) }
    ensures fault { IfErr result (IsGivenFault (texts_of request.now)) }
{
    let rate = rate_in_range(request.rate)?;
    let overhead = bytes_in_range(ValueName::Overhead, request.overhead, MAX_OVERHEAD)?;
    let mpu = bytes_in_range(ValueName::Mpu, request.mpu, MAX_MPU)?;
    let fields = LinkFields {
        rate,
        overhead: overhead as u32,
        mpu: mpu as u32,
    };
    match Link::try_new(fields) {
        Ok(link) => Ok(link),
        Err(_) => unreachable!(),
    }
}

/// The rate that a text says.
fn rate_in_range(text: &str) -> Result<u64, GivenFault>
    ensures rate { IfOk result (λ rate. bit_rate_of text.now ≡ Some rate) }
    ensures good { IfOk result (λ _. fault_within 1000 1000000000000 (bit_rate_of text.now) ≡ None) }
    ensures range { IfOk result (λ rate. (1000 ≤ rate) × (rate ≤ 1000000000000)) }
    ensures fault { IfErr result (IsOfValue ValueName.Rate (fault_within 1000 1000000000000 (bit_rate_of text.now))) }
{
    within(ValueName::Rate, read_rate(text), MIN_RATE, MAX_RATE)
}

/// A number of bytes up to `most`, and 0 where none is given.
fn bytes_in_range(name: ValueName, text: Option<&str>, most: u64) -> Result<u64, GivenFault>
    requires { most ≤ 65535 }
    ensures bytes { IfOk result (λ bytes. bytes_given (option_map (λ t. t.now) text.entry) ≡ Some bytes) }
    ensures good { IfOk result (λ _. fault_within 0 most (bytes_given (option_map (λ t. t.now) text.entry)) ≡ None) }
    ensures range { IfOk result (λ bytes. bytes ≤ most) }
    ensures fault { IfErr result (IsOfValue name
        (fault_within 0 most (bytes_given (option_map (λ t. t.now) text.entry)))) }
{
    match text {
        Some(text) => within(name, read_numeral(text.as_bytes()), 0, most),
        None => Ok(0),
    }
}

/// A value that is in its range.
fn within(name: ValueName, value: Option<u64>, least: u64, most: u64) -> Result<u64, GivenFault>
    ensures value { IfOk result (λ v. value ≡ Some v) }
    ensures good { IfOk result (λ _. fault_within least most value ≡ None) }
    ensures range { IfOk result (λ v. (least ≤ v) × (v ≤ most)) }
    ensures fault { IfErr result (IsOfValue name (fault_within least most value)) }
{
    match value {
        None => Err(GivenFault::Value(name, ValueFault::NotANumber)),
        Some(value) => {
            if least <= value && value <= most {
                Ok(value)
            } else {
                Err(GivenFault::Value(name, ValueFault::OutOfRange))
            }
        }
    }
}

/// The width of a bin, in microseconds.
fn every_of(text: Option<&str>) -> Result<u64, GivenFault>
    ensures width { IfOk result (λ every. width_given (option_map (λ t. t.now) text.entry) ≡ Ok every) }
    ensures fault { IfErr result (IsOfValue ValueName.Every
        (width_fault (width_given (option_map (λ t. t.now) text.entry)))) }
{
    match text {
        Some(text) => width(text),
        None => Ok(STANDARD_EVERY),
    }
}

/// The width of a bin that a text says, in microseconds. It is a time of the parameters, with the range of `target` but
/// for its lower end.
fn width(text: &str) -> Result<u64, GivenFault>
    ensures width { IfOk result (λ every. width_given (Some text.now) ≡ Ok every) }
    ensures fault { IfErr result (IsOfValue ValueName.Every (width_fault (width_given (Some text.now)))) }
{
    match read_params(&["target", text]) {
        Ok(params) => {
            let every = params.target();
            if every >= MIN_EVERY {
                Ok(every)
            } else {
                Err(GivenFault::Value(ValueName::Every, ValueFault::OutOfRange))
            }
        }
        Err(ParamFault::NotANumber(_)) => {
            Err(GivenFault::Value(ValueName::Every, ValueFault::NotANumber))
        }
        Err(ParamFault::UnknownWord(_) | ParamFault::MissingValue(_) | ParamFault::OutOfRange(_)) =>
            Err(GivenFault::Value(ValueName::Every, ValueFault::OutOfRange)),
    }
}

/// The seed of a text, and the standard one where there is none.
fn seed_of(text: Option<&str>) -> Result<Seed, GivenFault>
    ensures seed { IfOk result (λ seed. seed_given (option_map (λ t. t.now) text.entry) ≡ Some seed.0) }
    ensures fault { IfErr result (λ fault. (fault ≡ given.Seed)
        × (seed_given (option_map (λ t. t.now) text.entry) ≡ None)) }
{
    match text {
        Some(text) => match read_seed(text) {
            Some(seed) => Ok(seed),
            None => Err(GivenFault::Seed),
        },
        None => Ok(ZERO_SEED),
    }
}

/// The parameters of words.
fn params_of(alloc: Global, words: &[&str]) -> Result<Params, GivenFault>
    ensures params { IfOk result (λ params. params_of_words (plain_words_of (map (λ w. w.now) words.now)) ≡ Ok params) }
    ensures fault { IfErr result (λ fault. (fault ≡ given.Memory) ⊎ ((why : ParamFault) × (fault ≡ given.Params why)
        × (params_of_words (plain_words_of (map (λ w. w.now) words.now)) ≡ Err why))) }
{
    match plain_words(alloc, words) {
        Ok(plain) => plain_params(alloc, &plain),
        Err(_) => Err(GivenFault::Memory),
    }
}

/// The parameters of words in the form in which they are read.
fn plain_params(alloc: Global, plain: &[String]) -> Result<Params, GivenFault>
    ensures params { IfOk result (λ params. params_of_words (map string_bytes plain.now) ≡ Ok params) }
    ensures fault { IfErr result (λ fault. (fault ≡ given.Memory) ⊎ ((why : ParamFault) × (fault ≡ given.Params why)
        × (params_of_words (map string_bytes plain.now) ≡ Err why))) }
{
    match word_texts(alloc, plain) {
        Ok(texts) => match read_params(&texts) {
            Ok(params) => Ok(params),
            Err(fault) => Err(GivenFault::Params(fault)),
        },
        Err(_) => Err(GivenFault::Memory),
    }
}

/// The texts of words.
fn word_texts<'a>(alloc: Global, words: &'a [String]) -> Result<Vec<&'a str>, AllocError>
    ensures { IfOk result (λ texts. map (λ t. t.now) texts.items ≡ map string_bytes words.entry.now) }
{
    let mut texts = Vec::new(alloc);
    for word in words {
        texts.push(word.as_str())?;
    }
    Ok(texts)
}

/// A fault of a request, with the text that was found.
fn told(
    alloc: Global,
    request: &RunRequest<'_>,
    fault: GivenFault,
) -> Result<ProgramFault, AllocError>
    requires { IsGivenFault (texts_of request.now) fault }
    ensures { IfOk result (IsWordsFault (texts_of request.now)) }
{
    match fault {
        GivenFault::Value(name, what) => {
            let found = String::from_str(alloc, value_text(request, name))?;
            Ok(ProgramFault::Value(name, what, found))
        }
        GivenFault::Seed => {
            let found = String::from_str(alloc, text_or_none(request.seed))?;
            Ok(ProgramFault::Seed(found))
        }
        GivenFault::Params(fault) => {
            let found = String::from_str(alloc, word_at(&request.parameters, fault))?;
            Ok(ProgramFault::Params(fault, found))
        }
        GivenFault::Memory => Ok(ProgramFault::Memory),
    }
}

/// The text of an option's value.
fn value_text<'a>(request: &RunRequest<'a>, name: ValueName) -> &'a str
    ensures { result.now ≡ value_text name (texts_of request.now) }
{
    match name {
        ValueName::Rate => request.rate,
        ValueName::Overhead => text_or_none(request.overhead),
        ValueName::Mpu => text_or_none(request.mpu),
        ValueName::Every => text_or_none(request.every),
    }
}

/// A text that may be left out.
fn text_or_none(text: Option<&str>) -> &str
    ensures { result.now ≡ unwrap_or (option_map (λ t. t.now) text.entry) [] }
{
    match text {
        Some(text) => text,
        None => "",
    }
}

/// The word that a fault is of.
fn word_at<'a>(words: &[&'a str], fault: ParamFault) -> &'a str
    ensures { result.now ≡ get_or (map (λ w. w.now) words.now) (word_place_of fault - 1) [] }
{
    let (ParamFault::UnknownWord(place)
    | ParamFault::MissingValue(place)
    | ParamFault::NotANumber(place)
    | ParamFault::OutOfRange(place)) = fault;
    match words.get(place.saturating_sub(1)) {
        Some(word) => word,
        None => "",
    }
}
