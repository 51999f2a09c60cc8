//! Parameter words, and the reading of them.

ghost use Rattle.std.specs.Prelude.{◌≡◌, ◌-◌, ◌^◌, map, min, option_map};
ghost use Rattle.packet_core.specs.Words.{amount_of, digits_in_front, is_microseconds, is_milliseconds, is_seconds, param_word_of, params_of_words, time_of, unit_of, with_text};

use crate::numerals::read_numeral;
use crate::params::{Classify, EcnUse, ParamName, Params};
use thiserror::Error;

/// Why words are no parameters, with the place of the word, from 1.
#[derive(Clone, Copy, Debug, PartialEq, Eq, Error)]
pub enum ParamFault {
    /// The word names no parameter, or no way to classify.
    #[error("parameter word {0}: UnknownWord")]
    UnknownWord(usize),
    /// The parameter has no value behind it.
    #[error("parameter word {0}: MissingValue")]
    MissingValue(usize),
    /// The value isn't written as a number or a time is.
    #[error("parameter word {0}: NotANumber")]
    NotANumber(usize),
    /// The value is outside its range.
    #[error("parameter word {0}: OutOfRange")]
    OutOfRange(usize),
}

/// A parameter whose value is the word behind it.
#[derive(Clone, Copy, Debug, PartialEq, Eq)]
enum Parameter {
    /// A whole number or a time, in a range.
    Ranged(ParamName),
    /// How the flow of a packet is found.
    Classify,
}

/// What a word asks for.
#[derive(Clone, Copy, Debug, PartialEq, Eq)]
enum ParamWord {
    /// `ecn` or `noecn`, which have no value behind them.
    Ecn(EcnUse),
    /// A parameter with a value.
    Valued(Parameter),
}

/// The parameters that words say (tc-fq_codel(8)), and the standard value of each that isn't said: `limit`, `flows`,
/// `quantum`, `mtu`, `memory_limit` and `drop_batch` with a whole number, `target`, `interval` and `ce_threshold` with
/// a time, `classify` with `hash` or `dport`, `ecn` and `noecn`. A whole number is one or more digits. A time is digits
/// and then a unit, in lower case: `us`, `usec`, `usecs` or nothing for microseconds, `ms`, `msec` or `msecs` for
/// milliseconds, `s`, `sec` or `secs` for seconds. The word behind a parameter with a value is its value, whatever it
/// is. Words are read from left to right; a parameter that is given twice takes its last value, and the first fault is
/// answered: `ParamFault` says what each one means.
pub fn read_params(words: &[&str]) -> Result<Params, ParamFault>
    ensures { result ≡ params_of_words (map (λ word. word.now) words.now) }
{
    let mut params = Params::standard();
    let mut rest = words;
    while let [word, behind @ ..] = rest {
        let place = words.len() - behind.len();
        match param_word(word) {
            None => return Err(ParamFault::UnknownWord(place)),
            Some(ParamWord::Ecn(ecn)) => {
                params = params.with_ecn(ecn);
                rest = behind;
            }
            Some(ParamWord::Valued(parameter)) => {
                let [value, behind @ ..] = behind else {
                    return Err(ParamFault::MissingValue(place));
                };
                params = with_text(params, parameter, value, place + 1)?;
                rest = behind;
            }
        }
    }
    Ok(params)
}

/// What a word asks for, if it is a parameter's.
#[tactic(auto, using(crate::proofs::TextLemmas::differ), unfolding(crate::specs::Words::param_word_of))]
fn param_word(word: &str) -> Option<ParamWord>
    ensures { result ≡ param_word_of word.now }
{
    match word {
        "limit" => Some(ParamWord::Valued(Parameter::Ranged(ParamName::Limit))),
        "flows" => Some(ParamWord::Valued(Parameter::Ranged(ParamName::Flows))),
        "quantum" => Some(ParamWord::Valued(Parameter::Ranged(ParamName::Quantum))),
        "mtu" => Some(ParamWord::Valued(Parameter::Ranged(ParamName::Mtu))),
        "target" => Some(ParamWord::Valued(Parameter::Ranged(ParamName::Target))),
        "interval" => Some(ParamWord::Valued(Parameter::Ranged(ParamName::Interval))),
        "ce_threshold" => Some(ParamWord::Valued(Parameter::Ranged(ParamName::CeThreshold))),
        "memory_limit" => Some(ParamWord::Valued(Parameter::Ranged(ParamName::MemoryLimit))),
        "drop_batch" => Some(ParamWord::Valued(Parameter::Ranged(ParamName::DropBatch))),
        "classify" => Some(ParamWord::Valued(Parameter::Classify)),
        "ecn" => Some(ParamWord::Ecn(EcnUse::Mark)),
        "noecn" => Some(ParamWord::Ecn(EcnUse::Drop)),
        _ => None,
    }
}

/// The parameters with this one at the value that the text at this place says.
#[tactic(auto, using(crate::proofs::TextLemmas::differ), unfolding(crate::specs::Words::with_classify))]
fn with_text(
    params: Params,
    parameter: Parameter,
    text: &str,
    place: usize,
) -> Result<Params, ParamFault>
    ensures { result ≡ with_text place parameter text.now params }
{
    match parameter {
        Parameter::Ranged(name) => {
            let value = amount(name, text.as_bytes()).ok_or(ParamFault::NotANumber(place))?;
            params
                .with_value(name, value)
                .ok_or(ParamFault::OutOfRange(place))
        }
        Parameter::Classify => match text {
            "hash" => Ok(params.with_classify(Classify::Hash)),
            "dport" => Ok(params.with_classify(Classify::Dport)),
            _ => Err(ParamFault::UnknownWord(place)),
        },
    }
}

/// The value that a text says for a parameter, and 2^64 - 1 where it is more than that.
fn amount(name: ParamName, text: &[u8]) -> Option<u64>
    ensures { result ≡ option_map (λ n. min n (2 ^ 64 - 1)) (amount_of name text.now) }
{
    match name {
        ParamName::Limit
        | ParamName::Flows
        | ParamName::Quantum
        | ParamName::Mtu
        | ParamName::MemoryLimit
        | ParamName::DropBatch => read_numeral(text),
        ParamName::Target | ParamName::Interval | ParamName::CeThreshold => time(text),
    }
}

/// A time in microseconds, and 2^64 - 1 where it is more than that.
fn time(text: &[u8]) -> Option<u64>
    ensures { result ≡ option_map (λ n. min n (2 ^ 64 - 1)) (time_of text.now) }
{
    let digits = digits_in_front(text);
    let count = read_numeral(&text[..digits])?;
    Some(count.saturating_mul(unit(&text[digits..])?))
}

/// How many digits a text begins with.
fn digits_in_front(text: &[u8]) -> usize
    ensures { result ≡ digits_in_front text.now }
{
    text.iter().take_while(|byte| byte.is_ascii_digit()).count()
}

/// How many microseconds a unit has.
fn unit(text: &[u8]) -> Option<u64>
    ensures { result ≡ unit_of text.now }
{
    if is_microseconds(text) {
        Some(1)
    } else if is_milliseconds(text) {
        Some(1_000)
    } else if is_seconds(text) {
        Some(1_000_000)
    } else {
        None
    }
}

/// Whether a unit is the microsecond, which can be left out.
fn is_microseconds(text: &[u8]) -> bool
    ensures { result ≡ is_microseconds text.now }
{
    matches!(text, b"" | b"us" | b"usec" | b"usecs")
}

/// Whether a unit is the millisecond.
fn is_milliseconds(text: &[u8]) -> bool
    ensures { result ≡ is_milliseconds text.now }
{
    matches!(text, b"ms" | b"msec" | b"msecs")
}

/// Whether a unit is the second.
fn is_seconds(text: &[u8]) -> bool
    ensures { result ≡ is_seconds text.now }
{
    matches!(text, b"s" | b"sec" | b"secs")
}
