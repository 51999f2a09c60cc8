//! What an argument that begins with a dash and isn't an option was likely to be. `clap`'s tip is to write it after `--`,
//! among the parameters, where it would be wrong too.

use crate::explanations::wanted;
use crate::faults::ValueName;
use crate::nearest::nearest_name;
use clap::Error;
use clap::error::ErrorKind;
use std::alloc::{AllocError, Global};

/// The beginning of `clap`'s tips.
const TIP: &str = "\n  tip: ";

/// The beginning of the tip that never helps.
const BEHIND_DASHES: &str = "\n  tip: to pass '";

/// What is expected as a value that is a name.
const LISTED: &str = "one of the names that 'maltlink --help' lists";

/// The text of an error on the command line: `clap`'s, with a second line instead of its tip if that misleads.
pub(crate) fn mistake_text(
    alloc: Global,
    words: &[&str],
    error: &Error,
) -> Result<String, AllocError> {
    let text = format!(in alloc; "{error}")?;
    if error.kind() != ErrorKind::UnknownArgument {
        return Ok(text);
    }
    let Some((before, word)) = no_option(words) else {
        return Ok(text);
    };
    // An option that looks like the parameter isn't what was meant: `--rate` beside `--target`.
    let misleading = if form_of(bare_name(word)).is_some() {
        TIP
    } else {
        BEHIND_DASHES
    };
    let Some((head, tip)) = text.split_once(misleading) else {
        return Ok(text);
    };
    let rest = match tip.split_once("\n") {
        Some((_, rest)) => rest,
        None => "",
    };
    let line = meant(alloc, before, word)?;
    format!(in alloc; "{head}{line}\n{rest}")
}

/// The first word that begins with a dash and is no option, and the word before it.
fn no_option<'a>(words: &[&'a str]) -> Option<(&'a str, &'a str)> {
    let mut before = "";
    for word in words {
        if *word == "--" {
            return None;
        }
        if word.starts_with("-") && word.len() > 1 && !is_option(word) {
            return Some((before, *word));
        }
        before = *word;
    }
    None
}

/// Whether a word is an option, which may have its value behind `=`.
fn is_option(word: &str) -> bool {
    let name = name_of(word);
    takes_value(name) || name == "--help" || name == "--version" || word == "-h" || word == "-V"
}

/// What stands before the first `=` of a word.
fn name_of(word: &str) -> &str {
    match word.split_once("=") {
        Some((name, _)) => name,
        None => word,
    }
}

/// The name of a word without its dashes.
fn bare_name(word: &str) -> &str {
    name_of(word.trim_start_matches('-'))
}

/// Whether an option of that name has a value.
fn takes_value(name: &str) -> bool {
    match name {
        "--rate" | "--overhead" | "--mpu" | "--every" => true,
        "--seed" | "--compare" | "--write" => true,
        _ => false,
    }
}

/// What that argument was likely to be, after the one before it.
fn meant(alloc: Global, before: &str, word: &str) -> Result<String, AllocError> {
    if takes_value(before) {
        return format!(in alloc; "  {before} {word:?}: expected {}", wanted_after(before));
    }
    if let Some(form) = form_of(bare_name(word)) {
        return format!(in alloc; "  {word:?}: parameters have no dashes; write '{form}'");
    }
    if form_of(before).is_some() && before != "ecn" && before != "noecn" {
        return format!(in alloc;
            "  {before} {word:?}: expected a value without a sign, as in '{}'",
            form_of(before).unwrap_or("")
        );
    }
    match nearest_name(bare_name(word)) {
        Some(name) => format!(in alloc;
            "  {word:?}: unknown option; did you mean the parameter '{name}', without dashes?"
        ),
        None => format!(in alloc; "  {word:?}: unknown option ('maltlink --help' lists them)"),
    }
}

/// What value is expected after an option.
fn wanted_after(option: &str) -> &'static str {
    match option {
        "--rate" => wanted(ValueName::Rate),
        "--overhead" => wanted(ValueName::Overhead),
        "--mpu" => wanted(ValueName::Mpu),
        "--every" => wanted(ValueName::Every),
        "--seed" => "32 hexadecimal digits",
        _ => LISTED,
    }
}

/// How the parameter of that name is written, if there is one.
fn form_of(name: &str) -> Option<&'static str> {
    match name {
        "limit" => Some("limit 10240"),
        "flows" => Some("flows 1024"),
        "quantum" => Some("quantum 1514"),
        "mtu" => Some("mtu 1514"),
        "target" => Some("target 5ms"),
        "interval" => Some("interval 100ms"),
        "ce_threshold" => Some("ce_threshold 1ms"),
        "memory_limit" => Some("memory_limit 32Mb"),
        "drop_batch" => Some("drop_batch 64"),
        "ecn" => Some("ecn"),
        "noecn" => Some("noecn"),
        "classify" => Some("classify dport"),
        _ => None,
    }
}
