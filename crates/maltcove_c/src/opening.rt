//! The calls that make a scheduler and end it.

ghost use Rattle.std.specs.Prelude.{◌≡◌, ◌≢◌, ◌↔◌, ◌+◌, ◌≤◌, Err, IfErr, IfOk, IfSome, IsErr, IsOk, IsSome, None, Ok, length, map};
ghost use Rattle.std.specs.Str.{IsUtf8};
ghost use Rattle.packet_core.specs.Words.{params_of_words};
ghost use Rattle.queue_disc_core.specs.QueueDiscs.{IsDiscClosed};
ghost use Rattle.maltcove_c.specs.Calls.{Behind, IfBehind, Opens, OpensWith, RefusesClose, RefusesOpen, RefusesSeed, why_code, why_told};
ghost use Rattle.maltcove_c.specs.Records.{nothing_told};
ghost use Rattle.maltcove_c.specs.Texts.{AreWords, AreWrong, IsWhy, SaysParams};
ghost use Rattle.maltcove_c.specs.declared.status.TheConstants.{ALREADY_OPEN, NOT_OPEN, OK};

use crate::records::{MaltcoveFault, fault_of, no_fault, not_text};
use crate::scheduler::{Maltcove, put, take};
use crate::status::{ALREADY_OPEN, BAD_SEED, BAD_WORDS, MEMORY, NOT_OPEN, OK, close_code};
use packet_core::{Params, Seed, read_params};
use queue_disc_core::QueueDisc;
use sched_core::Memory;
use std::alloc::Global;
use std::str;

/// Why there are no parameters.
pub(crate) enum NoParams {
    /// A word is wrong.
    Words(MaltcoveFault),
    /// A growth was refused.
    Memory,
}

/// The words in a text.
fn words_of(alloc: Global, text: &str) -> Result<Vec<&str>, Memory>
    ensures { IfOk result (λ words. AreWords text.now (map (λ word. word.now) words.items)) }
{
    text.split_ascii_whitespace().collect(alloc)
}

/// The parameters that these words of a text say, if there was memory for the words.
fn params_from(text: &str, words: Result<Vec<&str>, Memory>) -> Result<Params, NoParams>
    ensures none { IfErr words.entry (λ refused. result ≡ Err NoParams.Memory) }
    ensures said { IfOk words.entry (λ words. IfOk result
        (λ params. params_of_words (map (λ word. word.now) words.items) ≡ Ok params)) }
    ensures wrong { IfOk words.entry (λ words. IfErr result (AreWrong text.now (map (λ word. word.now) words.items))) }
{
    let Ok(words) = words else {
        return Err(NoParams::Memory);
    };
    match read_params(&words) {
        Ok(params) => Ok(params),
        Err(fault) => Err(NoParams::Words(fault_of(text.as_bytes(), fault))),
    }
}

/// The parameters that the words in a text say.
fn params_of_text(alloc: Global, text: &str) -> Result<Params, NoParams>
    ensures said { IfOk result (SaysParams text.now) }
    ensures wrong { IfErr result (IsWhy text.now) }
{
    params_from(text, words_of(alloc, text))
}

/// The parameters that the words in these bytes say.
fn params_in(alloc: Global, text: &[u8]) -> Result<Params, NoParams>
    ensures said { IfOk result (SaysParams text.now) }
    ensures text { IfOk result (λ params. IsUtf8 text.now) }
    ensures wrong { IfErr result (IsWhy text.now) }
{
    match str::from_utf8(text) {
        Ok(text) => params_of_text(alloc, text),
        Err(_) => Err(NoParams::Words(not_text())),
    }
}

/// A scheduler with these parameters.
fn disc_with(alloc: Global, params: Params, seed: [u8; 16]) -> Option<Box<QueueDisc>>
    ensures { IfSome result (λ s. OpensWith params seed s.value) }
{
    let disc = QueueDisc::open(alloc, params, Seed(seed)).ok()?;
    Box::new(alloc, disc).ok()
}

/// A scheduler with these parameters and that seed.
fn disc_seeded(alloc: Global, params: Params, seed: &[u8]) -> Result<Box<QueueDisc>, i32>
    ensures made { IfOk result (λ s. OpensWith params seed.now s.value) }
    ensures refused { IfErr result (RefusesSeed seed.now) }
{
    let Ok(seed) = <[u8; 16]>::try_from(seed) else {
        return Err(BAD_SEED);
    };
    disc_with(alloc, params, seed).ok_or(MEMORY)
}

/// A scheduler with these parameters, if there are any, and that seed.
fn disc_of(
    alloc: Global,
    params: Result<Params, NoParams>,
    seed: &[u8],
    fault: &mut MaltcoveFault,
) -> Result<Box<QueueDisc>, i32>
    requires { fault.old ≡ nothing_told }
    ensures none { IfErr params (λ why. IsErr result × (fault.new ≡ why_told why)
        × IfErr result (λ code. code ≡ why_code why)) }
    ensures told { IfOk params (λ p. fault.new ≡ nothing_told) }
    ensures made { IfOk params (λ p. IfOk result (λ s. OpensWith p seed.now s.value)) }
    ensures refused { IfOk params (λ p. IfErr result (RefusesSeed seed.now)) }
{
    match params {
        Err(NoParams::Words(wrong)) => {
            *fault = wrong;
            Err(BAD_WORDS)
        }
        Err(NoParams::Memory) => Err(MEMORY),
        Ok(params) => disc_seeded(alloc, params, seed),
    }
}

/// A scheduler with the parameters that words say, if they do.
fn disc_said(
    alloc: Global,
    words: &[u8],
    seed: &[u8],
    fault: &mut MaltcoveFault,
) -> Result<Box<QueueDisc>, i32>
    requires { fault.old ≡ nothing_told }
    ensures made { IfOk result (λ s. Opens words.now seed.now s.value) }
    ensures told { IsOk result → fault.new ≡ nothing_told }
    ensures refused { IfErr result (RefusesOpen words.now seed.now fault.new) }
{
    let params = params_in(alloc, words);
    disc_of(alloc, params, seed, fault)
}

/// Makes a scheduler, with the parameters that words say.
#[unsafe(no_mangle)]
pub extern "C" fn maltcove_raw_open(
    alloc: Global,
    m: &mut Maltcove,
    words: &[u8],
    seed: &[u8],
    fault: &mut MaltcoveFault,
) -> i32
    ensures already { IsSome m.old.handle.value
        → (result ≡ ALREADY_OPEN) × (m.new.handle.value ≡ m.old.handle.value) × (fault.new ≡ fault.old) }
    ensures made { result ≡ OK
        → IfBehind (λ s. Opens words.now seed.now s) m.new.handle.value × IsSome m.new.handle.value
        × (m.old.handle.value ≡ None) × (fault.new ≡ nothing_told) }
    ensures refused { m.old.handle.value ≡ None → result ≢ OK → RefusesOpen words.now seed.now fault.new result }
    ensures unchanged { result ≢ OK → m.new.handle.value ≡ m.old.handle.value }
    ensures within { m.old.handle.value ≡ None → fault.new.offset + fault.new.len ≤ length words.now }
{
    if m.is_open {
        return ALREADY_OPEN;
    }
    *fault = no_fault();
    match disc_said(alloc, words, seed, fault) {
        Ok(disc) => {
            put(m, disc);
            OK
        }
        Err(code) => code,
    }
}

/// Gives all memory back.
#[unsafe(no_mangle)]
pub extern "C" fn maltcove_raw_free(alloc: Global, m: &mut Maltcove)
    ensures { m.new.handle.value ≡ None }
{
    if let Some(disc) = take(alloc, m) {
        drop(disc);
    }
}

/// Closes a scheduler.
fn end(disc: &mut QueueDisc, moment: u64) -> i32
    ensures made { result ≡ OK → IsDiscClosed disc.old moment disc.new }
    ensures refused { result ≢ OK → RefusesClose disc.old moment result }
    ensures unchanged { result ≢ OK → disc.new ≡ disc.old }
    ensures open { result ≢ NOT_OPEN }
{
    match disc.close(moment) {
        Ok(()) => OK,
        Err(fault) => close_code(fault),
    }
}

/// From here on nothing is accepted.
#[unsafe(no_mangle)]
pub extern "C" fn maltcove_raw_close(m: &mut Maltcove, moment: u64) -> i32
    ensures none { (result ≡ NOT_OPEN) ↔ (m.old.handle.value ≡ None) }
    ensures made { result ≡ OK → Behind (λ a b. IsDiscClosed a moment b) m.old.handle.value m.new.handle.value }
    ensures refused { result ≢ OK → IfBehind (λ a. RefusesClose a moment result) m.old.handle.value }
    ensures unchanged { result ≢ OK → m.new.handle.value ≡ m.old.handle.value }
{
    if !m.is_open {
        return NOT_OPEN;
    }
    end(m.handle.disc(), moment)
}
