//! The settings of a run, as its picture shows them.

ghost use Rattle.std.specs.Prelude.{◌≡◌, IfOk, option_map, string_bytes};
ghost use Rattle.link_picture.specs.Settings as Spec;

use crate::wording::duration_text;
use journal_core::Memory;
use packet_core::{Classify, EcnUse, Params};
use std::alloc::Global;

/// The settings of the run that a picture shows. The seed isn't among them, since a scheduler's seed is a secret.
#[derive(Clone, Copy, Debug, PartialEq, Eq)]
pub struct Settings {
    /// The rate of the link, in bits per second.
    pub rate: u64,
    /// The bytes that each packet takes on the wire in addition to its length.
    pub overhead: u32,
    /// The minimum size of a packet on the wire, in bytes.
    pub mpu: u32,
    /// The width of a bin, in microseconds. The picture has wider ones if it would have more than `MAX_BINS`.
    pub every: u64,
    /// The parameters of the scheduler.
    pub params: Params,
}

/// The parameters of the scheduler that always have a value, up to `interval`, as a command line has them.
pub(crate) fn first_params_text(alloc: Global, params: &Params) -> Result<String, Memory>
    ensures { IfOk result (λ text. string_bytes text ≡ Spec.first_params_text params.now) }
{
    let (limit, flows) = (params.limit(), params.flows());
    let (quantum, mtu) = (params.quantum(), params.mtu());
    let target = duration_text(alloc, params.target())?;
    let interval = duration_text(alloc, params.interval())?;
    format!(in alloc;
        "limit {limit} flows {flows} quantum {quantum} mtu {mtu} target {target} interval {interval}"
    )
}

/// The other parameters, as a command line has them. Those without a value aren't shown.
pub(crate) fn last_params_text(alloc: Global, params: &Params) -> Result<String, Memory>
    ensures { IfOk result (λ text. string_bytes text ≡ Spec.last_params_text params.now) }
{
    let threshold = threshold_text(alloc, params.ce_threshold())?;
    let memory = memory_text(alloc, params.memory_limit())?;
    let rest = rest_text(alloc, params.drop_batch(), params.ecn(), params.classify())?;
    format!(in alloc; "{threshold}{memory}{rest}")
}

/// The parameters after the limit of memory.
fn rest_text(alloc: Global, batch: u32, ecn: EcnUse, classify: Classify) -> Result<String, Memory>
    ensures { IfOk result (λ text. string_bytes text ≡ Spec.rest_text batch ecn classify) }
{
    let ecn = ecn_text(alloc, ecn)?;
    let classify = classify_text(alloc, classify)?;
    format!(in alloc; "drop_batch {batch} {ecn} classify {classify}")
}

/// The threshold of marks, with a space after it, and nothing if there is none.
fn threshold_text(alloc: Global, threshold: Option<u64>) -> Result<String, Memory>
    ensures { IfOk result (λ text. string_bytes text ≡ Spec.threshold_text threshold) }
{
    match threshold {
        Some(time) => {
            let time = duration_text(alloc, time)?;
            format!(in alloc; "ce_threshold {time} ")
        }
        None => Ok(String::new(alloc)),
    }
}

/// The limit of memory, with a space after it, and nothing if there is none.
fn memory_text(alloc: Global, limit: Option<u64>) -> Result<String, Memory>
    ensures { IfOk result (λ text. string_bytes text ≡ Spec.memory_text limit) }
{
    match limit {
        Some(bytes) => format!(in alloc; "memory_limit {bytes} "),
        None => Ok(String::new(alloc)),
    }
}

/// The parameter that says whether packets are marked.
fn ecn_text(alloc: Global, ecn: EcnUse) -> Result<String, Memory>
    ensures { IfOk result (λ text. string_bytes text ≡ Spec.ecn_text ecn) }
{
    match ecn {
        EcnUse::Mark => format!(in alloc; "ecn"),
        EcnUse::Drop => format!(in alloc; "noecn"),
    }
}

/// The value that says how flows are chosen.
fn classify_text(alloc: Global, classify: Classify) -> Result<String, Memory>
    ensures { IfOk result (λ text. string_bytes text ≡ Spec.classify_text classify) }
{
    match classify {
        Classify::Hash => format!(in alloc; "hash"),
        Classify::Dport => format!(in alloc; "dport"),
    }
}

/// The settings of the link.
pub(crate) fn link_text(alloc: Global, settings: &Settings) -> Result<String, Memory>
    ensures { IfOk result (λ text. string_bytes text
        ≡ Spec.link_text settings.now.overhead settings.now.mpu settings.now.every) }
{
    let (overhead, mpu) = (settings.overhead, settings.mpu);
    let every = duration_text(alloc, settings.every)?;
    format!(in alloc; "--overhead {overhead} --mpu {mpu} --every {every}")
}
