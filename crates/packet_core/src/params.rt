//! The parameters of a scheduler and their ranges.

ghost use Rattle.std.specs.Prelude.{◌≡◌, ◌↔◌, IsOk, IfOk, IfErr, IfSome};
ghost use Rattle.packet_core.specs.Params.{IsLimitInRange, IsFlowsInRange, IsQuantumInRange, IsMtuInRange, IsTargetInRange, IsIntervalInRange, IsCeThresholdInRange, IsMemoryLimitInRange, IsDropBatchInRange};

use std::marker::Model;
use thiserror::Error;

/// Whether packets are marked in place of being dropped (tc-fq_codel(8), `ecn` and `noecn`).
#[derive(Clone, Copy, Debug, PartialEq, Eq, Hash)]
pub enum EcnUse {
    /// Every packet is dropped that CoDel would drop.
    Drop,
    /// A packet whose sender takes part in ECN is marked and sent instead.
    Mark,
}

/// How the flow of a packet is found from its five-tuple.
#[derive(Clone, Copy, Debug, PartialEq, Eq, Hash)]
pub enum Classify {
    /// By a hash of the whole five-tuple behind a seed (RFC 8290, section 4.1): the first eight bytes of their digest
    /// under SHA-256 (FIPS 180-4), as a number with its high byte first, modulo the number of flows.
    Hash,
    /// By the destination port alone, modulo the number of flows.
    Dport,
}

/// A parameter that has a range, in the order in which the ranges are tested.
#[derive(Clone, Copy, Debug, PartialEq, Eq, Hash, Error)]
pub enum ParamName {
    /// The most packets that wait.
    #[error("limit")]
    Limit,
    /// The number of flows.
    #[error("flows")]
    Flows,
    /// The bytes of a turn.
    #[error("quantum")]
    Quantum,
    /// The bytes behind a packet that aren't enough for a drop.
    #[error("mtu")]
    Mtu,
    /// The wait that isn't too long.
    #[error("target")]
    Target,
    /// The time before the first drop.
    #[error("interval")]
    Interval,
    /// The wait above which a packet is marked that CoDel doesn't mark.
    #[error("ce_threshold")]
    CeThreshold,
    /// The most bytes that wait.
    #[error("memory_limit")]
    MemoryLimit,
    /// The most packets that the fattest flow loses at once.
    #[error("drop_batch")]
    DropBatch,
}

/// The parameters as they are written down (tc-fq_codel(8)), in range or not.
#[derive(Clone, Copy, Debug, PartialEq, Eq, Hash)]
pub struct ParamFields {
    /// The most packets that wait, in all flows together.
    pub limit: u32,
    /// How many flows there are.
    pub flows: u32,
    /// The bytes that a flow sends before the next one has its turn.
    pub quantum: u32,
    /// Where no more than this many bytes wait behind a packet, the packet isn't dropped.
    pub mtu: u32,
    /// A packet that waited less than this, in microseconds, isn't dropped.
    pub target: u64,
    /// How long packets wait too long before the first one is dropped, in microseconds.
    pub interval: u64,
    /// A packet that waited longer than this, in microseconds, is marked when it is sent, if it is ECT(0) or ECT(1) and
    /// CoDel doesn't mark it. None where no wait is too long for that.
    pub ce_threshold: Option<u64>,
    /// The most bytes of packets that wait, in all flows together. None where they aren't limited.
    pub memory_limit: Option<u64>,
    /// The most packets that the fattest flow loses at once, where too much waits.
    pub drop_batch: u32,
    /// Whether packets are marked in place of being dropped.
    pub ecn: EcnUse,
    /// How the flow of a packet is found.
    pub classify: Classify,
}

impl ParamFields {
    ghost use Rattle.packet_core.specs.Params.{AreInRange, standard_fields};

    /// The parameters where nothing else is said (tc-fq_codel(8)).
    pub fn standard() -> ParamFields
        ensures value { result ≡ standard_fields }
        ensures range { AreInRange result }
    {
        ParamFields {
            limit: 10_240,
            flows: 1_024,
            quantum: 1_514,
            mtu: 1_514,
            target: 5_000,
            interval: 100_000,
            ce_threshold: None,
            memory_limit: None,
            drop_batch: 64,
            ecn: EcnUse::Mark,
            classify: Classify::Hash,
        }
    }
}

/// The parameters of a scheduler, each in its range.
#[derive(Clone, Copy, Debug, PartialEq, Eq, Hash)]
pub struct Params {
    fields: ParamFields,
}

impl Model for Params {
    ghost use Rattle.packet_core.specs.declared.params.ParamFields.{ParamFields};
    ghost use Rattle.packet_core.specs.Params.{AreInRange};

    ghost Value = { ParamFields };

    ghost view = { λ p. p.fields };

    ghost invariant = { λ p. AreInRange p.fields };

    ghost inverse = { λ v. record { fields = v } };
}

impl Params {
    ghost use Rattle.std.specs.Prelude.{if◌then◌else◌, None, Some};
    ghost use Rattle.packet_core.specs.Params.{AreInRange, IsFirstOutOfRange, standard_fields};
    ghost use Rattle.packet_core.specs.Words.{is_in_range, with_value};

    /// The parameters where nothing else is said (tc-fq_codel(8)).
    pub fn standard() -> Params
        ensures { result ≡ standard_fields }
    {
        Params {
            fields: ParamFields::standard(),
        }
    }

    /// The parameters, where each is in its range. Otherwise it names the first that isn't.
    pub fn try_new(fields: ParamFields) -> Result<Params, ParamName>
        ensures ranges { IsOk result ↔ AreInRange fields }
        ensures value { IfOk result (λ params. params ≡ fields) }
        ensures first { IfErr result (λ name. IsFirstOutOfRange name fields) }
    {
        if fields.limit < 1 || fields.limit > 1_048_576 {
            return Err(ParamName::Limit);
        }
        if fields.flows < 1 || fields.flows > 65_536 {
            return Err(ParamName::Flows);
        }
        if fields.quantum < 1 || fields.quantum > 1_000_000 {
            return Err(ParamName::Quantum);
        }
        if fields.mtu > 65_535 {
            return Err(ParamName::Mtu);
        }
        if fields.target > 1_000_000_000 {
            return Err(ParamName::Target);
        }
        if fields.interval < 1 || fields.interval > 1_000_000_000 {
            return Err(ParamName::Interval);
        }
        if fields.ce_threshold.is_some_and(|time| time > 1_000_000_000) {
            return Err(ParamName::CeThreshold);
        }
        if fields
            .memory_limit
            .is_some_and(|bytes| bytes < 1 || bytes > 1 << 40)
        {
            return Err(ParamName::MemoryLimit);
        }
        if fields.drop_batch < 1 || fields.drop_batch > 1_048_576 {
            return Err(ParamName::DropBatch);
        }
        Ok(Params { fields })
    }

    /// The most packets that wait, from 1 to 1,048,576.
    pub fn limit(&self) -> u32
        ensures value { result ≡ self.now.limit }
        ensures range { IsLimitInRange result }
    {
        self.fields.limit
    }

    /// How many flows there are, from 1 to 65,536.
    pub fn flows(&self) -> u32
        ensures value { result ≡ self.now.flows }
        ensures range { IsFlowsInRange result }
    {
        self.fields.flows
    }

    /// The bytes of a turn, from 1 to 1,000,000.
    pub fn quantum(&self) -> u32
        ensures value { result ≡ self.now.quantum }
        ensures range { IsQuantumInRange result }
    {
        self.fields.quantum
    }

    /// The bytes behind a packet that aren't enough for a drop, up to 65,535.
    pub fn mtu(&self) -> u32
        ensures value { result ≡ self.now.mtu }
        ensures range { IsMtuInRange result }
    {
        self.fields.mtu
    }

    /// The wait that isn't too long, in microseconds, up to 1,000 seconds.
    pub fn target(&self) -> u64
        ensures value { result ≡ self.now.target }
        ensures range { IsTargetInRange result }
    {
        self.fields.target
    }

    /// The time before the first drop, in microseconds, from 1 to 1,000 seconds.
    pub fn interval(&self) -> u64
        ensures value { result ≡ self.now.interval }
        ensures range { IsIntervalInRange result }
    {
        self.fields.interval
    }

    /// The wait, in microseconds, up to 1,000 seconds, above which a packet is marked when it is sent, if it is ECT(0)
    /// or ECT(1) and CoDel doesn't mark it. None where no wait is too long for that.
    pub fn ce_threshold(&self) -> Option<u64>
        ensures value { result ≡ self.now.ce_threshold }
        ensures range { IfSome result IsCeThresholdInRange }
    {
        self.fields.ce_threshold
    }

    /// The most bytes of packets that wait, from 1 to 2^40. None where they aren't limited.
    pub fn memory_limit(&self) -> Option<u64>
        ensures value { result ≡ self.now.memory_limit }
        ensures range { IfSome result IsMemoryLimitInRange }
    {
        self.fields.memory_limit
    }

    /// The most packets that the fattest flow loses at once, from 1 to 1,048,576.
    pub fn drop_batch(&self) -> u32
        ensures value { result ≡ self.now.drop_batch }
        ensures range { IsDropBatchInRange result }
    {
        self.fields.drop_batch
    }

    /// Whether packets are marked in place of being dropped.
    pub fn ecn(&self) -> EcnUse
        ensures { result ≡ self.now.ecn }
    {
        self.fields.ecn
    }

    /// How the flow of a packet is found.
    pub fn classify(&self) -> Classify
        ensures { result ≡ self.now.classify }
    {
        self.fields.classify
    }

    /// The same parameters with this use of ECN.
    pub(crate) fn with_ecn(self, ecn: EcnUse) -> Params
        ensures { result ≡ record self { ecn = ecn } }
    {
        Params {
            fields: ParamFields { ecn, ..self.fields },
        }
    }

    /// The same parameters with flows found in this way.
    pub(crate) fn with_classify(self, classify: Classify) -> Params
        ensures { result ≡ record self { classify = classify } }
    {
        Params {
            fields: ParamFields {
                classify,
                ..self.fields
            },
        }
    }

    /// The same parameters with one of them at this value, if it is in its range.
    pub(crate) fn with_value(self, name: ParamName, value: u64) -> Option<Params>
        ensures { result ≡ (if is_in_range name value then Some (with_value name value self) else None) }
    {
        let mut fields = self.fields;
        match name {
            ParamName::Limit => fields.limit = u32::try_from(value).ok()?,
            ParamName::Flows => fields.flows = u32::try_from(value).ok()?,
            ParamName::Quantum => fields.quantum = u32::try_from(value).ok()?,
            ParamName::Mtu => fields.mtu = u32::try_from(value).ok()?,
            ParamName::Target => fields.target = value,
            ParamName::Interval => fields.interval = value,
            ParamName::CeThreshold => fields.ce_threshold = Some(value),
            ParamName::MemoryLimit => fields.memory_limit = Some(value),
            ParamName::DropBatch => fields.drop_batch = u32::try_from(value).ok()?,
        }
        Params::try_new(fields).ok()
    }
}
