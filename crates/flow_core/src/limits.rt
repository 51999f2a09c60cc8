//! How many flows there are at most, and the name of a refused growth.

use std::alloc::AllocError;

/// Want of memory: a growth was refused.
pub type Memory = AllocError;

/// The most flows, as in Linux's `sch_fq_codel`.
pub const MAX_FLOWS: u32 = 65_536;
