//! A run over as many flows as there may be.

use crate::packets::{FLOWS, SEED, greatest, params_of};
use std::alloc::{AllocError, Global};
use std::process::Abort;
use std::str;
use trace_core::run;

/// The length of a packet, and that of all packets, in bytes.
const LENGTH: u32 = 100;

const BYTES: u32 = FLOWS * LENGTH;

/// A packet for each flow, then a dequeue for each packet, and one more.
fn trace_of_flows(alloc: Global) -> Result<String, AllocError> {
    let mut trace = String::new(alloc);
    for dport in 0..FLOWS {
        writeln!(trace, "enq,0,17,10.0.0.1,10.0.0.2,5000,{dport},{LENGTH},0")?;
    }
    for _ in 0..=FLOWS {
        trace.push_str("deq,1\n")?;
    }
    Ok(trace)
}

/// What the run of that trace gives: the packets are sent in the order in which they came.
fn report_of_flows(alloc: Global) -> Result<String, AllocError> {
    let mut report = String::new(alloc);
    for id in 0..FLOWS {
        writeln!(report, "accepted,{id},{id}")?;
    }
    for id in 0..FLOWS {
        writeln!(report, "sent,{id},0")?;
    }
    writeln!(report, "idle")?;
    writeln!(
        report,
        "totals,{FLOWS},{BYTES},{FLOWS},{BYTES},0,0,0,0,0,0,0,open"
    )?;
    for flow in 0..FLOWS {
        writeln!(
            report,
            "tuple,17,10.0.0.1,10.0.0.2,5000,{flow},{flow},1,1,0,0"
        )?;
    }
    Ok(report)
}

#[test]
fn many_flows_take_turns(rt: HostRuntime) {
    take_turns(&rt);
}

fn take_turns(rt: &(impl Abort + AllocGlobal)) {
    let trace = trace_of_flows(rt.alloc()).expect(rt, "memory");
    let report = report_of_flows(rt.alloc()).expect(rt, "memory");
    gives(rt, &trace, &report);
}

/// The run of the trace gives the report.
fn gives(rt: &(impl Abort + AllocGlobal), trace: &str, report: &str) {
    let params = params_of(rt, greatest());
    let mut written = Vec::new(rt.alloc());
    let mut reader = trace.as_bytes();
    let ended = run(rt.alloc(), &mut reader, &mut written, params, SEED);
    assert!(rt; ended.is_ok());
    assert!(rt; str::from_utf8(&written).ok() == Some(report));
}
