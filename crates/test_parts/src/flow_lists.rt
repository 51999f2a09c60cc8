//! The lists of new and of old flows, against plain lists.

use crate::queued::next;
use flow_core::Flows;
use std::process::Abort;

/// One of the four moves, where there is a flow for it.
fn make_move(flows: &mut Flows, which: u64, flow: u32) {
    match which {
        0 => {
            if flow < flows.flows() && !flows.listed(flow) {
                flows.add_new(flow);
            }
        }
        1 => {
            if flows.head_new().is_some() {
                flows.new_to_old();
            }
        }
        2 => {
            if flows.head_old().is_some() {
                flows.rotate_old();
            }
        }
        _ => {
            if flows.head_old().is_some() {
                flows.leave_old();
            }
        }
    }
}

/// The same of two plain lists.
fn make_plain_move(rt: &impl Abort, new: &mut Vec<u32>, old: &mut Vec<u32>, which: u64, flow: u32) {
    match which {
        0 => {
            if !new.contains(&flow) && !old.contains(&flow) {
                new.push(flow).expect(rt, "memory");
            }
        }
        1 => {
            if !new.is_empty() {
                old.push(new.remove(0)).expect(rt, "memory");
            }
        }
        2 => {
            if !old.is_empty() {
                let first = old.remove(0);
                old.push(first).expect(rt, "memory");
            }
        }
        _ => {
            if !old.is_empty() {
                let _ = old.remove(0);
            }
        }
    }
}

/// A thousand moves of five flows, and the same of two plain lists.
fn compare_moves(rt: &impl Abort, flows: &mut Flows, new: &mut Vec<u32>, old: &mut Vec<u32>) {
    let mut seed = 2;
    for _ in 0..1000 {
        let (after, random) = next(seed);
        seed = after;
        let flow = (random % 5) as u32;
        let which = random / 5 % 5 % 4;
        make_move(flows, which, flow);
        make_plain_move(rt, new, old, which, flow);
        assert_eq!(rt; flows.head_new(), new.first().copied());
        assert_eq!(rt; flows.head_old(), old.first().copied());
        assert_eq!(rt;
            flows.listed(flow),
            new.contains(&flow) || old.contains(&flow)
        );
    }
}

#[test]
fn lists_under_moves(rt: HostRuntime) {
    let mut flows = Flows::try_new(rt.alloc(), 5).expect(&rt, "memory");
    let (mut new, mut old) = (Vec::new(rt.alloc()), Vec::new(rt.alloc()));
    compare_moves(&rt, &mut flows, &mut new, &mut old);
}
