//! Which links and which arrivals there may be.

use crate::runs::arrival;
use link_core::{Arrival, Link, LinkFields, LinkName, MAX_ARRIVAL_MOMENT, MAX_ARRIVALS};

/// Each field at both ends of its range, and one beyond. The first field that is out of range is named.
#[test]
fn ranges(rt: HostRuntime) {
    let named = |rate: u64, overhead: u32, mpu: u32| {
        Link::try_new(LinkFields {
            rate,
            overhead,
            mpu,
        })
        .err()
    };
    assert_eq!(rt; named(1_000, 0, 0), None);
    assert_eq!(rt; named(1_000_000_000_000, 1_000, 65_535), None);
    assert_eq!(rt; named(999, 1_001, 0), Some(LinkName::Rate));
    assert_eq!(rt; named(1_000_000_000_001, 0, 0), Some(LinkName::Rate));
    assert_eq!(rt; named(1_000, 1_001, 65_536), Some(LinkName::Overhead));
    assert_eq!(rt; named(1_000, 1_000, 65_536), Some(LinkName::Mpu));
}

/// The names as messages have them.
#[test]
fn names(rt: HostRuntime) -> Result<(), std::test::Fail> {
    let names = format!(in rt.alloc();
        "{} {} {}",
        LinkName::Rate,
        LinkName::Overhead,
        LinkName::Mpu
    )?;
    assert_eq!(rt; names.as_str(), "rate overhead mpu");
    Ok(())
}

/// Equal moments may be, falling ones and those of 2^59 or more not.
#[test]
fn arrivals(rt: HostRuntime) {
    let at = |moment: u64| arrival(&rt, moment, 443, 100);
    assert!(rt; Arrival::may_come(&[]));
    assert!(rt; Arrival::may_come(&[at(5), at(5), at(MAX_ARRIVAL_MOMENT - 1)]));
    assert!(rt; !Arrival::may_come(&[at(5), at(4)]));
    assert!(rt; !Arrival::may_come(&[at(5), at(MAX_ARRIVAL_MOMENT)]));
    assert_eq!(rt; MAX_ARRIVAL_MOMENT, 576_460_752_303_423_488);
    assert_eq!(rt; MAX_ARRIVALS, 1_073_741_824);
}
