//! A plain queue whose lines go beyond those of the scheduler.

use crate::journals::Fate::Sent;
use crate::journals::{Given, has_all, journal, picture};

/// The bins end with the last packet of either queue. The plain queue sends its last one in bin 3, 690 pixels from the
/// left, and the scheduler in bin 1.
#[test]
fn bins_of_the_later_queue(rt: HostRuntime) {
    let fair = journal(
        &rt,
        &[
            Given(0, 443, 1_514, Sent(0)),
            Given(0, 443, 1_514, Sent(1_211)),
        ],
    );
    let plain = journal(
        &rt,
        &[
            Given(0, 443, 1_514, Sent(0)),
            Given(0, 443, 1_514, Sent(3_500)),
        ],
    );
    let parts = [
        "points=\"80,636 283,636\"",
        "points=\"80,636 283,784 486,784 690,636\"",
    ];
    has_all(&rt, &picture(&rt, &fair, Some(&plain)), &parts);
}

/// The scale of rates has the greatest one of either queue. The plain queue sends 3,028 bytes in a millisecond, which are
/// 24,224,000 bits per second, and the scheduler half of them. The scale has 5,669 steps from 1 Mbit/s on, of which these
/// are 4,645 and 3,621.
#[test]
fn rates_of_the_faster_queue(rt: HostRuntime) {
    let fair = journal(
        &rt,
        &[
            Given(0, 443, 1_514, Sent(0)),
            Given(0, 443, 1_514, Sent(1_211)),
        ],
    );
    let plain = journal(
        &rt,
        &[
            Given(0, 443, 1_514, Sent(0)),
            Given(0, 443, 1_514, Sent(900)),
        ],
    );
    has_all(
        &rt,
        &picture(&rt, &fair, Some(&plain)),
        &[
            "points=\"80,663 690,663\"",
            "<circle cx=\"80\" cy=\"629\" r=\"2\" fill=\"none\" stroke=\"#004470\"/>",
        ],
    );
}
