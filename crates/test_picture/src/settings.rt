//! The settings of a run in its picture, and its marks and drops by cause.

use crate::journals::Fate::{Dropped, Lost, Marked, Sent};
use crate::journals::{Given, has_all, journal, picture};
use link_picture::{Settings, picture_text};
use packet_core::{Classify, EcnUse, ParamFields, Params};

/// All parameters are shown with their values, as a command line has them, and so are the settings of the link.
#[test]
fn all_settings(rt: HostRuntime) {
    let mut fields = ParamFields::standard();
    fields.limit = 1_000;
    fields.flows = 16;
    fields.quantum = 300;
    fields.mtu = 0;
    fields.target = 4_999;
    fields.interval = 2_000_000;
    fields.ce_threshold = Some(1_000);
    fields.memory_limit = Some(33_554_432);
    fields.drop_batch = 8;
    fields.ecn = EcnUse::Drop;
    fields.classify = Classify::Dport;
    let settings = Settings {
        rate: 10_000_000,
        overhead: 24,
        mpu: 84,
        every: 5_000_000,
        params: Params::try_new(fields).ok().expect(&rt, "parameters"),
    };
    let text = picture_text(rt.alloc(), &settings, &[], None).expect(&rt, "memory");
    let parts = [
        ">limit 1000 flows 16 quantum 300 mtu 0 target 4999us interval 2s</text>",
        ">ce_threshold 1ms memory_limit 33554432 drop_batch 8 noecn classify dport; \
        --overhead 24 --mpu 84 --every 5s</text>",
    ];
    has_all(&rt, str::from_utf8(&text).unwrap_or(""), &parts);
}

/// Three bins of a millisecond: CoDel drops a packet in the first, a queue overflows in the second, and CoDel marks two
/// packets in the third. Each cause has a row of ticks and a number in the legend.
#[test]
fn causes_and_marks(rt: HostRuntime) {
    let packets = [
        Given(0, 443, 100, Sent(0)),
        Given(0, 443, 100, Dropped(500)),
        Given(0, 443, 100, Lost(1_500)),
        Given(0, 443, 100, Marked(2_000)),
        Given(0, 443, 100, Marked(2_001)),
    ];
    let text = picture(&rt, &journal(&rt, &packets), None);
    let parts = [
        "<path d=\"M80 846v3\" stroke=\"#0072b2\" stroke-width=\"2\"/>",
        "<path d=\"M385 872v3\" stroke=\"#0072b2\" stroke-width=\"2\"/>",
        "<path d=\"M690 898v3\" stroke=\"#0072b2\" stroke-width=\"2\"/>",
        ">CoDel drops</text>",
        ">overflow</text>",
        ">CE marks</text>",
        ">drops: 1 CoDel, 1 overflow; CE: 2</text>",
    ];
    has_all(&rt, &text, &parts);
    assert_eq!(rt; text.split("v3\" stroke=").skip(1).count(), 3);
}

/// Lines that lie on one another differ in their dashes too, for each five-tuple and each queue. The lines with gaps are
/// drawn on those before them.
#[test]
fn dashes_of_overlapping_lines(rt: HostRuntime) {
    let mut packets = Vec::new(rt.alloc());
    for flow in 0..7u16 {
        for moment in [0, 1_000] {
            packets
                .push(Given(moment, flow, 1_000, Sent(moment)))
                .ok()
                .expect(&rt, "memory");
        }
    }
    let events = journal(&rt, &packets);
    let text = picture(&rt, &events, Some(&events));
    let mut rest = text.as_str();
    for look in [
        "\"#777777\" stroke-width=\"2\" points",
        "\"#0072b2\" stroke-width=\"2\" points",
        "\"#d55e00\" stroke-width=\"2\" stroke-dasharray=\"12 3\" points",
        "\"#009e73\" stroke-width=\"2\" stroke-dasharray=\"12 3 3 3\" points",
        "\"#cc79a7\" stroke-width=\"2\" stroke-dasharray=\"7 3\" points",
        "\"#e69f00\" stroke-width=\"2\" stroke-dasharray=\"7 3 2 3\" points",
        "\"#56b4e9\" stroke-width=\"2\" stroke-dasharray=\"12 3 3 3 3 3\" points",
        "\"#444444\" stroke-width=\"1.3\" stroke-dasharray=\"1 2\" points",
        "\"#004470\" stroke-width=\"1.3\" stroke-dasharray=\"5 3\" points",
        "\"#8a3d00\" stroke-width=\"1.3\" stroke-dasharray=\"3 3\" points",
        "\"#00634a\" stroke-width=\"1.3\" stroke-dasharray=\"5 3 1 3\" points",
        "\"#8c4770\" stroke-width=\"1.3\" stroke-dasharray=\"2 2\" points",
        "\"#8f6200\" stroke-width=\"1.3\" stroke-dasharray=\"3 3 1 3\" points",
        "\"#24749f\" stroke-width=\"1.3\" stroke-dasharray=\"5 3 1 3 1 3\" points",
    ] {
        let behind = rest.split_once(look);
        assert!(rt; behind.is_some(), "{look}");
        if let Some((_, behind)) = behind {
            rest = behind;
        }
    }
}
