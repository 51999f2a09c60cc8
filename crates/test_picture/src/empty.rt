//! Pictures of runs in which no packet arrived.

ghost use Rattle.std.specs.Prelude.{◌≤◌, IfSome, length};

use crate::journals::{has_all, settings};
use journal_core::Event;
use link_picture::picture_text;
use link_report::MAX_EVENTS;
use std::process::Abort;

/// The title names those queues, the settings are below it, and the first panel says that no packet arrived. Nothing else
/// is drawn.
fn shows_no_packet<R: Abort + AllocGlobal>(rt: &R, fifo: Option<&[Event]>, queues: &str)
    requires { IfSome fifo (λ events. length events.now ≤ MAX_EVENTS) }
{
    let text = picture_text(rt.alloc(), &settings(10_000_000), &[], fifo).expect(rt, "memory");
    let text = str::from_utf8(&text).ok().expect(rt, "a text");
    let wanted = format!(in rt.alloc();
        "<svg xmlns=\"http://www.w3.org/2000/svg\" width=\"1010\" height=\"970\" \
         viewBox=\"0 0 1010 970\" font-family=\"sans-serif\" font-size=\"12\">\n\
         <title>{queues} before a 10 Mbit/s link: 0 packets</title>\n\
         <rect width=\"1010\" height=\"970\" fill=\"#fff\"/>\n\
         <text x=\"80\" y=\"27\" text-anchor=\"start\" font-size=\"16\" font-weight=\"bold\">\
         {queues} before a 10 Mbit/s link: 0 packets</text>\n\
         <text x=\"80\" y=\"46\" text-anchor=\"start\" font-size=\"11\" fill=\"#444\">\
         limit 10240 flows 1024 quantum 1514 mtu 1514 target 5ms interval 100ms</text>\n\
         <text x=\"80\" y=\"60\" text-anchor=\"start\" font-size=\"11\" fill=\"#444\">\
         drop_batch 64 ecn classify hash; --overhead 0 --mpu 0 --every 1ms</text>\n\
         <rect x=\"80\" y=\"90\" width=\"610\" height=\"190\" fill=\"none\" stroke=\"#444\"/>\n\
         <text x=\"385\" y=\"189\" text-anchor=\"middle\">no packet arrived</text>\n</svg>\n"
    )
    .expect(rt, "memory");
    assert_eq!(rt; text, wanted.as_str());
}

/// Of the scheduler alone, and beside a FIFO, whose name stands in the title then.
#[test]
fn says_that_no_packet_arrived(rt: HostRuntime) {
    shows_no_packet(&rt, None, "fq_codel");
    shows_no_packet(&rt, Some(&[]), "fq_codel and fifo (dashed)");
}

/// The rate of a link in the greatest unit in which it is whole.
#[test]
fn rates_of_links(rt: HostRuntime) {
    for (rate, wanted) in [
        (1_001, " 1001 bit/s link: 0 packets</title>"),
        (512_000, " 512 kbit/s link: 0 packets</title>"),
        (64_000_000, " 64 Mbit/s link: 0 packets</title>"),
        (2_000_000_000, " 2 Gbit/s link: 0 packets</title>"),
    ] {
        let text = picture_text(rt.alloc(), &settings(rate), &[], None).expect(&rt, "memory");
        has_all(&rt, str::from_utf8(&text).unwrap_or(""), &[wanted]);
    }
}
