//! Rates, worked out by hand: a byte has 8 bits, `ki` is 1,024, and a part of a bit is left out.

use link_command::read_rate;

#[test]
fn rates(rt: HostRuntime) {
    for (text, wanted) in [
        ("10mbit", 10_000_000),
        ("20Mbit", 20_000_000),
        ("1.5mbit", 1_500_000),
        ("1250kbps", 10_000_000),
        ("1000", 1_000),
        ("1000.999999999", 1_000),
        ("8BPS", 64),
        ("2MiBit", 2_097_152),
        ("1kibps", 8_192),
        ("0.5Kibit", 512),
        ("1.000000001gbit", 1_000_000_001),
        ("0.123456789tbit", 123_456_789_000),
        ("0.000000001gbps", 8),
        ("0.999999999kbit", 999),
        ("2.999999999TIBPS", 26_388_279_057_827),
        ("18446744073709551616.5", u64::MAX),
        ("18446744073709551615.5bit", u64::MAX),
        ("18446744073709551.999mbit", u64::MAX),
        ("000000000000000000000000000001.250000000kbit", 1_250),
    ] {
        assert_eq!(rt; read_rate(text), Some(wanted), "{text}");
    }
}

/// A point has digits on both sides, and at most nine behind it. A unit stands at once behind them.
#[test]
fn texts_that_are_no_rates(rt: HostRuntime) {
    for text in [
        "",
        "mbit",
        ".",
        "1.",
        "1.mbit",
        ".5mbit",
        "1.5.5mbit",
        "1,5mbit",
        "1. 5mbit",
        "1.5 mbit",
        "+1mbit",
        "-1mbit",
        "1.0000000000mbit",
        "1.1234567890",
        "1e6",
        "1mbits",
        "1mibits",
        "1m",
        "1.5m",
        "0x10",
        "1kibit ",
        "1\u{212a}bit",
    ] {
        assert_eq!(rt; read_rate(text), None, "{text}");
    }
}
