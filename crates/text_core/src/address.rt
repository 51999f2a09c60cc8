//! Addresses as text.
ghost use Rattle.std.specs.Prelude.{◌≡◌, ◌+◌, ◌≤◌, ◌∷◌, ◌++◌, length};
ghost use Rattle.std.specs.Fmt.{decimal};
ghost use Rattle.hex.specs.Hex.{encode_lower};
ghost use Rattle.text_core.specs.Texts.{address_text, dotted};

use hex::encode_to_slice;
use itoa::write_digits;
use packet_core::Ip;
use std::marker::Model;

/// The most bytes that the text of an address has: two digits for each byte of IPv6.
const MAX_TEXT: usize = 32;

/// The text of an address. It takes no memory from an allocator.
// It is written from its end, as digits are.
#[derive(Drop)]
pub struct AddressText {
    bytes: [u8; MAX_TEXT],
    start: usize,
}

impl Model for AddressText {
    ghost use Rattle.std.specs.Prelude.{ℕ, List, ◌≤◌, drop};
    ghost use Rattle.text_core.specs.declared.address.TheConstants.{MAX_TEXT};

    ghost Value = { List ℕ };

    ghost view = { λ text. drop text.start text.bytes };

    ghost invariant = { λ text. text.start ≤ MAX_TEXT };
}

impl AddressText {
    /// An address: one of IPv4 as four numbers with a dot between each two, and one of IPv6 (RFC 4291) as 32
    /// hexadecimal digits of lower case.
    pub fn of(address: Ip) -> AddressText
        ensures { result ≡ address_text address }
    {
        match address {
            Ip::V4(octets) => AddressText::dotted(octets),
            Ip::V6(octets) => AddressText::hexadecimal(octets),
        }
    }

    /// Four numbers with a dot between each two.
    fn dotted(octets: [u8; 4]) -> AddressText
        ensures { result ≡ dotted octets }
    {
        let [first, second, third, fourth] = octets;
        let mut text = AddressText::last(fourth);
        text.put_before(third);
        text.put_before(second);
        text.put_before(first);
        text
    }

    /// A number alone.
    fn last(number: u8) -> AddressText
        ensures value { result ≡ decimal number }
        ensures few { length result ≤ 3 }
    {
        let mut bytes = [0; MAX_TEXT];
        let start = write_digits(u64::from(number), &mut bytes, MAX_TEXT);
        AddressText { bytes, start }
    }

    /// A number and a dot before the text.
    fn put_before(&mut self, number: u8)
        requires { length self.old + 4 ≤ MAX_TEXT }
        ensures value { self.new ≡ decimal number ++ 46 ∷ self.old }
        ensures few { length self.new ≤ length self.old + 4 }
    {
        let dot = self.start - 1;
        self.bytes[dot] = b'.';
        self.start = write_digits(u64::from(number), &mut self.bytes, dot);
    }

    /// Two hexadecimal digits of lower case for each byte.
    fn hexadecimal(octets: [u8; 16]) -> AddressText
        ensures { result ≡ encode_lower octets }
    {
        let mut bytes = [0; MAX_TEXT];
        // It fails for an array of another length alone.
        let _ = encode_to_slice(octets, &mut bytes);
        AddressText { bytes, start: 0 }
    }

    /// The bytes of the text.
    pub fn as_bytes(&self) -> &[u8]
        ensures { result.now ≡ self.now }
    {
        &self.bytes[self.start..]
    }
}
