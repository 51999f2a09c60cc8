//! Texts that may be written to a terminal.
ghost use Rattle.std.specs.Prelude.{◌≡◌, ◌≤◌, IfOk, OnOk, string_bytes, true};
ghost use Rattle.command_core.specs.Shown.{IsShown, is_shown};

use std::alloc::{AllocError, Global};

/// The text with each control character but the line feed written as `\u{1b}`, so that no word of it moves a
/// terminal's cursor or changes its colours.
pub fn shown(alloc: Global, text: &str) -> Result<String, AllocError>
    ensures { IfOk result (λ r. IsShown (string_bytes r)) }
{
    let mut shown = String::new(alloc);
    for c in text.chars() {
        if is_shown(c) {
            push_shown(&mut shown, c)?;
        } else {
            push_number(&mut shown, c)?;
        }
    }
    Ok(shown)
}

/// Whether the character is a line feed or no control character.
fn is_shown(c: char) -> bool
    ensures { result ≡ is_shown c }
{
    c == '\n' || !c.is_control()
}

/// Adds the number of a control character, as in `\u{1b}`.
fn push_number(shown: &mut String, c: char) -> Result<(), AllocError>
    ensures { OnOk result (IsShown (string_bytes shown.old) → IsShown (string_bytes shown.new)) }
{
    let number = c as u32;
    push_shown(shown, '\\')?;
    push_shown(shown, 'u')?;
    push_shown(shown, '{')?;
    push_shown(shown, digit(number / 16 % 16))?;
    push_shown(shown, digit(number % 16))?;
    push_shown(shown, '}')?;
    Ok(())
}

/// Adds a character that is shown.
fn push_shown(shown: &mut String, c: char) -> Result<(), AllocError>
    requires { is_shown c ≡ true }
    ensures { OnOk result (IsShown (string_bytes shown.old) → IsShown (string_bytes shown.new)) }
{
    shown.push(c)?;
    Ok(())
}

/// A hexadecimal digit.
fn digit(value: u32) -> char
    requires { value ≤ 15 }
    ensures { is_shown result ≡ true }
{
    if value < 10 {
        (b'0' + value as u8) as char
    } else {
        (b'a' - 10 + value as u8) as char
    }
}
