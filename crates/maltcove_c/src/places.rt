//! Where the words of a text stand. A word is what stands between blanks, which are ASCII's white space.

ghost use Rattle.std.specs.Prelude.{◌≡◌, ◌≤◌, length};
ghost use Rattle.maltcove_c.specs.Places.{blanks_in_front, bytes_in_front, first_word_end, word_start};

/// How many blanks a text begins with.
fn blanks_in_front(text: &[u8]) -> usize
    ensures value { result ≡ blanks_in_front text.now }
    ensures within { result ≤ length text.now }
{
    text.iter()
        .take_while(|byte| byte.is_ascii_whitespace())
        .count()
}

/// How many bytes of a text stand before its first blank.
pub(crate) fn bytes_in_front(text: &[u8]) -> usize
    ensures value { result ≡ bytes_in_front text.now }
    ensures within { result ≤ length text.now }
{
    text.iter()
        .take_while(|byte| !byte.is_ascii_whitespace())
        .count()
}

/// Where the first word of a text ends.
fn first_word_end(text: &[u8]) -> usize
    ensures value { result ≡ first_word_end text.now }
    ensures within { result ≤ length text.now }
{
    let start = blanks_in_front(text);
    start + bytes_in_front(&text[start..])
}

/// Where the word of a text begins that comes after so many others, and the end of the text where there are no more.
pub(crate) fn word_start(text: &[u8], others: usize) -> usize
    ensures value { result ≡ word_start others text.now }
    ensures within { result ≤ length text.now }
{
    let mut from = 0;
    for _ in 0..others {
        from += first_word_end(&text[from..]);
    }
    from + blanks_in_front(&text[from..])
}
