//! Which parameter a mistyped word was likely to be.

/// The names of all parameters.
const NAMES: &[&str] = &[
    "limit",
    "flows",
    "quantum",
    "mtu",
    "target",
    "interval",
    "ce_threshold",
    "memory_limit",
    "drop_batch",
    "ecn",
    "noecn",
    "classify",
];

/// At most so many letters of a mistyped word may be wrong.
const MOST_WRONG: usize = 3;

/// The parameter whose name differs least from a word, if that is little enough for a typing error: the two are the same
/// but for one stretch of at most three letters, and of about a third of a short name. Of two such names it is the first.
pub(crate) fn nearest_name(word: &str) -> Option<&'static str> {
    let mut nearest = None;
    let mut least = MOST_WRONG.saturating_add(1);
    for name in NAMES {
        let wrong = difference(word.as_bytes(), name.as_bytes());
        let allowed = name.len().saturating_add(1) / 3;
        if wrong < least && wrong <= allowed {
            least = wrong;
            nearest = Some(*name);
        }
    }
    nearest
}

/// The length of the stretch in which two words differ: what the longer one has between their common beginning and their
/// common end. A letter that is missing, doubled or wrong makes 1, and two that are swapped make 2.
fn difference(one: &[u8], other: &[u8]) -> usize {
    let begin = common_beginning(one, other);
    let longer = one.len().max(other.len()).saturating_sub(begin);
    let shorter = one.len().min(other.len()).saturating_sub(begin);
    longer.saturating_sub(common_end(one, other, shorter))
}

/// The length of the common beginning of two words.
fn common_beginning(one: &[u8], other: &[u8]) -> usize {
    let mut length = 0usize;
    for letter in one {
        match other.get(length) {
            Some(found) if *found == *letter => length = length.saturating_add(1),
            _ => return length,
        }
    }
    length
}

/// The length of the common end of two words, and at most that one.
fn common_end(one: &[u8], other: &[u8], most: usize) -> usize {
    let mut length = 0usize;
    for letter in one.iter().rev() {
        let place = other.len().saturating_sub(length).saturating_sub(1);
        match other.get(place) {
            Some(found) if *found == *letter && length < most => {
                length = length.saturating_add(1);
            }
            _ => return length,
        }
    }
    length
}
