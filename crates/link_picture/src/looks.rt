//! How the lines of a picture look. Colours tell five-tuples apart, and so do dashes, where lines lie on one another or
//! the picture is printed in grey. The FIFO's lines are thin, dark and finely dashed, and lie on the scheduler's.

use crate::svg::Look;

/// The place of the look that all five-tuples without a name share.
const OTHERS: usize = 6;

/// How the line at the link's rate looks.
pub(crate) const LINK_LOOK: Look = Look {
    color: "#000000",
    width: "1",
    dashes: " stroke-dasharray=\"2 4\"",
    is_open: false,
};

/// How a line of a queue looks, by its number among so many five-tuples that have names. The line after these is that of
/// all others.
pub(crate) fn look_of(named: usize, line: usize, is_fifo: bool) -> Look {
    let place = if line < named { line } else { OTHERS };
    if is_fifo {
        Look {
            color: dark_color(place),
            width: "1.3",
            dashes: short_dashes(place),
            is_open: true,
        }
    } else {
        Look {
            color: color(place),
            width: "2",
            dashes: long_dashes(place),
            is_open: false,
        }
    }
}

/// How a queue's lines look in the legend, whatever their five-tuples.
pub(crate) fn queue_look(is_fifo: bool) -> Look {
    if is_fifo {
        Look {
            color: "#000000",
            width: "1.3",
            dashes: short_dashes(0),
            is_open: true,
        }
    } else {
        Look {
            color: "#000000",
            width: "2",
            dashes: "",
            is_open: false,
        }
    }
}

/// The colours of the scheduler's lines, which colour-blind readers tell apart (those of Okabe and Ito).
pub(crate) fn color(place: usize) -> &'static str {
    match place {
        0 => "#0072b2",
        1 => "#d55e00",
        2 => "#009e73",
        3 => "#cc79a7",
        4 => "#e69f00",
        5 => "#56b4e9",
        _ => "#777777",
    }
}

/// The same colours for the FIFO's lines, but darker, so that one is seen on the scheduler's line of its five-tuple.
fn dark_color(place: usize) -> &'static str {
    match place {
        0 => "#004470",
        1 => "#8a3d00",
        2 => "#00634a",
        3 => "#8c4770",
        4 => "#8f6200",
        5 => "#24749f",
        _ => "#444444",
    }
}

/// The dashes of the scheduler's lines: none, or long ones with small gaps.
fn long_dashes(place: usize) -> &'static str {
    match place {
        0 => "",
        1 => " stroke-dasharray=\"12 3\"",
        2 => " stroke-dasharray=\"12 3 3 3\"",
        3 => " stroke-dasharray=\"7 3\"",
        4 => " stroke-dasharray=\"7 3 2 3\"",
        5 => " stroke-dasharray=\"12 3 3 3 3 3\"",
        _ => "",
    }
}

/// The dashes of the FIFO's lines.
fn short_dashes(place: usize) -> &'static str {
    match place {
        0 => " stroke-dasharray=\"5 3\"",
        1 => " stroke-dasharray=\"3 3\"",
        2 => " stroke-dasharray=\"5 3 1 3\"",
        3 => " stroke-dasharray=\"2 2\"",
        4 => " stroke-dasharray=\"3 3 1 3\"",
        5 => " stroke-dasharray=\"5 3 1 3 1 3\"",
        _ => " stroke-dasharray=\"1 2\"",
    }
}
