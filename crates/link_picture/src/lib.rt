//! The picture of a link's run, as the text of an SVG: the longest delay in each bin of time, the distribution of delays,
//! the throughput, drops and marks, of the five-tuples with most packets by name and of all others together.
#![tactic(auto)]

mod axis;
mod bins;
mod content;
mod counts;
mod curves;
mod layout;
mod legend;
mod lines;
mod looks;
mod octaves;
mod panels;
mod picture;
mod points;
mod scales;
mod settings;
mod svg;
mod ticks;
mod wording;

pub use axis::{Axis, MAX_BINS};
pub use bins::{Bin, bins_of};
pub use content::Content;
pub use counts::Counts;
pub use curves::{Curve, curves_of};
pub use layout::{
    PANEL_HEIGHT, PANEL_LEFT, PANEL_WIDTH, PICTURE_HEIGHT, PICTURE_WIDTH, RATE_BOTTOM,
    SHARE_BOTTOM, TICKS_TOP, WAIT_BOTTOM,
};
pub use lines::{MAX_NAMED, choose, line_of, packets_on};
pub use octaves::octave;
pub use picture::{picture_text, picture_text_of};
pub use points::{Point, rate_points, share_points, wait_points};
pub use scales::{RateScale, WaitScale};
pub use settings::Settings;
