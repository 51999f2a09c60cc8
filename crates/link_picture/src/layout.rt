//! Where the parts of a picture lie, in pixels from its left and upper edge.

/// The width of a picture.
pub const PICTURE_WIDTH: u64 = 1_010;
/// The height of a picture.
pub const PICTURE_HEIGHT: u64 = 970;
/// The left edge of each panel.
pub const PANEL_LEFT: u64 = 80;
/// The width of each panel.
pub const PANEL_WIDTH: u64 = 610;
/// The height of each panel.
pub const PANEL_HEIGHT: u64 = 190;
/// The lower edge of the panel with the longest delays.
pub const WAIT_BOTTOM: u64 = 280;
/// The lower edge of the panel with the distribution of delays.
pub const SHARE_BOTTOM: u64 = 532;
/// The lower edge of the panel with the throughput.
pub const RATE_BOTTOM: u64 = 784;
/// The upper edge of the first row of ticks for drops and marks, below the last panel.
pub const TICKS_TOP: u64 = 846;
