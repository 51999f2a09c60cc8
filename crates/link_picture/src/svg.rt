//! The text of an SVG, element by element. It has the viewer's fonts, and texts without letters that need an escape.

use crate::layout::{PANEL_HEIGHT, PANEL_LEFT, PANEL_WIDTH, PICTURE_HEIGHT, PICTURE_WIDTH};
use crate::points::Point;
use journal_core::Memory;
use std::alloc::Global;

/// How a line looks.
#[derive(Clone, Copy, Debug, PartialEq, Eq)]
pub(crate) struct Look {
    /// Its colour.
    pub color: &'static str,
    /// Its width, in pixels.
    pub width: &'static str,
    /// The attribute of its dashes, with a space before it, and nothing if it is solid.
    pub dashes: &'static str,
    /// Whether the circle of a lone point is empty.
    pub is_open: bool,
}

/// Which point of a text lies at its place.
#[derive(Clone, Copy, Debug, PartialEq, Eq)]
pub(crate) enum Anchor {
    /// Its start.
    Start,
    /// Its middle.
    Middle,
    /// Its end.
    End,
}

impl Anchor {
    /// Its name in SVG.
    fn name(self) -> &'static str {
        match self {
            Anchor::Start => "start",
            Anchor::Middle => "middle",
            Anchor::End => "end",
        }
    }
}

/// How a text looks.
#[derive(Clone, Copy, Debug, PartialEq, Eq)]
pub(crate) enum Weight {
    /// The title of the picture.
    Title,
    /// The title of a panel.
    Caption,
    /// A name.
    Name,
    /// A small text.
    Small,
}

impl Weight {
    /// Its attributes.
    fn attributes(self) -> &'static str {
        match self {
            Weight::Title => " font-size=\"16\" font-weight=\"bold\"",
            Weight::Caption => " font-weight=\"bold\"",
            Weight::Name => "",
            Weight::Small => " font-size=\"11\" fill=\"#444\"",
        }
    }
}

/// An SVG, as it is written.
#[derive(Drop)]
pub(crate) struct Svg {
    text: String,
}

impl Svg {
    /// An empty picture with that title. No letter of the title needs an escape.
    pub(crate) fn open(alloc: Global, title: &str) -> Result<Svg, Memory> {
        let mut text = String::new(alloc);
        let (width, height) = (PICTURE_WIDTH, PICTURE_HEIGHT);
        write!(
            text,
            "<svg xmlns=\"http://www.w3.org/2000/svg\" width=\"{width}\" height=\"{height}\" "
        )?;
        write!(
            text,
            "viewBox=\"0 0 {width} {height}\" font-family=\"sans-serif\" font-size=\"12\">\n"
        )?;
        write!(text, "<title>{title}</title>\n")?;
        write!(
            text,
            "<rect width=\"{width}\" height=\"{height}\" fill=\"#fff\"/>\n"
        )?;
        Ok(Svg { text })
    }

    /// The text of the whole picture.
    pub(crate) fn close(self) -> Result<Vec<u8>, Memory> {
        let Svg { mut text } = self;
        text.push_str("</svg>\n")?;
        Ok(text.into_bytes())
    }

    /// A text. No letter of it needs an escape.
    pub(crate) fn label(
        &mut self,
        at: Point,
        anchor: Anchor,
        weight: Weight,
        label: &str,
    ) -> Result<(), Memory> {
        let Point { x, y } = at;
        let (anchor, attributes) = (anchor.name(), weight.attributes());
        write!(
            self.text,
            "<text x=\"{x}\" y=\"{y}\" text-anchor=\"{anchor}\"{attributes}>{label}</text>\n"
        )
    }

    /// The frame of a panel with that lower edge.
    pub(crate) fn frame(&mut self, bottom: u64) -> Result<(), Memory> {
        let (x, y) = (PANEL_LEFT, bottom.saturating_sub(PANEL_HEIGHT));
        let (width, height) = (PANEL_WIDTH, PANEL_HEIGHT);
        write!(
            self.text,
            "<rect x=\"{x}\" y=\"{y}\" width=\"{width}\" height=\"{height}\" fill=\"none\" stroke=\"#444\"/>\n"
        )
    }

    /// A thin line across a panel.
    pub(crate) fn across(&mut self, y: u64) -> Result<(), Memory> {
        let (x, width) = (PANEL_LEFT, PANEL_WIDTH);
        write!(
            self.text,
            "<path d=\"M{x} {y}h{width}\" stroke=\"#ddd\"/>\n"
        )
    }

    /// A line across a panel that looks like that.
    pub(crate) fn level(&mut self, y: u64, look: Look) -> Result<(), Memory> {
        let (x, length) = (PANEL_LEFT, PANEL_WIDTH);
        let Look {
            color,
            width,
            dashes,
            ..
        } = look;
        write!(
            self.text,
            "<path d=\"M{x} {y}h{length}\" stroke=\"{color}\" stroke-width=\"{width}\"{dashes}/>\n"
        )
    }

    /// A thin line down a panel with that lower edge.
    pub(crate) fn down(&mut self, x: u64, bottom: u64) -> Result<(), Memory> {
        let (y, height) = (bottom.saturating_sub(PANEL_HEIGHT), PANEL_HEIGHT);
        write!(
            self.text,
            "<path d=\"M{x} {y}v{height}\" stroke=\"#ddd\"/>\n"
        )
    }

    /// A short line from a point to the right, for a legend.
    pub(crate) fn sample(&mut self, at: Point, look: Look) -> Result<(), Memory> {
        let Point { x, y } = at;
        let Look {
            color,
            width,
            dashes,
            ..
        } = look;
        write!(
            self.text,
            "<path d=\"M{x} {y}h24\" stroke=\"{color}\" stroke-width=\"{width}\"{dashes}/>\n"
        )
    }

    /// A short line from a point down.
    pub(crate) fn tick(&mut self, at: Point, color: &str) -> Result<(), Memory> {
        let Point { x, y } = at;
        write!(
            self.text,
            "<path d=\"M{x} {y}v3\" stroke=\"{color}\" stroke-width=\"2\"/>\n"
        )
    }

    /// A line through these points, and a small circle where there is one alone.
    pub(crate) fn line(&mut self, look: Look, points: &[Point]) -> Result<(), Memory> {
        match points {
            [] => Ok(()),
            [point] => self.circle(look, *point),
            _ => self.polyline(look, points),
        }
    }

    /// A line through these points.
    fn polyline(&mut self, look: Look, points: &[Point]) -> Result<(), Memory> {
        let Look {
            color,
            width,
            dashes,
            ..
        } = look;
        write!(
            self.text,
            "<polyline fill=\"none\" stroke=\"{color}\" stroke-width=\"{width}\"{dashes} points=\""
        )?;
        let mut gap = "";
        for point in points {
            let Point { x, y } = *point;
            write!(self.text, "{gap}{x},{y}")?;
            gap = " ";
        }
        self.text.push_str("\"/>\n")
    }

    /// A small circle.
    fn circle(&mut self, look: Look, at: Point) -> Result<(), Memory> {
        let Point { x, y } = at;
        let color = look.color;
        let fill = if look.is_open { "none" } else { color };
        write!(
            self.text,
            "<circle cx=\"{x}\" cy=\"{y}\" r=\"2\" fill=\"{fill}\" stroke=\"{color}\"/>\n"
        )
    }
}
