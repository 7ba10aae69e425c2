//! Elements of an SVG. Positions and lengths are in tenths of a pixel.

use std::alloc::AllocError;
use std::fmt;

/// A position or a length in tenths of a pixel: `96.5` for 965.
#[derive(Clone, Copy, PartialEq, Eq, Debug)]
pub struct Px(pub u32);

impl fmt::Display for Px {
    fn fmt<W: fmt::Write>(&self, f: &mut fmt::Formatter<W>) -> fmt::Result {
        let whole = self.0 / 10;
        let tenth = self.0 % 10;
        if tenth == 0 {
            return write!(f, "{whole}");
        }
        write!(f, "{whole}.{tenth}")
    }
}

/// A rectangle, given by its upper left corner.
#[derive(Clone, Copy, Debug)]
pub struct Rectangle {
    pub x: u32,
    pub y: u32,
    pub width: u32,
    pub height: u32,
}

impl Rectangle {
    /// Returns its positions and lengths, by their names.
    fn lengths(&self) -> [(&'static str, u32); 4] {
        [
            ("x", self.x),
            ("y", self.y),
            ("width", self.width),
            ("height", self.height),
        ]
    }
}

/// A line, from its start to its end.
#[derive(Clone, Copy, Debug)]
pub struct LineElement {
    pub x1: u32,
    pub y1: u32,
    pub x2: u32,
    pub y2: u32,
}

impl LineElement {
    /// Returns a horizontal line.
    pub fn level(x1: u32, x2: u32, y: u32) -> LineElement {
        LineElement {
            x1,
            y1: y,
            x2,
            y2: y,
        }
    }

    /// Returns a short vertical line, given by its middle.
    pub fn tick(x: u32, y: u32) -> LineElement {
        LineElement::upright(x, y.saturating_sub(60), y.saturating_add(60))
    }

    /// Returns a vertical line.
    pub fn upright(x: u32, y1: u32, y2: u32) -> LineElement {
        LineElement {
            x1: x,
            y1,
            x2: x,
            y2,
        }
    }
}

/// Adds a rectangle with a class of the style sheet.
pub fn push_rectangle(text: &mut String, class: &str, place: &Rectangle) -> Result<(), AllocError> {
    push_open(text, "rect", class, &place.lengths())?;
    text.push_str("/>\n")
}

/// Adds a rectangle with a tooltip.
pub fn push_titled_rectangle(
    text: &mut String,
    class: &str,
    place: &Rectangle,
    title: &str,
) -> Result<(), AllocError> {
    push_open(text, "rect", class, &place.lengths())?;
    text.push_str("><title>")?;
    push_escaped(text, title)?;
    text.push_str("</title></rect>\n")
}

/// Adds a line with a class.
pub fn push_line(text: &mut String, class: &str, line: &LineElement) -> Result<(), AllocError> {
    let ends = [
        ("x1", line.x1),
        ("y1", line.y1),
        ("x2", line.x2),
        ("y2", line.y2),
    ];
    push_open(text, "line", class, &ends)?;
    text.push_str("/>\n")
}

/// Adds a small circle with a class, given by its middle.
pub fn push_circle(text: &mut String, class: &str, x: u32, y: u32) -> Result<(), AllocError> {
    push_open(text, "circle", class, &[("cx", x), ("cy", y)])?;
    text.push_str(" r=\"3\"/>\n")
}

/// Adds a small triangle that points down, given by its upper left corner.
pub fn push_triangle(text: &mut String, x: u32, y: u32) -> Result<(), AllocError> {
    let x = Px(x);
    let y = Px(y);
    write!(text, "<path class=\"spawn\" d=\"M{x},{y} h8 l-4,6 z\"/>\n")
}

/// Adds words with a class, which determines how they are aligned to the position.
pub fn push_words(
    text: &mut String,
    class: &str,
    x: u32,
    y: u32,
    words: &str,
) -> Result<(), AllocError> {
    push_open(text, "text", class, &[("x", x), ("y", y)])?;
    text.push('>')?;
    push_escaped(text, words)?;
    text.push_str("</text>\n")
}

/// Adds an element with a class, without its end: `<line class="steal" x1="14.5" y1="12.6"` for two
/// lengths in tenths of a pixel.
fn push_open(
    text: &mut String,
    element: &str,
    class: &str,
    lengths: &[(&str, u32)],
) -> Result<(), AllocError> {
    write!(text, "<{element} class=\"{class}\"")?;
    for (name, tenths) in lengths {
        let length = Px(*tenths);
        write!(text, " {name}=\"{length}\"")?;
    }
    Ok(())
}

/// Adds a text as it is written between the tags of XML.
pub fn push_escaped(text: &mut String, words: &str) -> Result<(), AllocError> {
    for letter in words.chars() {
        match letter {
            '&' => text.push_str("&amp;")?,
            '<' => text.push_str("&lt;")?,
            '>' => text.push_str("&gt;")?,
            '"' => text.push_str("&quot;")?,
            // XML doesn't allow these.
            '\u{0}'..='\u{8}' | '\u{b}'..='\u{1f}' | '\u{fffe}'..='\u{ffff}' => text.push(
                '\u{fffd}',
            )?,
            _ => text.push(letter)?,
        }
    }
    Ok(())
}
