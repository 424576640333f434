//! The elements of a picture. Every length is in hundredths of a pixel. What is printed here is safe and ends; where it stands is tested.
use std::io::Write;
use std::{fmt, io};

/// A length in pixels, with two digits after the point where they are needed.
#[derive(Clone, Copy, Debug, PartialEq, Eq)]
struct Pixels(u64);

impl fmt::Display for Pixels {
    fn fmt<W: fmt::Write>(&self, f: &mut fmt::Formatter<W>) -> fmt::Result {
        let whole = self.0 / 100;
        match self.0 % 100 {
            0 => write!(f, "{whole}"),
            rest => write!(f, "{whole}.{rest:02}"),
        }
    }
}

/// How long something lasts, in the coarsest unit in which it is whole.
#[derive(Clone, Copy, Debug, PartialEq, Eq)]
pub(crate) struct Lasting(pub(crate) u64);

impl fmt::Display for Lasting {
    fn fmt<W: fmt::Write>(&self, f: &mut fmt::Formatter<W>) -> fmt::Result {
        let ns = self.0;
        if ns == 0 {
            return f.write_str("0 ns");
        }
        let (unit, name) = coarsest_unit(ns);
        write!(f, "{} {name}", ns.checked_div(unit).unwrap_or(ns))
    }
}

/// The coarsest unit in which a time is whole, in ns, and its name.
// Kept: units::largest takes a u32, past which a stretch may end, and its micro is printed us, where a picture has the sign.
pub(crate) fn coarsest_unit(ns: u64) -> (u64, &'static str) {
    if ns % 1_000_000_000 == 0 {
        return (1_000_000_000, "s");
    }
    if ns % 1_000_000 == 0 {
        return (1_000_000, "ms");
    }
    if ns % 1000 == 0 {
        return (1000, "\u{b5}s");
    }
    (1, "ns")
}

/// How a picture looks.
const STYLE: [&str; 10] = [
    "<style>",
    "text{font-family:'DejaVu Sans Mono',Menlo,Consolas,'Liberation Mono',monospace;font-size:12px;fill:#1f2328}",
    ".title{font-family:system-ui,'Segoe UI','DejaVu Sans',Arial,sans-serif;font-size:17px;font-weight:600}",
    ".quiet{fill:#57606a}.small{font-size:11px}.fault{fill:#b31d28}.end{text-anchor:end}.mid{text-anchor:middle}",
    ".ground{fill:#ffffff}.stripe{fill:#f3f5f8}.grid{stroke:#d5dbe1}.axis{stroke:#57606a}",
    ".period{stroke:#8c959f;stroke-dasharray:2 3}.due{stroke:#8250df;stroke-width:2}",
    ".wire{fill:#1f6fc4}.gap{fill:#a9cdf3}.bad .wire{fill:#cf222e}.bad .gap{fill:#f3b0b5}",
    ".way{stroke:#1f2328;stroke-width:1.5}.hop{stroke:#57606a;stroke-dasharray:3 2}.spare{stroke:#2da44e;stroke-width:3}.lack{stroke:#cf222e;stroke-width:3}",
    ".meet{stroke:#b31d28;stroke-width:1.5}.meets{fill:#ffffff;stroke:#b31d28;stroke-width:1.5}",
    "</style>",
];

/// Begins a picture of a width and a height.
pub(crate) fn begin<O: Write>(out: &mut O, width: u64, height: u64) -> io::Result<()> {
    let width = Pixels(width);
    let height = Pixels(height);
    write!(
        out,
        "<svg xmlns=\"http://www.w3.org/2000/svg\" viewBox=\"0 0 {width} {height}\""
    )?;
    writeln!(out, " width=\"{width}\" height=\"{height}\" role=\"img\">")
}

/// Says how a picture looks, and gives it a ground of its own.
pub(crate) fn style<O: Write>(out: &mut O, width: u64, height: u64) -> io::Result<()> {
    for line in STYLE {
        writeln!(out, "{line}")?;
    }
    rect(out, "ground", 0, 0, width, height)
}

/// A rectangle.
// Kept: x, y, width and height are the element's four attributes; rows keeps y and height as Bars, and no other caller two together.
pub(crate) fn rect<O: Write>(
    out: &mut O,
    class: &str,
    x: u64,
    y: u64,
    width: u64,
    height: u64,
) -> io::Result<()> {
    let (x, y) = (Pixels(x), Pixels(y));
    let (width, height) = (Pixels(width), Pixels(height));
    writeln!(
        out,
        "<rect class=\"{class}\" x=\"{x}\" y=\"{y}\" width=\"{width}\" height=\"{height}\"/>"
    )
}

/// A line from one point to another.
// Kept: the four numbers are the element's attributes; most lines are level or upright, and share a number between their ends.
pub(crate) fn line<O: Write>(
    out: &mut O,
    class: &str,
    x1: u64,
    y1: u64,
    x2: u64,
    y2: u64,
) -> io::Result<()> {
    let (x1, y1) = (Pixels(x1), Pixels(y1));
    let (x2, y2) = (Pixels(x2), Pixels(y2));
    writeln!(
        out,
        "<line class=\"{class}\" x1=\"{x1}\" y1=\"{y1}\" x2=\"{x2}\" y2=\"{y2}\"/>"
    )
}

/// A ring.
// Kept: x and y are attributes of the element; most texts have a fixed x and a reckoned y, so that a point would be made at each call.
pub(crate) fn ring<O: Write>(
    out: &mut O,
    class: &str,
    x: u64,
    y: u64,
    radius: u64,
) -> io::Result<()> {
    let (x, y, radius) = (Pixels(x), Pixels(y), Pixels(radius));
    writeln!(
        out,
        "<circle class=\"{class}\" cx=\"{x}\" cy=\"{y}\" r=\"{radius}\"/>"
    )
}

/// Begins a text, which `end_text` ends.
// Kept: x and y are attributes of the element; most texts have a fixed x and a reckoned y, so that a point would be made at each call.
pub(crate) fn begin_text<O: Write>(out: &mut O, class: &str, x: u64, y: u64) -> io::Result<()> {
    let (x, y) = (Pixels(x), Pixels(y));
    write!(out, "<text class=\"{class}\" x=\"{x}\" y=\"{y}\">")
}

pub(crate) fn end_text<O: Write>(out: &mut O) -> io::Result<()> {
    writeln!(out, "</text>")
}

/// A text of letters that need no care.
// Kept: x and y are attributes of the element; most texts have a fixed x and a reckoned y, so that a point would be made at each call.
pub(crate) fn text<O: Write, S: fmt::Display + Drop>(
    out: &mut O,
    class: &str,
    x: u64,
    y: u64,
    text: S,
) -> io::Result<()> {
    begin_text(out, class, x, y)?;
    write!(out, "{text}")?;
    end_text(out)
}
