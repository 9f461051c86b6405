// The elements of an SVG picture, each written behind what the buffer holds.
ghost use Rattle.std.specs.Prelude.{◌≡◌, ◌++◌, OnOk, codes, decimal, flat_map};
ghost use Rattle.vio_chart.specs.Picture.{escaped, label_text, line_text, rectangle_text};

use vio_num::NoMemory;

/// These bytes as they are.
pub fn put(buffer: &mut Vec<u8>, bytes: &[u8]) -> Result<(), NoMemory>
    ensures { OnOk result (buffer.new.items ≡ buffer.old.items ++ bytes.now) }
{
    buffer.extend_from_slice(bytes)?;
    Ok(())
}

/// A decimal number.
pub fn put_number(buffer: &mut Vec<u8>, n: u64) -> Result<(), NoMemory>
    ensures { OnOk result (buffer.new.items ≡ buffer.old.items ++ decimal n) }
{
    let mut decimal = itoa::Buffer::new();
    put(buffer, decimal.format(n).as_bytes())
}

/// Words, and a number behind them.
pub fn put_counted(buffer: &mut Vec<u8>, words: &[u8], n: u64) -> Result<(), NoMemory>
    ensures { OnOk result (buffer.new.items ≡ buffer.old.items ++ words.now ++ decimal n) }
{
    put(buffer, words)?;
    put_number(buffer, n)
}

/// A point of the picture, in pixels from its left and its upper edge.
#[derive(Clone, Copy)]
pub struct Point {
    pub x: u64,
    pub y: u64,
}

/// A line from a point to a point.
pub fn put_line(buffer: &mut Vec<u8>, from: Point, to: Point) -> Result<(), NoMemory>
    ensures { OnOk result (buffer.new.items ≡
        buffer.old.items ++ line_text from.x from.y to.x to.y) }
{
    put_counted(buffer, b"<line x1=\"", from.x)?;
    put_counted(buffer, b"\" y1=\"", from.y)?;
    put_counted(buffer, b"\" x2=\"", to.x)?;
    put_counted(buffer, b"\" y2=\"", to.y)?;
    put(buffer, b"\"/>\n")
}

/// A rectangle by its upper left corner, its width and its height.
pub fn put_rectangle(
    buffer: &mut Vec<u8>,
    corner: Point,
    width: u64,
    height: u64,
) -> Result<(), NoMemory>
    ensures { OnOk result (buffer.new.items ≡
        buffer.old.items ++ rectangle_text corner.x corner.y width height) }
{
    put_counted(buffer, b"<rect x=\"", corner.x)?;
    put_counted(buffer, b"\" y=\"", corner.y)?;
    put_counted(buffer, b"\" width=\"", width)?;
    put_counted(buffer, b"\" height=\"", height)?;
    put(buffer, b"\"/>\n")
}

// Writes a character of a text.
fn put_escaped(buffer: &mut Vec<u8>, c: u8) -> Result<(), NoMemory>
    ensures { OnOk result (buffer.new.items ≡ buffer.old.items ++ escaped c) }
{
    match c {
        b'<' => put(buffer, b"&lt;"),
        b'>' => put(buffer, b"&gt;"),
        b'&' => put(buffer, b"&amp;"),
        c => put(buffer, &[c]),
    }
}

// Writes a text. No character of it has a meaning in markup any more.
fn put_text(buffer: &mut Vec<u8>, text: &[u8]) -> Result<(), NoMemory>
    ensures { OnOk result (buffer.new.items ≡ buffer.old.items ++ flat_map escaped text.now) }
{
    for c in text {
        put_escaped(buffer, *c)?;
    }
    Ok(())
}

/// A label at a point.
pub fn put_label(buffer: &mut Vec<u8>, at: Point, label: &[u8]) -> Result<(), NoMemory>
    ensures { OnOk result (buffer.new.items ≡
        buffer.old.items ++ label_text at.x at.y label.now) }
{
    put_counted(buffer, b"<text x=\"", at.x)?;
    put_counted(buffer, b"\" y=\"", at.y)?;
    put(buffer, b"\">")?;
    put_text(buffer, label)?;
    put(buffer, b"</text>\n")
}
