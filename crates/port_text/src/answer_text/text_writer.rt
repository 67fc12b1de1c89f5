//! Writes text, with a loop over `write` of its own: a write that fails or takes nothing isn't tried again.

ghost use Rattle.std.specs.Prelude.{◌≡◌, ◌<◌, ◌++◌, decimal, true};
ghost use Rattle.std.specs.List.{flat_map};
ghost use Rattle.port_text.specs.Part.{hex_digit, mask_text, text_of};
ghost use Rattle.text.specs.Writes.{Writes};

use arrayvec::ArrayVec;
use itoa::Buffer;
use std::io::Write;
use text::octet_writer::{WriteFault, put};

/// Writes a number in decimal.
fn put_number<W: Write>(writer: &mut W, number: u128) -> Result<(), WriteFault>
    ensures { Writes result (W.contents writer.old) (W.contents writer.new) (decimal number) }
{
    let mut buffer = Buffer::new();
    put(writer, buffer.format(number).as_bytes())
}

fn hex_digit(value: u8) -> u8
    requires { value < 16 }
    ensures { result ≡ hex_digit value }
{
    if value < 10 {
        b'0' + value
    } else {
        b'a' + (value - 10)
    }
}

/// The two hexadecimal digits of a mask.
pub(crate) fn mask_digits(mask: u8) -> [u8; 2]
    ensures { result ≡ mask_text mask }
{
    [hex_digit(mask / 16), hex_digit(mask % 16)]
}

/// A part of a line.
#[derive(Clone, Copy)]
pub enum Part<'a> {
    /// A text as it stands.
    Text(&'a [u8]),
    /// A number in decimal.
    Number(u128),
    /// A mask in two hexadecimal digits.
    Mask(u8),
}

fn put_part<W: Write>(writer: &mut W, part: Part<'_>) -> Result<(), WriteFault>
    ensures { Writes result (W.contents writer.old) (W.contents writer.new) (text_of part.entry) }
{
    match part {
        Part::Text(text) => put(writer, text),
        Part::Number(number) => put_number(writer, number),
        Part::Mask(mask) => put(writer, &mask_digits(mask)),
    }
}

/// Writes parts by a call or more for each.
fn put_each<W: Write>(writer: &mut W, parts: &[Part<'_>]) -> Result<(), WriteFault>
    ensures { Writes result (W.contents writer.old) (W.contents writer.new)
        (flat_map text_of parts.now) }
{
    for part in parts {
        put_part(writer, *part)?;
    }
    Ok(())
}

/// The octets of a line that is put together before it is written.
const PARTS_CAPACITY: usize = 256;

/// A line that is put together, to be written by one call.
type LineBuffer = ArrayVec<u8, PARTS_CAPACITY>;

/// Adds a part to a line, if it fits.
fn add_part(line: &mut LineBuffer, part: Part<'_>) -> bool
    ensures { result ≡ true → line.new.items ≡ line.old.items ++ text_of part.entry }
{
    match part {
        Part::Text(text) => line.try_extend_from_slice(text).is_ok(),
        Part::Number(number) => {
            let mut buffer = Buffer::new();
            line.try_extend_from_slice(buffer.format(number).as_bytes())
                .is_ok()
        }
        Part::Mask(mask) => line.try_extend_from_slice(&mask_digits(mask)).is_ok(),
    }
}

/// Adds parts to a line, one after another, if all fit.
fn add_parts(line: &mut LineBuffer, parts: &[Part<'_>]) -> bool
    ensures { result ≡ true → line.new.items ≡ line.old.items ++ flat_map text_of parts.now }
{
    for part in parts {
        if !add_part(line, *part) {
            return false;
        }
    }
    true
}

/// Writes parts, one after another. At a fault a prefix of their text is written.
pub fn put_parts<W: Write>(writer: &mut W, parts: &[Part<'_>]) -> Result<(), WriteFault>
    ensures { Writes result (W.contents writer.old) (W.contents writer.new)
        (flat_map text_of parts.now) }
{
    let mut line = LineBuffer::new();
    if add_parts(&mut line, parts) {
        put(writer, line.as_slice())
    } else {
        put_each(writer, parts)
    }
}
