//! The text of a comparison.

ghost use Rattle.std.specs.Prelude.{◌≡◌};
ghost use Rattle.text.specs.Writes.{Writes};
ghost use Rattle.compare.specs.Lines.{apart_line, compared_line, compared_lines, compared_text, pair_line, same_line, single_line, summary_line};

use crate::frame::Frame;
use crate::pairs::Comparison;
use crate::tally::{earlier, greatest_difference, later, missing, pairs, same, surplus};
use port_text::answer_text::{Part, WriteFault, put_parts};
use std::io::Write;

/// Writes a pair whose moments differ by so many picoseconds, as this word says.
fn put_apart<'a, W: Write>(
    writer: &mut W,
    a: &Frame,
    b: &Frame,
    word: &'a [u8],
    by: u128,
) -> Result<(), WriteFault>
    ensures { Writes result (W.contents writer.old) (W.contents writer.new)
        (apart_line a.now b.now word.now by) }
{
    put_parts(
        writer,
        &[
            Part::Text(b"pair "),
            Part::Number(u128::from(a.name)),
            Part::Text(b" "),
            Part::Number(u128::from(b.name)),
            Part::Text(b" at "),
            Part::Number(a.moment),
            Part::Text(b" and "),
            Part::Number(b.moment),
            Part::Text(word),
            Part::Number(by),
            Part::Text(b"\n"),
        ],
    )
}

/// Writes a pair whose frames left at one moment.
fn put_same<W: Write>(writer: &mut W, a: &Frame, b: &Frame) -> Result<(), WriteFault>
    ensures { Writes result (W.contents writer.old) (W.contents writer.new)
        (same_line a.now b.now) }
{
    put_parts(
        writer,
        &[
            Part::Text(b"pair "),
            Part::Number(u128::from(a.name)),
            Part::Text(b" "),
            Part::Number(u128::from(b.name)),
            Part::Text(b" at "),
            Part::Number(a.moment),
            Part::Text(b" and "),
            Part::Number(b.moment),
            Part::Text(b" same\n"),
        ],
    )
}

fn put_pair<W: Write>(writer: &mut W, a: &Frame, b: &Frame) -> Result<(), WriteFault>
    ensures { Writes result (W.contents writer.old) (W.contents writer.new)
        (pair_line a.now b.now) }
{
    if a.moment < b.moment {
        put_apart(writer, a, b, b" later ", b.moment - a.moment)
    } else if b.moment < a.moment {
        put_apart(writer, a, b, b" earlier ", a.moment - b.moment)
    } else {
        put_same(writer, a, b)
    }
}

/// Writes a frame without a partner.
fn put_single<'a, W: Write>(writer: &mut W, word: &'a [u8], frame: &Frame) -> Result<(), WriteFault>
    ensures { Writes result (W.contents writer.old) (W.contents writer.new)
        (single_line word.now frame.now) }
{
    put_parts(
        writer,
        &[
            Part::Text(word),
            Part::Number(u128::from(frame.name)),
            Part::Text(b" at "),
            Part::Number(frame.moment),
            Part::Text(b"\n"),
        ],
    )
}

fn put_line<W: Write>(writer: &mut W, compared: &Comparison) -> Result<(), WriteFault>
    ensures { Writes result (W.contents writer.old) (W.contents writer.new)
        (compared_line compared.now) }
{
    match compared {
        Comparison::Pair(a, b) => put_pair(writer, a, b),
        Comparison::Missing(a) => put_single(writer, b"missing ", a),
        Comparison::Extra(b) => put_single(writer, b"extra ", b),
    }
}

fn put_lines<W: Write>(writer: &mut W, all: &[Comparison]) -> Result<(), WriteFault>
    ensures { Writes result (W.contents writer.old) (W.contents writer.new)
        (compared_lines all.now) }
{
    for compared in all {
        put_line(writer, compared)?;
    }
    Ok(())
}

fn put_summary<W: Write>(writer: &mut W, all: &[Comparison]) -> Result<(), WriteFault>
    ensures { Writes result (W.contents writer.old) (W.contents writer.new)
        (summary_line all.now) }
{
    put_parts(
        writer,
        &[
            Part::Text(b"compared pairs "),
            Part::Number(pairs(all) as u128),
            Part::Text(b" missing "),
            Part::Number(missing(all) as u128),
            Part::Text(b" extra "),
            Part::Number(surplus(all) as u128),
            Part::Text(b" same "),
            Part::Number(same(all) as u128),
            Part::Text(b" later "),
            Part::Number(later(all) as u128),
            Part::Text(b" earlier "),
            Part::Number(earlier(all) as u128),
            Part::Text(b" greatest "),
            Part::Number(greatest_difference(all)),
            Part::Text(b"\n"),
        ],
    )
}

/// Writes a line for each frame, and the summary. At a fault a prefix of them is written.
pub(crate) fn put_compared<W: Write>(writer: &mut W, all: &[Comparison]) -> Result<(), WriteFault>
    ensures { Writes result (W.contents writer.old) (W.contents writer.new)
        (compared_text all.now) }
{
    put_lines(writer, all)?;
    put_summary(writer, all)
}
