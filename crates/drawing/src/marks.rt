//! The marks of a picture: bands, frames, waits, drops and changes.

ghost use Rattle.std.specs.Prelude.{◌≡◌, ◌≤◌, ◌<◌, ◌+◌, ◌*◌, IfOk, decimal, length, nat_le};
ghost use Rattle.text.specs.Writes.{Writes};
ghost use Rattle.drawing.specs.Marks.{arrival_text, bar_text, bars_text, change_lines, change_name, change_number, change_text, changes_text, cross_text, drop_text, drops_text, free_after, grey_after, grey_before, grey_by, grey_over, grey_text, greys_text, has_grey, id_text, is_light, IsInRow, label_text, last_change, light_text, lights_text, line_text, more_grey, no_grey, number_length, number_text, point_text, rect_text, second_cross, wait_line, wait_text, waits_text};

use crate::page::{BOTTOM, CLASS_TOP, LANE_HEIGHT, LEFT, MAX_WIDTH, Page, Place};
use picture::Shape;
use port_text::answer_text::{Part, WriteFault, put, put_parts};
use std::io::Write;

/// How times look at which a class is open and closed.
pub(crate) const MIXED: &[u8] = b"p";

/// The least width of a light band, and of what is between two, in hundredths of a pixel: what is narrower is grey.
const LEAST_BAND: u64 = 100;

/// The least width of a bar, in hundredths of a pixel: it is to be seen beside the line of a wait.
const LEAST_BAR: u64 = 200;

/// The least width of what has an edge, in hundredths of a pixel: the edge would hide what is narrower.
const LEAST_EDGED: u64 = 400;

/// How far apart the labels of changes stand at least, in hundredths of a pixel.
const LABEL_WIDTH: u64 = 9_600;

/// Writes a rectangle from a place on and of a width, both in hundredths of a pixel, at this height from above and of
/// this height, in pixels.
pub(crate) fn put_rect<W: Write>(
    writer: &mut W,
    look: &[u8],
    left: u64,
    width: u64,
    top: u32,
    height: u32,
) -> Result<(), WriteFault>
    ensures { Writes result (W.contents writer.old) (W.contents writer.new)
        (rect_text look.now left width top height) }
{
    let edge: &[u8] = if width < LEAST_EDGED { b" s" } else { b"" };
    put_parts(
        writer,
        &[
            Part::Text(b"<rect class=\""),
            Part::Text(look),
            Part::Text(edge),
            Part::Text(b"\" x=\""),
            Part::Number(u128::from(left / 100)),
            Part::Text(b"."),
            Part::Number(u128::from(left / 10 % 10)),
            Part::Number(u128::from(left % 10)),
            Part::Text(b"\" y=\""),
            Part::Number(u128::from(top)),
            Part::Text(b"\" width=\""),
            Part::Number(u128::from(width / 100)),
            Part::Text(b"."),
            Part::Number(u128::from(width / 10 % 10)),
            Part::Number(u128::from(width % 10)),
            Part::Text(b"\" height=\""),
            Part::Number(u128::from(height)),
            Part::Text(b"\"/>\n"),
        ],
    )
}

/// Writes a line from above to below at this place, in hundredths of a pixel.
pub(crate) fn put_line<W: Write>(
    writer: &mut W,
    look: &[u8],
    x: u64,
    top: u32,
    bottom: u32,
) -> Result<(), WriteFault>
    ensures { Writes result (W.contents writer.old) (W.contents writer.new)
        (line_text look.now x top bottom) }
{
    put_parts(
        writer,
        &[
            Part::Text(b"<path class=\""),
            Part::Text(look),
            Part::Text(b"\" d=\"M"),
            Part::Number(u128::from(x / 100)),
            Part::Text(b"."),
            Part::Number(u128::from(x / 10 % 10)),
            Part::Number(u128::from(x % 10)),
            Part::Text(b" "),
            Part::Number(u128::from(top)),
            Part::Text(b"V"),
            Part::Number(u128::from(bottom)),
            Part::Text(b"\"/>\n"),
        ],
    )
}

/// Whether a band is light, from one place to another, in hundredths of a pixel: it is one open time, and a pixel wide
/// at least.
fn is_light(id: Option<u64>, left: u64, right: u64) -> bool
    requires { left ≤ 100 * (LEFT + MAX_WIDTH) }
    ensures { result ≡ is_light id left right }
{
    id.is_some() && left + LEAST_BAND <= right
}

/// Writes a band in a row that begins at this height, where it is light.
fn put_light<W: Write>(
    writer: &mut W,
    page: &Page,
    top: u32,
    shape: &Shape,
) -> Result<(), WriteFault>
    ensures { Writes result (W.contents writer.old) (W.contents writer.new)
        (light_text page.now top shape.now) }
{
    let Some(span) = page.viewport.cut(shape.span) else {
        return Ok(());
    };
    let left = page.x(span.from);
    let right = page.x(span.to);
    if is_light(shape.id, left, right) {
        return put_rect(writer, b"o", left, right - left, top, LANE_HEIGHT);
    }
    Ok(())
}

/// Writes the light bands of a class, whose lane begins at this height.
pub(crate) fn put_lights<W: Write>(
    writer: &mut W,
    page: &Page,
    top: u32,
    shapes: &[Shape],
) -> Result<(), WriteFault>
    ensures { Writes result (W.contents writer.old) (W.contents writer.new)
        (lights_text page.now top shapes.now) }
{
    for shape in shapes {
        put_light(writer, page, top, shape)?;
    }
    Ok(())
}

/// Grey pixels of a row, and where the band before ends.
#[derive(Clone, Copy, Debug)]
struct Grey {
    /// The first, from the left; 0: there are none yet.
    from: u64,
    /// The first after them; 0: there are none yet.
    to: u64,
    /// Where the band before ends, in hundredths of a pixel; 0: none is before.
    edge: u64,
}

/// Nothing is grey yet.
fn no_grey() -> Grey
    ensures { result ≡ no_grey }
{
    Grey {
        from: 0,
        to: 0,
        edge: 0,
    }
}

/// More grey pixels, from one on and before another: one with those before them, where the two touch. The band ends at
/// this place, in hundredths of a pixel.
fn more_grey(first: u64, after: u64, edge: u64, grey: Grey) -> Grey
    requires some { first < after }
    requires within { after ≤ LEFT + MAX_WIDTH + 1 }
    requires near { edge ≤ 100 * (LEFT + MAX_WIDTH) }
    requires row { IsInRow grey }
    ensures value { result ≡ more_grey first after edge grey }
    ensures row { IsInRow result }
{
    if grey.to < first || grey.to == 0 {
        return Grey {
            from: first,
            to: after,
            edge,
        };
    }
    Grey {
        from: grey.from,
        to: grey.to.max(after),
        edge,
    }
}

/// The pixels are grey that a time reaches into from one place to another. The band ends at this place. All are in
/// hundredths of a pixel.
fn grey_over(left: u64, right: u64, edge: u64, grey: Grey) -> Grey
    requires left { left ≤ 100 * (LEFT + MAX_WIDTH) }
    requires right { right ≤ 100 * (LEFT + MAX_WIDTH) }
    requires near { edge ≤ 100 * (LEFT + MAX_WIDTH) }
    requires row { IsInRow grey }
    ensures value { result ≡ grey_over left right edge grey }
    ensures row { IsInRow result }
{
    let first = left / 100;
    let after = right.div_ceil(100).max(first + 1);
    more_grey(first, after, edge, grey)
}

/// A band follows, light or not, from one place to another, in hundredths of a pixel. Grey are the pixels between the
/// band before and this one, where the two are nearer than a pixel, and those of the band, where it isn't light.
fn grey_by(is_light: bool, left: u64, right: u64, grey: Grey) -> Grey
    requires left { left ≤ 100 * (LEFT + MAX_WIDTH) }
    requires right { right ≤ 100 * (LEFT + MAX_WIDTH) }
    requires row { IsInRow grey }
    ensures value { result ≡ grey_by is_light left right grey }
    ensures row { IsInRow result }
{
    if left < grey.edge + LEAST_BAND {
        let to = if is_light { left } else { right };
        return grey_over(grey.edge, to, right, grey);
    }
    if is_light {
        return Grey {
            from: grey.from,
            to: grey.to,
            edge: right,
        };
    }
    grey_over(left, right, right, grey)
}

/// What of a row is grey after this band, or after this time at which its class is mixed.
fn grey_after(page: &Page, is_mixed: bool, shape: &Shape, grey: Grey) -> Grey
    requires row { IsInRow grey }
    ensures value { result ≡ grey_after page.now is_mixed shape.now grey }
    ensures row { IsInRow result }
{
    let Some(span) = page.viewport.cut(shape.span) else {
        return grey;
    };
    let left = page.x(span.from);
    let right = page.x(span.to);
    let is_light = !is_mixed && is_light(shape.id, left, right);
    grey_by(is_light, left, right, grey)
}

/// Whether something of a row is grey after its bands, or after the times at which its class is mixed.
pub(crate) fn has_grey(page: &Page, shapes: &[Shape], is_mixed: bool) -> bool
    ensures { result ≡ has_grey page.now is_mixed shapes.now }
{
    let mut grey = no_grey();
    for shape in shapes {
        grey = grey_after(page, is_mixed, shape, grey);
    }
    grey.to > 0
}

/// Writes grey pixels in a row that begins at this height, where there are some.
fn put_grey<W: Write>(writer: &mut W, top: u32, grey: Grey) -> Result<(), WriteFault>
    requires { IsInRow grey }
    ensures { Writes result (W.contents writer.old) (W.contents writer.new) (grey_text top grey) }
{
    if grey.to == 0 {
        return Ok(());
    }
    let left = grey.from * 100;
    let right = grey.to * 100;
    put_rect(writer, MIXED, left, right - left, top, LANE_HEIGHT)
}

/// Writes grey pixels in a row that begins at this height, where no later band adds to them.
fn put_grey_before<W: Write>(
    writer: &mut W,
    top: u32,
    old: Grey,
    new: Grey,
) -> Result<(), WriteFault>
    requires { IsInRow old }
    ensures { Writes result (W.contents writer.old) (W.contents writer.new)
        (grey_before top old new) }
{
    if old.from == new.from {
        return Ok(());
    }
    put_grey(writer, top, old)
}

/// Writes the grey pixels of a class, whose lane begins at this height: of its bands, or of the times at which it is
/// mixed.
pub(crate) fn put_greys<W: Write>(
    writer: &mut W,
    page: &Page,
    top: u32,
    shapes: &[Shape],
    is_mixed: bool,
) -> Result<(), WriteFault>
    ensures { Writes result (W.contents writer.old) (W.contents writer.new)
        (greys_text page.now top is_mixed shapes.now no_grey) }
{
    let mut grey = no_grey();
    for shape in shapes {
        let next = grey_after(page, is_mixed, shape, grey);
        put_grey_before(writer, top, grey, next)?;
        grey = next;
    }
    put_grey(writer, top, grey)
}

/// How many decimal digits a number has.
pub(crate) fn digits(number: u128) -> u32
    ensures value { result ≡ length (decimal number) }
    ensures within { result ≤ 40 }
{
    let mut rest = number;
    for count in 1..40u32 {
        if rest < 10 {
            return count;
        }
        rest /= 10;
    }
    40
}

/// Whether a bar of this width, in hundredths of a pixel, has room for the number of a frame.
fn has_room(width: u64, id: u64) -> bool
    ensures { result ≡ nat_le (400 + 600 * length (decimal id)) width }
{
    400 + 600 * u64::from(digits(u128::from(id))) <= width
}

/// Writes the number of a frame in the middle of its bar.
fn put_id<W: Write>(writer: &mut W, middle: u64, top: u32, id: u64) -> Result<(), WriteFault>
    requires { top ≤ BOTTOM }
    ensures { Writes result (W.contents writer.old) (W.contents writer.new)
        (id_text middle top id) }
{
    put_parts(
        writer,
        &[
            Part::Text(b"<text class=\"n\" x=\""),
            Part::Number(u128::from(middle / 100)),
            Part::Text(b"\" y=\""),
            Part::Number(u128::from(top + 22)),
            Part::Text(b"\">"),
            Part::Number(u128::from(id)),
            Part::Text(b"</text>\n"),
        ],
    )
}

/// Writes the number of a frame, where its bar has room for it.
fn put_number<W: Write>(
    writer: &mut W,
    place: Place,
    top: u32,
    id: Option<u64>,
) -> Result<(), WriteFault>
    requires top { top ≤ BOTTOM }
    requires few { place.left + place.width ≤ 100 * (LEFT + MAX_WIDTH) }
    ensures { Writes result (W.contents writer.old) (W.contents writer.new)
        (number_text place top id) }
{
    match id {
        Some(id) if has_room(place.width, id) => {
            put_id(writer, place.left + place.width / 2, top, id)
        }
        _ => Ok(()),
    }
}

/// Writes the bar of a frame, or of frames that are joined, and its number where there is room.
fn put_bar<W: Write>(writer: &mut W, page: &Page, top: u32, shape: &Shape) -> Result<(), WriteFault>
    requires { top ≤ BOTTOM }
    ensures { Writes result (W.contents writer.old) (W.contents writer.new)
        (bar_text page.now top shape.now) }
{
    let Some(span) = page.viewport.cut(shape.span) else {
        return Ok(());
    };
    let place = page.place(span, LEAST_BAR);
    put_rect(
        writer,
        b"f",
        place.left,
        place.width,
        top + 10,
        LANE_HEIGHT - 12,
    )?;
    put_number(writer, place, top, shape.id)
}

/// Writes the frames of a lane that begins at this height.
pub(crate) fn put_bars<W: Write>(
    writer: &mut W,
    page: &Page,
    top: u32,
    shapes: &[Shape],
) -> Result<(), WriteFault>
    requires { top ≤ BOTTOM }
    ensures { Writes result (W.contents writer.old) (W.contents writer.new)
        (bars_text page.now top shapes.now) }
{
    for shape in shapes {
        put_bar(writer, page, top, shape)?;
    }
    Ok(())
}

/// Writes the mark of an arrival, where it is shown.
fn put_arrival<W: Write>(writer: &mut W, is_shown: bool, x: u64, top: u32) -> Result<(), WriteFault>
    requires { top ≤ BOTTOM }
    ensures { Writes result (W.contents writer.old) (W.contents writer.new)
        (arrival_text is_shown x top) }
{
    if is_shown {
        return put_line(writer, b"w", x, top + 2, top + 26);
    }
    Ok(())
}

/// The point of a wait that goes on at the end of the picture; none where it is over.
fn point(is_over: bool) -> &'static [u8]
    ensures { result.now ≡ point_text is_over }
{
    if is_over { b"" } else { b"l-6 -4m6 4l-6 4" }
}

/// Writes the line of a wait from one place to another.
fn put_wait_line<W: Write>(
    writer: &mut W,
    left: u64,
    right: u64,
    top: u32,
    is_over: bool,
) -> Result<(), WriteFault>
    requires { top ≤ BOTTOM }
    ensures { Writes result (W.contents writer.old) (W.contents writer.new)
        (wait_line left right top is_over) }
{
    put_parts(
        writer,
        &[
            Part::Text(b"<path class=\"w\" d=\"M"),
            Part::Number(u128::from(left / 100)),
            Part::Text(b"."),
            Part::Number(u128::from(left / 10 % 10)),
            Part::Number(u128::from(left % 10)),
            Part::Text(b" "),
            Part::Number(u128::from(top + 6)),
            Part::Text(b"H"),
            Part::Number(u128::from(right / 100)),
            Part::Text(b"."),
            Part::Number(u128::from(right / 10 % 10)),
            Part::Number(u128::from(right % 10)),
            Part::Text(point(is_over)),
            Part::Text(b"\"/>\n"),
        ],
    )
}

/// Writes the wait of a frame: a line from its arrival, which is marked where it lies within the viewport, to its
/// start. Where the wait goes on at the end of the picture the line ends there in a point.
fn put_wait<W: Write>(
    writer: &mut W,
    page: &Page,
    top: u32,
    shape: &Shape,
) -> Result<(), WriteFault>
    requires { top ≤ BOTTOM }
    ensures { Writes result (W.contents writer.old) (W.contents writer.new)
        (wait_text page.now top shape.now) }
{
    let Some(span) = page.viewport.cut(shape.span) else {
        return Ok(());
    };
    let left = page.x(span.from);
    let right = page.x(span.to);
    let is_over = shape.span.to < page.viewport.to();
    put_arrival(writer, span.from == shape.span.from, left, top)?;
    put_wait_line(writer, left, right, top, is_over)
}

/// Writes the waits of a class, whose lane begins at this height.
pub(crate) fn put_waits<W: Write>(
    writer: &mut W,
    page: &Page,
    top: u32,
    shapes: &[Shape],
) -> Result<(), WriteFault>
    requires { top ≤ BOTTOM }
    ensures { Writes result (W.contents writer.old) (W.contents writer.new)
        (waits_text page.now top shapes.now) }
{
    for shape in shapes {
        put_wait(writer, page, top, shape)?;
    }
    Ok(())
}

/// Writes the first cross of frames that were dropped.
fn put_cross<W: Write>(writer: &mut W, left: u64, top: u32) -> Result<(), WriteFault>
    requires left { 400 ≤ left }
    requires top { top ≤ BOTTOM }
    ensures { Writes result (W.contents writer.old) (W.contents writer.new) (cross_text left top) }
{
    put_parts(
        writer,
        &[
            Part::Text(b"<path class=\"d\" d=\"M"),
            Part::Number(u128::from(left / 100 - 4)),
            Part::Text(b" "),
            Part::Number(u128::from(top + 10)),
            Part::Text(b"l8 8m0 -8l-8 8"),
        ],
    )
}

/// Writes the last cross of frames that were dropped, where it lies elsewhere than the first, and the end of the mark.
fn put_second_cross<W: Write>(writer: &mut W, left: u64, right: u64) -> Result<(), WriteFault>
    ensures { Writes result (W.contents writer.old) (W.contents writer.new)
        (second_cross left right) }
{
    if left / 100 < right / 100 {
        return put_parts(
            writer,
            &[
                Part::Text(b"m4 -4H"),
                Part::Number(u128::from(right / 100)),
                Part::Text(b"m-4 -4l8 8m0 -8l-8 8\"/>\n"),
            ],
        );
    }
    put(writer, b"\"/>\n")
}

/// Writes the mark of frames that were dropped, from the first to the last of them: a cross, or two that are joined.
fn put_drop<W: Write>(
    writer: &mut W,
    page: &Page,
    top: u32,
    shape: &Shape,
) -> Result<(), WriteFault>
    requires { top ≤ BOTTOM }
    ensures { Writes result (W.contents writer.old) (W.contents writer.new)
        (drop_text page.now top shape.now) }
{
    let Some(span) = page.viewport.cut(shape.span) else {
        return Ok(());
    };
    let left = page.x(span.from);
    let right = page.x(span.to);
    put_cross(writer, left, top)?;
    put_second_cross(writer, left, right)
}

/// Writes a mark for each frame that was dropped, in a lane that begins at this height.
pub(crate) fn put_drops<W: Write>(
    writer: &mut W,
    page: &Page,
    top: u32,
    shapes: &[Shape],
) -> Result<(), WriteFault>
    requires { top ≤ BOTTOM }
    ensures { Writes result (W.contents writer.old) (W.contents writer.new)
        (drops_text page.now top shapes.now) }
{
    for shape in shapes {
        put_drop(writer, page, top, shape)?;
    }
    Ok(())
}

/// How many characters the number of a change takes, where it has one.
fn number_length(number: Option<u64>) -> u32
    ensures value { result ≡ number_length number }
    ensures within { result ≤ 40 }
{
    match number {
        Some(number) => digits(u128::from(number)),
        None => 0,
    }
}

/// Writes the number of a command, or that changes are joined, and the end of the name.
fn put_change_number<W: Write>(writer: &mut W, number: Option<u64>) -> Result<(), WriteFault>
    ensures { Writes result (W.contents writer.old) (W.contents writer.new) (change_number number) }
{
    match number {
        Some(number) => put_parts(
            writer,
            &[
                Part::Text(b"change "),
                Part::Number(u128::from(number)),
                Part::Text(b"</text>\n"),
            ],
        ),
        None => put(writer, b"changes</text>\n"),
    }
}

/// Writes the beginning of a label whose middle lies at this place, in hundredths of a pixel, and which stands on this
/// line, in pixels from above.
pub(crate) fn put_label<W: Write>(writer: &mut W, middle: u64, line: u32) -> Result<(), WriteFault>
    ensures { Writes result (W.contents writer.old) (W.contents writer.new)
        (label_text middle line) }
{
    put_parts(
        writer,
        &[
            Part::Text(b"<text class=\"m\" x=\""),
            Part::Number(u128::from(middle / 100)),
            Part::Text(b"\" y=\""),
            Part::Number(u128::from(line)),
            Part::Text(b"\">"),
        ],
    )
}

/// Writes the name of a change above its line: the number of its command, or that changes are joined.
fn put_change_name<W: Write>(
    writer: &mut W,
    page: &Page,
    x: u64,
    number: Option<u64>,
) -> Result<(), WriteFault>
    ensures { Writes result (W.contents writer.old) (W.contents writer.new)
        (change_name page.now x number) }
{
    let label = page.label(x, 7 + number_length(number));
    put_label(writer, label, CLASS_TOP - 14)?;
    put_change_number(writer, number)
}

/// Writes the line of the last of changes that are joined, where it lies elsewhere than the first, and the line that
/// joins both above.
fn put_last_change<W: Write>(writer: &mut W, left: u64, right: u64) -> Result<(), WriteFault>
    ensures { Writes result (W.contents writer.old) (W.contents writer.new)
        (last_change left right) }
{
    if left / 100 < right / 100 {
        return put_parts(
            writer,
            &[
                Part::Text(b"<path class=\"c\" d=\"M"),
                Part::Number(u128::from(left / 100)),
                Part::Text(b" "),
                Part::Number(u128::from(CLASS_TOP - 10)),
                Part::Text(b"H"),
                Part::Number(u128::from(right / 100)),
                Part::Text(b"V"),
                Part::Number(u128::from(BOTTOM)),
                Part::Text(b"\"/>\n"),
            ],
        );
    }
    Ok(())
}

/// Writes the line of changes of the schedule, from the first to the last of them: one, or two that are joined above.
fn put_change_lines<W: Write>(writer: &mut W, left: u64, right: u64) -> Result<(), WriteFault>
    ensures { Writes result (W.contents writer.old) (W.contents writer.new)
        (change_lines left right) }
{
    put_line(writer, b"c", left, CLASS_TOP - 10, BOTTOM)?;
    put_last_change(writer, left, right)
}

/// Writes a change of the schedule, with its name where there is room, and answers from where on there is room for the
/// next name. The places are in hundredths of a pixel.
fn put_change_mark<W: Write>(
    writer: &mut W,
    page: &Page,
    shape: &Shape,
    free: u64,
) -> Result<u64, WriteFault>
    ensures text { Writes result (W.contents writer.old) (W.contents writer.new)
        (change_text page.now free shape.now) }
    ensures free { IfOk result (λ next. next ≡ free_after page.now free shape.now) }
{
    let Some(span) = page.viewport.cut(shape.span) else {
        return Ok(free);
    };
    let x = page.x(span.from);
    put_change_lines(writer, x, page.x(span.to))?;
    if free <= x {
        put_change_name(writer, page, x, shape.id)?;
        return Ok(x + LABEL_WIDTH);
    }
    Ok(free)
}

/// Writes a line for each change of the schedule, with its name where there is room.
pub(crate) fn put_change_marks<W: Write>(
    writer: &mut W,
    page: &Page,
    shapes: &[Shape],
) -> Result<(), WriteFault>
    ensures { Writes result (W.contents writer.old) (W.contents writer.new)
        (changes_text page.now 0 shapes.now) }
{
    let mut free = 0;
    for shape in shapes {
        free = put_change_mark(writer, page, shape, free)?;
    }
    Ok(())
}
