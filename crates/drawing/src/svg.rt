//! The picture as SVG: its head, its axis, its lanes and its legend.

ghost use Rattle.std.specs.Prelude.{◌≡◌, ◌<◌, ◌≤◌, ◌+◌, ◌*◌};
ghost use Rattle.text.specs.Writes.{Writes};
ghost use Rattle.drawing.specs.Words.{greatest_moment};
ghost use Rattle.drawing.specs.Axis.{axis_step, axis_text, counted, first_tick, last_tick, origin_name, origin_text, roomy_step, step_for, tick_at, tick_name, tick_text, ticks_text, two_or};
ghost use Rattle.drawing.specs.Picture.{all_bands, class_bands, class_name, class_names, foot_text, ground_text, has_mixed, head_text, height_of, is_mixed, lane_text, lanes_text, legend, legend_mark, legend_path, legend_rect, legend_text, marks_text, mixed_legend, name_text, names_text, picture_text, size_text, speed_text, style_text, title_text, wire_name};

use crate::marks::{
    MIXED, digits, has_grey, put_bars, put_change_marks, put_drops, put_greys, put_label,
    put_lights, put_line, put_rect, put_waits,
};
use crate::page::{
    AXIS, BOTTOM, CLASS_TOP, HALF_CHARACTER, HEIGHT, LANES, LEFT, LEGEND, MAX_WIDTH, ORIGIN, Page,
    WIRE, lane_top,
};
use crate::shapes::Shapes;
use picture::{Bands, Unit, tick_step, unit_of};
use port_text::answer_text::{Part, WriteFault, put, put_parts};
use std::alloc::Allocator;
use std::io::Write;

/// How far the second line of the legend lies below the first, in pixels.
const MIXED_LINE: u32 = 18;

/// How the parts of the picture look: set apart by lightness and by form, so that they are in black and white too; and
/// light on dark where the reader asks for that.
const STYLE: &[u8] = b"<style>
svg{background:#fff}
text{font:11px sans-serif;fill:#222}
.t{font-size:15px;font-weight:bold}
.o{fill:#cfe3f5;stroke:#6b8fb0;stroke-width:.5}
.f{fill:#1f4e79;stroke:#fff;stroke-width:.5}
.p{fill:#a8b4c0;stroke:#6b8fb0;stroke-width:.5}
.s{stroke-width:0}
.n{fill:#fff;font-size:10px;text-anchor:middle}
.w{stroke:#b35900;stroke-width:1.5;fill:none}
.d{stroke:#b00020;stroke-width:2;fill:none}
.c{stroke:#222;stroke-dasharray:4 3;fill:none}
.g{stroke:#999;stroke-width:.5;stroke-opacity:.5}
.m{text-anchor:middle}
@media (prefers-color-scheme:dark){
svg{background:#161616}
text{fill:#e6e6e6}
.o{fill:#24415c;stroke:#7ea6c9}
.p{fill:#4d5660;stroke:#7ea6c9}
.f{fill:#9fd0ff;stroke:#161616}
.n{fill:#10202e}
.w{stroke:#ffb35c}
.d{stroke:#ff7b8a}
.c{stroke:#e6e6e6}
}
</style>
";

/// Writes what the picture is called, by its rate, in Mb/s, and its mtu, and what follows.
fn put_speed<W: Write>(
    writer: &mut W,
    megabits: u128,
    mtu: u32,
    end: &[u8],
) -> Result<(), WriteFault>
    ensures { Writes result (W.contents writer.old) (W.contents writer.new)
        (speed_text megabits mtu end.now) }
{
    put_parts(
        writer,
        &[
            Part::Text(b"Transmit port at "),
            Part::Number(megabits),
            Part::Text(b" Mb/s, mtu "),
            Part::Number(u128::from(mtu)),
            Part::Text(b" octets"),
            Part::Text(end),
        ],
    )
}

/// Writes what the picture is called, and what follows.
fn put_name<W: Write>(writer: &mut W, page: &Page, end: &[u8]) -> Result<(), WriteFault>
    ensures { Writes result (W.contents writer.old) (W.contents writer.new)
        (name_text page.now end.now) }
{
    put_speed(writer, 8_000_000 / page.rate.ps_per_octet(), page.mtu, end)
}

/// Writes the beginning of a picture of this size, in pixels.
fn put_size<W: Write>(writer: &mut W, width: u32, height: u32) -> Result<(), WriteFault>
    ensures { Writes result (W.contents writer.old) (W.contents writer.new)
        (size_text width height) }
{
    let width = Part::Number(u128::from(width));
    let height = Part::Number(u128::from(height));
    put_parts(
        writer,
        &[
            Part::Text(b"<svg xmlns=\"http://www.w3.org/2000/svg\" width=\""),
            width,
            Part::Text(b"\" height=\""),
            height,
            Part::Text(b"\" viewBox=\"0 0 "),
            width,
            Part::Text(b" "),
            height,
            Part::Text(b"\" role=\"img\">\n<title>"),
        ],
    )
}

/// Writes how the parts of the picture look.
fn put_style<W: Write>(writer: &mut W) -> Result<(), WriteFault>
    ensures { Writes result (W.contents writer.old) (W.contents writer.new) style_text }
{
    put(writer, STYLE)
}

/// Writes the beginning of the name of the picture above its lanes.
fn put_title<W: Write>(writer: &mut W) -> Result<(), WriteFault>
    ensures { Writes result (W.contents writer.old) (W.contents writer.new) title_text }
{
    put_parts(
        writer,
        &[
            Part::Text(b"<text class=\"t\" x=\""),
            Part::Number(u128::from(LEFT)),
            Part::Text(b"\" y=\"20\">"),
        ],
    )
}

/// Writes the head of the picture: its size, its name and how its parts look.
fn put_head<W: Write>(writer: &mut W, page: &Page, height: u32) -> Result<(), WriteFault>
    ensures { Writes result (W.contents writer.old) (W.contents writer.new)
        (head_text page.now height) }
{
    put_size(writer, page.width(), height)?;
    put_name(writer, page, b"</title>\n")?;
    put_style(writer)?;
    put_title(writer)?;
    put_name(writer, page, b"</text>\n")
}

/// How long after the moment that the axis counts from another is, both in picoseconds.
fn counted(page: &Page, moment: u128) -> u128
    ensures value { result ≡ counted page.now moment }
    ensures within { result ≤ moment }
{
    moment.saturating_sub(page.origin)
}

/// The step of an axis of which at most so many are as long as the time that is shown, in picoseconds.
fn step_for(page: &Page, most: u32) -> u128
    requires { 0 < most }
    ensures value { result ≡ step_for page.now most }
    ensures some { 0 < result }
{
    tick_step(page.viewport.to() - page.viewport.from(), most)
}

/// The step at which the labels of the ticks stand apart, in picoseconds.
fn roomy_step(page: &Page) -> u128
    ensures value { result ≡ roomy_step page.now }
    ensures some { 0 < result }
{
    let plot = u128::from(page.viewport.width()) * 100;
    let coarse = step_for(page, (plot / 8_000) as u32);
    let unit = unit_of(coarse);
    let last = counted(page, page.viewport.to());
    let label = u128::from(digits(last / unit.ps())) + 3;
    let most = (plot / (label * u128::from(2 * HALF_CHARACTER) + 1_200)).max(2);
    step_for(page, most as u32).max(coarse)
}

/// The first multiple of a step that is shown; the step is in picoseconds.
fn first_tick(page: &Page, step: u128) -> u128
    requires { 0 < step }
    ensures { result ≡ first_tick page.now step }
{
    counted(page, page.viewport.from()).div_ceil(step)
}

/// The last multiple of a step that is shown; the step is in picoseconds.
fn last_tick(page: &Page, step: u128) -> u128
    requires { 0 < step }
    ensures value { result ≡ last_tick page.now step }
    ensures few { result ≤ greatest_moment }
    ensures within { result * step ≤ greatest_moment }
{
    counted(page, page.viewport.to()) / step
}

/// A step, where it shows two ticks at least; else another. Both are in picoseconds.
fn two_or(page: &Page, step: u128, other: u128) -> u128
    requires some { 0 < step }
    requires other { 0 < other }
    ensures value { result ≡ two_or page.now step other }
    ensures some { 0 < result }
{
    if first_tick(page, step) < last_tick(page, step) {
        return step;
    }
    other
}

/// The step of the axis, in picoseconds, such that the labels of its ticks stand apart, and there are two at least.
fn axis_step(page: &Page) -> u128
    ensures value { result ≡ axis_step page.now }
    ensures some { 0 < result }
{
    let mut step = step_for(page, 5);
    step = two_or(page, step_for(page, 4), step);
    step = two_or(page, step_for(page, 3), step);
    step = two_or(page, step_for(page, 2), step);
    two_or(page, roomy_step(page), step)
}

/// Writes what a tick of the axis says.
fn put_tick_name<W: Write>(writer: &mut W, number: u128, unit: &[u8]) -> Result<(), WriteFault>
    ensures { Writes result (W.contents writer.old) (W.contents writer.new)
        (tick_name number unit.now) }
{
    put_parts(
        writer,
        &[
            Part::Number(number),
            Part::Text(b" "),
            Part::Text(unit),
            Part::Text(b"</text>\n"),
        ],
    )
}

/// Writes a tick of the axis at this place, with its line through the lanes.
fn put_tick<W: Write>(
    writer: &mut W,
    page: &Page,
    x: u64,
    number: u128,
    unit: &[u8],
) -> Result<(), WriteFault>
    ensures { Writes result (W.contents writer.old) (W.contents writer.new)
        (tick_text page.now x number unit.now) }
{
    put_line(writer, b"g", x, CLASS_TOP - 6, BOTTOM)?;
    let label = page.label(x, digits(number) + 3);
    put_label(writer, label, AXIS)?;
    put_tick_name(writer, number, unit)
}

/// Writes the tick of a time after the moment that the axis counts from, in picoseconds.
fn put_tick_at<W: Write>(
    writer: &mut W,
    page: &Page,
    unit: Unit,
    time: u128,
) -> Result<(), WriteFault>
    ensures { Writes result (W.contents writer.old) (W.contents writer.new)
        (tick_at page.now unit time) }
{
    put_tick(
        writer,
        page,
        page.x(page.origin.saturating_add(time)),
        time / unit.ps(),
        unit.name().as_bytes(),
    )
}

/// Writes a tick at each multiple of a step, in picoseconds, from one on and up to another.
fn put_ticks<W: Write>(
    writer: &mut W,
    page: &Page,
    step: u128,
    first: u128,
    last: u128,
) -> Result<(), WriteFault>
    requires few { last ≤ greatest_moment }
    requires within { last * step ≤ greatest_moment }
    ensures { Writes result (W.contents writer.old) (W.contents writer.new)
        (ticks_text page.now step first last) }
{
    let unit = unit_of(step);
    for tick in first..last + 1 {
        put_tick_at(writer, page, unit, tick * step)?;
    }
    Ok(())
}

/// Writes the axis of time: a tick at each multiple of a round number of a unit, counted from the origin.
fn put_axis<W: Write>(writer: &mut W, page: &Page) -> Result<(), WriteFault>
    ensures { Writes result (W.contents writer.old) (W.contents writer.new) (axis_text page.now) }
{
    let step = axis_step(page);
    let first = first_tick(page, step);
    put_ticks(writer, page, step, first, last_tick(page, step))
}

/// Writes that the axis counts from so many of a unit.
fn put_origin_name<W: Write>(writer: &mut W, number: u128, unit: &[u8]) -> Result<(), WriteFault>
    ensures { Writes result (W.contents writer.old) (W.contents writer.new)
        (origin_name number unit.now) }
{
    put_parts(
        writer,
        &[
            Part::Text(b"<text x=\""),
            Part::Number(u128::from(LEFT)),
            Part::Text(b"\" y=\""),
            Part::Number(u128::from(ORIGIN)),
            Part::Text(b"\">counted from "),
            Part::Number(number),
            Part::Text(b" "),
            Part::Text(unit),
            Part::Text(b"</text>\n"),
        ],
    )
}

/// Writes what the axis counts from, where that isn't moment 0.
fn put_origin<W: Write>(writer: &mut W, page: &Page) -> Result<(), WriteFault>
    ensures { Writes result (W.contents writer.old) (W.contents writer.new) (origin_text page.now) }
{
    if page.origin == 0 {
        return Ok(());
    }
    let unit = unit_of(page.origin);
    put_origin_name(writer, page.origin / unit.ps(), unit.name().as_bytes())
}

/// Writes the name of a class beside its lane.
fn put_class_name<W: Write>(writer: &mut W, class: u8) -> Result<(), WriteFault>
    requires { class < WIRE }
    ensures { Writes result (W.contents writer.old) (W.contents writer.new) (class_name class) }
{
    put_parts(
        writer,
        &[
            Part::Text(b"<text x=\"8\" y=\""),
            Part::Number(u128::from(lane_top(class) + 18)),
            Part::Text(b"\">class "),
            Part::Number(u128::from(class)),
            Part::Text(b"</text>\n"),
        ],
    )
}

/// Writes the names of the classes.
fn put_class_names<W: Write>(writer: &mut W) -> Result<(), WriteFault>
    ensures { Writes result (W.contents writer.old) (W.contents writer.new) class_names }
{
    for class in 0..WIRE {
        put_class_name(writer, class)?;
    }
    Ok(())
}

/// Writes the name of the wire's lane.
fn put_wire_name<W: Write>(writer: &mut W) -> Result<(), WriteFault>
    ensures { Writes result (W.contents writer.old) (W.contents writer.new) wire_name }
{
    put_parts(
        writer,
        &[
            Part::Text(b"<text x=\"8\" y=\""),
            Part::Number(u128::from(lane_top(WIRE) + 18)),
            Part::Text(b"\">wire</text>\n"),
        ],
    )
}

/// Writes the names of the lanes.
fn put_names<W: Write>(writer: &mut W) -> Result<(), WriteFault>
    ensures { Writes result (W.contents writer.old) (W.contents writer.new) names_text }
{
    put_class_names(writer)?;
    put_wire_name(writer)
}

/// Writes the text of a part of the legend, at this pixel from the left and on this line.
fn put_legend_text<W: Write>(
    writer: &mut W,
    x: u32,
    line: u32,
    text: &[u8],
) -> Result<(), WriteFault>
    ensures { Writes result (W.contents writer.old) (W.contents writer.new)
        (legend_text x line text.now) }
{
    put_parts(
        writer,
        &[
            Part::Text(b"<text x=\""),
            Part::Number(u128::from(x)),
            Part::Text(b"\" y=\""),
            Part::Number(u128::from(line)),
            Part::Text(b"\">"),
            Part::Text(text),
            Part::Text(b"</text>\n"),
        ],
    )
}

/// Writes a path of the legend, that begins at this pixel from the left and at its line.
fn put_legend_path<'a, W: Write>(
    writer: &mut W,
    look: &'a [u8],
    x: u32,
    path: &'a [u8],
) -> Result<(), WriteFault>
    ensures { Writes result (W.contents writer.old) (W.contents writer.new)
        (legend_path look.now x path.now) }
{
    put_parts(
        writer,
        &[
            Part::Text(b"<path class=\""),
            Part::Text(look),
            Part::Text(b"\" d=\"M"),
            Part::Number(u128::from(x)),
            Part::Text(b" "),
            Part::Number(u128::from(LEGEND)),
            Part::Text(path),
            Part::Text(b"\"/>\n"),
        ],
    )
}

/// Writes what a rectangle means that looks so, at this pixel from the left and on this line.
fn put_legend_rect<'a, W: Write>(
    writer: &mut W,
    look: &'a [u8],
    x: u32,
    line: u32,
    text: &'a [u8],
) -> Result<(), WriteFault>
    requires x { x ≤ MAX_WIDTH }
    requires line { 10 ≤ line }
    ensures { Writes result (W.contents writer.old) (W.contents writer.new)
        (legend_rect look.now x line text.now) }
{
    put_rect(writer, look, u64::from(x) * 100, 2_200, line - 10, 12)?;
    put_legend_text(writer, x + 28, line, text)
}

/// Writes what a path means that looks so, at this pixel from the left, with the text so far behind it.
fn put_legend_mark<'a, W: Write>(
    writer: &mut W,
    look: &'a [u8],
    x: u32,
    path: &'a [u8],
    gap: u32,
    text: &'a [u8],
) -> Result<(), WriteFault>
    requires { x + gap ≤ MAX_WIDTH }
    ensures { Writes result (W.contents writer.old) (W.contents writer.new)
        (legend_mark look.now x path.now gap text.now) }
{
    put_legend_path(writer, look, x, path)?;
    put_legend_text(writer, x + gap, LEGEND, text)
}

/// Writes what the parts of the picture mean.
fn put_legend<W: Write>(writer: &mut W) -> Result<(), WriteFault>
    ensures { Writes result (W.contents writer.old) (W.contents writer.new) legend }
{
    put_legend_rect(writer, b"o", LEFT, LEGEND, b"open")?;
    put_legend_rect(writer, b"f", LEFT + 70, LEGEND, b"frame")?;
    put_legend_mark(writer, b"w", LEFT + 142, b"v-9m0 5h22", 28, b"waits")?;
    put_legend_mark(writer, b"d", LEFT + 216, b"l8 -8m0 8l-8 -8", 14, b"dropped")?;
    put_legend_mark(writer, b"c", LEFT + 290, b"v-12", 8, b"change")
}

/// Writes what the look of times means at which a class is open and closed, below the legend, where there are any.
fn put_mixed_legend<W: Write>(writer: &mut W, mixed: bool) -> Result<(), WriteFault>
    ensures { Writes result (W.contents writer.old) (W.contents writer.new) (mixed_legend mixed) }
{
    if !mixed {
        return Ok(());
    }
    put_legend_rect(
        writer,
        MIXED,
        LEFT,
        LEGEND + MIXED_LINE,
        b"open and closed, too close to show each",
    )
}

/// Whether something of a class's lane is grey.
fn is_mixed<A: Allocator>(page: &Page, bands: &Bands<A>, class: u8) -> bool
    requires { class < WIRE }
    ensures { result ≡ is_mixed page.now bands.now class }
{
    has_grey(page, bands.lane(class), false) || has_grey(page, bands.mixed(class), true)
}

/// Whether something of some class's lane is.
fn has_mixed<A: Allocator>(page: &Page, bands: &Bands<A>) -> bool
    ensures { result ≡ has_mixed page.now bands.now }
{
    for class in 0..WIRE {
        if is_mixed(page, bands, class) {
            return true;
        }
    }
    false
}

/// Writes the bands of a class.
fn put_class_bands<A: Allocator, W: Write>(
    writer: &mut W,
    page: &Page,
    bands: &Bands<A>,
    class: u8,
) -> Result<(), WriteFault>
    requires { class < WIRE }
    ensures { Writes result (W.contents writer.old) (W.contents writer.new)
        (class_bands page.now bands.now class) }
{
    let top = lane_top(class);
    let shapes = bands.lane(class);
    put_lights(writer, page, top, shapes)?;
    put_greys(writer, page, top, shapes, false)?;
    put_greys(writer, page, top, bands.mixed(class), true)
}

/// Writes the bands of the classes.
fn put_all_bands<A: Allocator, W: Write>(
    writer: &mut W,
    page: &Page,
    bands: &Bands<A>,
) -> Result<(), WriteFault>
    ensures { Writes result (W.contents writer.old) (W.contents writer.new)
        (all_bands page.now bands.now) }
{
    for class in 0..WIRE {
        put_class_bands(writer, page, bands, class)?;
    }
    Ok(())
}

/// Writes what is drawn in a lane.
fn put_lane<A: Allocator, W: Write>(
    writer: &mut W,
    page: &Page,
    lane: u8,
    shapes: &Shapes<A>,
) -> Result<(), WriteFault>
    requires { lane < LANES }
    ensures { Writes result (W.contents writer.old) (W.contents writer.new)
        (lane_text page.now shapes.now lane) }
{
    let top = lane_top(lane);
    put_waits(writer, page, top, shapes.waits(lane))?;
    put_bars(writer, page, top, shapes.frames(lane))?;
    put_drops(writer, page, top, shapes.drops(lane))
}

/// Writes what is drawn in the lanes.
fn put_lanes<A: Allocator, W: Write>(
    writer: &mut W,
    page: &Page,
    shapes: &Shapes<A>,
) -> Result<(), WriteFault>
    ensures { Writes result (W.contents writer.old) (W.contents writer.new)
        (lanes_text page.now shapes.now) }
{
    for lane in 0..LANES {
        put_lane(writer, page, lane, shapes)?;
    }
    Ok(())
}

/// Writes what lies behind the marks: the head, the axis and the names of the lanes.
fn put_ground<W: Write>(writer: &mut W, page: &Page, height: u32) -> Result<(), WriteFault>
    ensures { Writes result (W.contents writer.old) (W.contents writer.new)
        (ground_text page.now height) }
{
    put_head(writer, page, height)?;
    put_axis(writer, page)?;
    put_origin(writer, page)?;
    put_names(writer)
}

/// Writes the marks: the bands, what is drawn in the lanes, and the changes.
fn put_marks<A: Allocator, W: Write>(
    writer: &mut W,
    page: &Page,
    bands: &Bands<A>,
    shapes: &Shapes<A>,
) -> Result<(), WriteFault>
    ensures { Writes result (W.contents writer.old) (W.contents writer.new)
        (marks_text page.now bands.now shapes.now) }
{
    put_all_bands(writer, page, bands)?;
    put_lanes(writer, page, shapes)?;
    put_change_marks(writer, page, shapes.changes())
}

/// Writes the legend, and the end of the picture.
fn put_foot<W: Write>(writer: &mut W, mixed: bool) -> Result<(), WriteFault>
    ensures { Writes result (W.contents writer.old) (W.contents writer.new) (foot_text mixed) }
{
    put_legend(writer)?;
    put_mixed_legend(writer, mixed)?;
    put(writer, b"</svg>\n")
}

/// The height of a picture, in pixels: of one with times at which a class is open and closed, it has one line more.
fn height_of(mixed: bool) -> u32
    ensures { result ≡ height_of mixed }
{
    if mixed { HEIGHT + MIXED_LINE } else { HEIGHT }
}

/// Writes the picture of these bands and shapes. At a fault a prefix of it is written.
pub fn put_picture<A: Allocator, W: Write>(
    writer: &mut W,
    page: &Page,
    bands: &Bands<A>,
    shapes: &Shapes<A>,
) -> Result<(), WriteFault>
    ensures { Writes result (W.contents writer.old) (W.contents writer.new)
        (picture_text page.now bands.now shapes.now) }
{
    let mixed = has_mixed(page, bands);
    put_ground(writer, page, height_of(mixed))?;
    put_marks(writer, page, bands, shapes)?;
    put_foot(writer, mixed)
}
