//! A picture in memory.

ghost use Rattle.std.specs.Prelude.{◌≡◌, decimal, option_map};
ghost use Rattle.script.specs.Given.{octets_of};
ghost use Rattle.in_memory.specs.Pictures.{Draws, DrawsWith, options_at};
ghost use Rattle.in_memory.specs.Slices.{slices};
ghost use Rattle.in_memory.specs.Values.{settings_at};

use crate::jobs::{Ran, end_in_memory, refuse_value};
use crate::values::{PortValues, settings_at};
use drawing::{DrawOptions, DrawValues, draw, options_given};
use itoa::Buffer;
use script::{BadValue, Settings, Unwatched};
use std::alloc::Global;

/// What a picture shows, as numbers that are still to be judged.
#[derive(Clone, Copy, Debug, PartialEq, Eq)]
pub struct PictureValues {
    /// The moment that the picture begins at, in picoseconds, at most the greatest moment less a microsecond; none:
    /// moment 0 where its end is given.
    pub from: Option<u128>,
    /// The moment that it ends at, in picoseconds, after the one that it begins at; none: the end of the run where its
    /// beginning is given. With neither the picture covers what the run has (`drawing::Scope`).
    pub to: Option<u128>,
    /// Its width, 400 to 2400 pixels.
    pub width: u32,
}

/// The word that spells a moment, where there is one, in decimal.
fn spelled<'a>(buffer: &'a mut Buffer, moment: Option<u128>) -> Option<&'a str>
    ensures { octets_of result ≡ option_map decimal moment }
{
    match moment {
        None => None,
        Some(moment) => Some(buffer.format(moment)),
    }
}

/// The options of these values, which are judged as the words that spell them in decimal. The first that is out of its
/// limits is the fault.
pub fn options_at(values: PictureValues) -> Result<DrawOptions, BadValue>
    ensures { result ≡ options_at values }
{
    let mut from = Buffer::new();
    let mut to = Buffer::new();
    let mut width = Buffer::new();
    options_given(DrawValues {
        from: spelled(&mut from, values.from),
        to: spelled(&mut to, values.to),
        width: Some(width.format(values.width)),
    })
}

/// Draws the run of a script.
fn draw_with(
    alloc: Global,
    settings: Settings,
    options: DrawOptions,
    script: &[u8],
    output: &mut [u8],
    fault: &mut [u8],
) -> Ran
    ensures { Draws settings options script.now result (slices output.old fault.old)
        (slices output.new fault.new) }
{
    let mut written = Vec::new(alloc);
    let run = draw(
        alloc,
        script,
        &mut written,
        settings,
        options,
        &mut Unwatched,
    );
    end_in_memory(&alloc, run, written.as_slice(), output, fault)
}

/// Draws the run of a script with these values: the picture, as `drawing::draw` writes it, comes into `output`, and the
/// text of a fault into `fault`, as the program writes it on its standard error. The memory is that of `Global`, as a
/// drawing's is.
///
/// Status 2 where a value is out of its limits, first those of the port; 3 where a line has a fault, with its text and
/// no picture.
pub fn draw_octets(
    alloc: Global,
    values: PortValues,
    shown: PictureValues,
    script: &[u8],
    output: &mut [u8],
    fault: &mut [u8],
) -> Ran
    ensures { DrawsWith (settings_at values) (options_at shown) script.now result
        (slices output.old fault.old) (slices output.new fault.new) }
{
    let settings = match settings_at(values) {
        Ok(settings) => settings,
        Err(value) => return refuse_value(&alloc, value, output, fault),
    };
    match options_at(shown) {
        Ok(options) => draw_with(alloc, settings, options, script, output, fault),
        Err(value) => refuse_value(&alloc, value, output, fault),
    }
}
