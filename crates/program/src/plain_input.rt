//! The lines of schedule commands as the words ask for them: as they are plainly meant, or those of one device.

ghost use Rattle.std.specs.Prelude.{◌≡◌, ℕ, List, option_map};
ghost use Rattle.clap.specs.Matches.{found_of};
ghost use Rattle.script.specs.Given.{octets_of};
ghost use Rattle.translated.specs.Outlook.{meaning_where};
ghost use Rattle.program.specs.Plain.{asks_lines, changes_lines, of_device, plain_in, reads_commands};

use crate::job_name::JobName;
use crate::options::{is_given, value_of};
use clap::ArgMatches;
use pasted::{Lines, Note, OfDevice, Others, Tolerant};
use std::alloc::Global;
use std::io::Read;
use translated::{Translated, Translation};

/// What was passed over in lines that a job read.
#[derive(Drop)]
pub(crate) struct PassedOver {
    /// What of pasted lines.
    pub pasted: Note,
    /// The lines of other devices.
    pub others: Others,
}

impl PassedOver {
    /// Nothing.
    pub fn none() -> PassedOver {
        PassedOver {
            pasted: Note::NONE,
            others: Others::none(),
        }
    }
}

/// A reader of lines as the words ask for them.
pub(crate) type PlainReader<'n, R> = Translated<
    Translated<R, Option<Lines<Tolerant<'n>>>>,
    Option<Lines<OfDevice<'n>>>,
>;

/// Whether the standard input of a job has lines with schedule commands.
fn reads_commands(name: JobName) -> bool
    ensures { result ≡ reads_commands name }
{
    match name {
        JobName::Script | JobName::Check | JobName::Bounds => true,
        JobName::Paths | JobName::Draw | JobName::Frames => true,
        _ => false,
    }
}

/// Whether the words ask for other lines than those that stand there.
fn asks_lines(matches: &ArgMatches<'_>) -> bool
    ensures { result ≡ asks_lines (found_of matches.now) }
{
    is_given(matches, "tolerant") || value_of(matches, "device").is_some()
}

/// Whether a job reads other lines of its standard input than those that stand there.
pub(crate) fn changes_lines(name: JobName, matches: &ArgMatches<'_>) -> bool
    ensures { result ≡ changes_lines name (found_of matches.now) }
{
    reads_commands(name) && asks_lines(matches)
}

/// Lines as they are pasted, where that is asked; what is passed over is noted.
fn tolerant_lines<'n>(tolerant: bool, note: &'n mut Note) -> Option<Lines<Tolerant<'n>>>
    ensures { (octets : List ℕ) →
        meaning_where (⟦<Lines<Tolerant<'n>> as Translation>⟧.meaning) result octets
        ≡ plain_in tolerant octets }
{
    if tolerant {
        Some(Lines::new(Tolerant::new(note)))
    } else {
        None
    }
}

/// The lines of a device, where one is named; what is passed over is noted.
fn device_lines<'n>(name: Option<&'n str>, others: &'n mut Others) -> Option<Lines<OfDevice<'n>>>
    ensures { (octets : List ℕ) →
        meaning_where (⟦<Lines<OfDevice<'n>> as Translation>⟧.meaning) result octets
        ≡ of_device (octets_of name.entry) octets }
{
    match name {
        Some(name) => Some(Lines::new(OfDevice::new(name.as_bytes(), others))),
        None => None,
    }
}

/// The lines of a reader as they are asked for: as they are plainly meant, or those of a device. What is passed over is
/// noted.
pub(crate) fn plain_reader<'n, R: Read>(
    alloc: Global,
    reader: R,
    tolerant: bool,
    device: Option<&'n str>,
    passed: &'n mut PassedOver,
) -> PlainReader<'n, R>
    ensures { ⟦<PlainReader<'n, R> as Read>⟧.remaining result
        ≡ option_map (λ octets. of_device (octets_of device.entry) (plain_in tolerant octets))
        (R.remaining reader) }
{
    let pasted = tolerant_lines(tolerant, &mut passed.pasted);
    let plain = Translated::new(alloc, alloc, reader, pasted);
    Translated::new(
        alloc,
        alloc,
        plain,
        device_lines(device, &mut passed.others),
    )
}
