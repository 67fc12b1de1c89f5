//! Readers of lines as they are pasted, and of the lines of one device.

ghost use Rattle.std.specs.Prelude.{◌≡◌, option_map};
ghost use Rattle.translated.specs.Outlook.{outlook};
ghost use Rattle.pasted.specs.State.{meaning_by};
ghost use Rattle.pasted.specs.Device.{device_rule, lines_of_device};
ghost use Rattle.pasted.specs.Plain.{plain_lines, plain_rule};

use crate::lines::Lines;
use crate::note::Note;
use crate::of_device::OfDevice;
use crate::others::Others;
use crate::tolerant::Tolerant;
use std::alloc::Allocator;
use std::io::Read;
use translated::Translated;

/// A reader that gives the plain lines of tc that the lines of `source` mean. What is passed over is added to the note.
///
/// It takes no memory, and reads nothing yet. When out of memory, a read fails, and nothing is lost.
pub fn tolerant_reader<'n, R: Read, A: Allocator>(
    hand: A,
    turned: A,
    source: R,
    note: &'n mut Note,
) -> Translated<R, Lines<Tolerant<'n>>, A>
    ensures { outlook R.remaining (meaning_by (λ _. plain_rule)) result
        ≡ option_map plain_lines (R.remaining source) }
{
    Translated::new(hand, turned, source, Lines::new(Tolerant::new(note)))
}

/// A reader that gives the lines of `source`, of which those of tc of other devices are empty. How many these are is
/// added to the note.
///
/// It takes no memory, and reads nothing yet. When out of memory, a read fails, and nothing is lost.
pub fn device_reader<'d, R: Read, A: Allocator>(
    hand: A,
    turned: A,
    source: R,
    name: &'d [u8],
    others: &'d mut Others,
) -> Translated<R, Lines<OfDevice<'d>>, A>
    ensures { outlook R.remaining (meaning_by (λ d. device_rule d.name.now)) result
        ≡ option_map (lines_of_device name.now) (R.remaining source) }
{
    Translated::new(
        hand,
        turned,
        source,
        Lines::new(OfDevice::new(name, others)),
    )
}
