//! The lines of tc of one device.

ghost use Rattle.std.specs.Prelude.{◌≡◌, ◌++◌, ℕ, List, IfOk, OnErr, Some, true, false};
ghost use Rattle.text.specs.Words.{words_of};
ghost use Rattle.pasted.specs.OthersNoted.{IsCounted};
ghost use Rattle.pasted.specs.Device.{device_in, device_rule, is_of_other, line_feeds};

use crate::device::other_device;
use crate::line_rule::{Line, LineRule};
use crate::others::Others;
use crate::place::Place;
use std::alloc::{AllocError, Allocator};

/// Leaves the lines of tc of one device, and all lines that are none of tc or name no device. Of the others only the
/// line feeds are left, so that the numbers of lines stay; they are noted.
#[derive(Drop)]
pub struct OfDevice<'d> {
    name: &'d [u8],
    others: &'d mut Others,
}

impl<'d> OfDevice<'d> {
    /// What is passed over is added to the note.
    pub fn new(name: &'d [u8], others: &'d mut Others) -> OfDevice<'d>
        ensures name { result.name.now ≡ name.now }
        ensures others { result.others.now ≡ others.old }
    {
        OfDevice { name, others }
    }
}

/// Puts the line feeds among octets.
fn put_line_feeds<A: Allocator>(octets: &[u8], out: &mut Vec<u8, A>) -> Result<(), AllocError>
    ensures text { IfOk result (λ _. out.new.items ≡ out.old.items ++ line_feeds octets.now) }
{
    for octet in octets {
        if *octet == b'\n' {
            out.extend_from_slice(b"\n")?;
        }
    }
    Ok(())
}

impl LineRule for OfDevice<'_> {
    ghost rule = { λ d. device_rule d.name.now };

    fn is_whole(&self) -> bool {
        true
    }

    fn put<A: Allocator>(
        &mut self,
        line: &Line<'_>,
        out: &mut Vec<u8, A>,
    ) -> Result<Place, AllocError>
        ensures text { IfOk result (λ _. out.new.items ≡ out.old.items
            ++ ((device_rule self.old.name.now).turned line.now.place line.now.text.now
            ++ line.now.end.now)) }
        ensures next { IfOk result (λ place.
            place ≡ (device_rule self.old.name.now).next line.now.place line.now.text.now) }
        ensures rule { device_rule self.new.name.now ≡ device_rule self.old.name.now }
        ensures noted { IfOk result (λ _. (device : List ℕ)
            → device_in (words_of line.now.text.now) ≡ Some device
            → is_of_other self.old.name.now line.now.text.now ≡ true
            → IsCounted self.old.others.now line.now.number device self.new.others.now) }
        ensures stays { IfOk result (λ _. is_of_other self.old.name.now line.now.text.now ≡ false →
            self.new ≡ self.old) }
        ensures failed { OnErr result (self.new ≡ self.old) }
    {
        let Some(device) = other_device(line.text, self.name) else {
            out.extend_from_slice(line.text)?;
            out.extend_from_slice(line.end)?;
            return Ok(line.place);
        };
        put_line_feeds(line.text, out)?;
        out.extend_from_slice(line.end)?;
        self.others.count(line.number, device);
        Ok(line.place)
    }
}
