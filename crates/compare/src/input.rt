//! Reads an input, a capture or a table of frames.

ghost use Rattle.std.specs.Prelude.{◌≡◌, ◌⊎◌, ℕ, IfErr, IfOk, IfSome, List, Ok};
ghost use Rattle.text.specs.Source.{TakesOctet};
ghost use Rattle.job.specs.declared.fault.Fault.{Fault};
ghost use Rattle.job.specs.declared.fault.Fault.TheVariants as Faults;
ghost use Rattle.compare.specs.Frames.{Reading, Says, begins_capture, is_magic};
ghost use Rattle.compare.specs.Payloads.{AreNumbered, ReadsNumbered};
ghost use Rattle.compare.specs.Read.{IsFront};
ghost use Rattle.compare.specs.declared.faults.Trouble.{Trouble};

use crate::faults::Trouble;
use crate::frame::Frame;
use crate::payloads::Numbers;
use crate::records::read_capture;
use crate::settings::By;
use crate::table::read_table;
use job::Fault;
use std::alloc::Allocator;
use std::io::Read;

/// How many octets tell a capture from a table.
const MAGIC: usize = 4;

/// Whether four octets are a magic number of a classic capture: in microseconds or nanoseconds, the highest first or
/// the lowest.
fn is_magic(a: u8, b: u8, c: u8, d: u8) -> bool
    ensures { result ≡ is_magic a b c d }
{
    (a == 0xa1 && b == 0xb2 && c == 0xc3 && d == 0xd4)
        || (a == 0xd4 && b == 0xc3 && c == 0xb2 && d == 0xa1)
        || (a == 0xa1 && b == 0xb2 && c == 0x3c && d == 0x4d)
        || (a == 0x4d && b == 0x3c && c == 0xb2 && d == 0xa1)
}

/// Whether octets begin with one.
fn begins_capture(octets: &[u8]) -> bool
    ensures { result ≡ begins_capture octets.now }
{
    octets.len() >= 4 && is_magic(octets[0], octets[1], octets[2], octets[3])
}

/// The next octet of an input, if there is one.
fn next_octet<R: Read>(reader: &mut R) -> Result<Option<u8>, Fault<Trouble>>
    ensures octet { IfOk result
        (λ o. TakesOctet {E = Fault Trouble} (R.remaining reader.old) (Ok o)
        (R.remaining reader.new)) }
    ensures fault { IfErr result (λ fault. fault ≡ Faults.Read) }
{
    let mut octet = [0u8];
    match reader.read(&mut octet) {
        Ok(0) => Ok(None),
        Ok(_) => Ok(Some(octet[0])),
        Err(_) => Err(Fault::Read),
    }
}

/// Reads the first octets of an input, fewer where it ends before.
fn read_front<A: Allocator + Clone, R: Read>(
    alloc: A,
    reader: &mut R,
) -> Result<Vec<u8, A>, Fault<Trouble>>
    ensures front { IfOk result
        (λ front. IsFront (R.remaining reader.old) front.items (R.remaining reader.new)) }
    ensures fault { IfErr result (λ fault. (fault ≡ Faults.Read) ⊎ (fault ≡ Faults.Memory)) }
{
    let mut front = Vec::new(alloc);
    'octets: while front.len() < MAGIC {
        let octet = match next_octet(reader) {
            Ok(Some(octet)) => octet,
            Ok(None) => return Ok(front),
            Err(fault) => return Err(fault),
        };
        match front.push(octet) {
            Ok(()) => {}
            Err(_) => return Err(Fault::Memory),
        }
    }
    Ok(front)
}

/// Reads an input, and puts its frames behind others.
pub(crate) fn read_input<A: Allocator + Clone + Drop, B: Allocator, R: Read + Drop>(
    alloc: &A,
    reader: R,
    numbers: &mut Numbers<A>,
    by: By,
    frames: &mut Vec<Frame, B>,
) -> Result<(), Fault<Trouble>>
    ensures { (seen : List (List ℕ)) → AreNumbered seen numbers.old →
        IfSome (R.remaining reader) (λ octets. (reading : Reading) → Says by seen octets reading →
        ReadsNumbered result reading frames.old.items frames.new.items numbers.new) }
{
    let mut reader = reader;
    let front = match read_front(alloc, &mut reader) {
        Ok(front) => front,
        Err(fault) => return Err(fault),
    };
    let whole = front.as_slice().chain(reader);
    if begins_capture(&front) {
        read_capture(alloc, whole, numbers, by, frames)
    } else {
        read_table(alloc, whole, by, frames)
    }
}
