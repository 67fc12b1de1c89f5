//! The octets of an input.

ghost use Rattle.std.specs.Prelude.{◌≡◌, ◌++◌, IfErr, IfOk, IfSome};
ghost use Rattle.plan.specs.Reads.{AddsSome, IsUnread};

use crate::faults::{PlanFault, PlanInput};
use std::alloc::Allocator;
use std::io::Read;

/// How many octets a table has at most.
pub const MAX_OCTETS: usize = 16_777_216;

/// How many octets are read at once.
const CHUNK: usize = 4096;

/// Adds octets, where there is room for them.
fn add<A: Allocator>(octets: &mut Vec<u8, A>, more: &[u8]) -> Result<(), PlanFault>
    ensures added { IfOk result (λ _. octets.new.items ≡ octets.old.items ++ more.now) }
    ensures why { IfErr result (IsUnread (octets.old.items ++ more.now)) }
{
    if octets.len() > MAX_OCTETS || more.len() > MAX_OCTETS - octets.len() {
        return Err(PlanFault::Input(PlanInput::Large));
    }
    match octets.extend_from_slice(more) {
        Ok(()) => Ok(()),
        Err(_) => Err(PlanFault::Memory),
    }
}

/// Reads once, and adds what is read. Whether that was anything: else the input has ended.
fn read_some<A: Allocator, R: Read>(
    octets: &mut Vec<u8, A>,
    reader: &mut R,
) -> Result<bool, PlanFault>
    ensures read { IfOk result
        (λ more. AddsSome more (R.remaining reader.old)
        (R.remaining reader.new) octets.old.items octets.new.items) }
    ensures why { IfErr result (λ why.
        IfSome (R.remaining reader.old) (λ left. IsUnread (octets.old.items ++ left) why)) }
{
    let mut chunk = [0u8; CHUNK];
    let Ok(count) = reader.read(&mut chunk) else {
        return Err(PlanFault::Read);
    };
    let (read, _) = chunk.split_at(count);
    match add(octets, read) {
        Ok(()) => Ok(count != 0),
        Err(why) => Err(why),
    }
}

/// Reads an input to its end. A read that fails isn't tried again.
pub(crate) fn read_octets<A: Allocator, R: Read>(
    alloc: A,
    reader: &mut R,
) -> Result<Vec<u8, A>, PlanFault>
    ensures read { IfOk result
        (λ octets. IfSome (R.remaining reader.old) (λ table. octets.items ≡ table)) }
    ensures why { IfErr result (λ why.
        IfSome (R.remaining reader.old) (λ table. IsUnread table why)) }
{
    let mut octets = Vec::new(alloc);
    'reads: for _read in 0..u64::MAX {
        match read_some(&mut octets, reader) {
            Ok(true) => {}
            Ok(false) => return Ok(octets),
            Err(why) => return Err(why),
        }
    }
    Err(PlanFault::Read)
}
