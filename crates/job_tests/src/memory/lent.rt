//! What tests lend: slices of dots, and what a port runs with.

ghost use Rattle.std.specs.Prelude.{◌≤◌};

use in_memory::{PortValues, Ran};

/// So many dots are put where an output goes.
pub const ROOM: usize = 512;

/// A slice that nothing was written to.
pub const DOTS: [u8; ROOM] = [b'.'; ROOM];

/// What the program has where no words are given.
pub const USUAL: PortValues = PortValues {
    rate: 1000,
    mtu: 1500,
    room: 128,
    until: None,
    summary: false,
};

/// A run that is done, with so many octets of output.
pub fn done(output: usize) -> Ran {
    Ran {
        output,
        fault: 0,
        status: 0,
    }
}

/// Whether a slice of dots has this text at its front, and nothing else.
pub fn has(slice: &[u8], text: &[u8]) -> bool {
    match slice.strip_prefix(text) {
        Some(rest) => rest.iter().all(|octet| *octet == b'.'),
        None => false,
    }
}

/// Whether a job whose input has a fault gave these answers and told this text; or nothing, where one of the two slices
/// lacks an octet.
pub fn has_told(ran: Ran, is_short: bool, whole: [&[u8]; 2], output: &[u8], fault: &[u8]) -> bool {
    let [answers, text] = whole;
    let wanted = Ran {
        output: answers.len(),
        fault: text.len(),
        status: if is_short { 5 } else { 3 },
    };
    if is_short {
        return ran == wanted && has(output, b"") && has(fault, b"");
    }
    ran == wanted && has(output, answers) && has(fault, text)
}

/// As much room as a text takes, or one octet less; at most as much as there is.
pub fn room_for(text: &[u8], is_short: bool) -> usize
    ensures { result ≤ ROOM }
{
    let room = if is_short {
        text.len().saturating_sub(1)
    } else {
        text.len()
    };
    room.min(ROOM)
}
