//! Octets that are put at a place of others.

ghost use Rattle.std.specs.Prelude.{◌≡◌, ◌≤◌, ◌+◌, length, take};
ghost use Rattle.text.specs.Placed.{Placed};

/// Puts octets over as many.
#[inline(always)]
fn put_over<const N: usize>(room: &mut [u8], text: &[u8; N])
    requires { length room.old ≡ N }
    ensures { room.new ≡ text.now }
{
    let Some(room) = room.as_mut_array::<N>() else {
        unreachable!()
    };
    *room = *text;
}

/// Puts a text at a place, and answers where it ends.
#[inline(always)]
pub fn put_text<const N: usize>(text: &[u8; N], line: &mut [u8], at: usize) -> usize
    requires { at + N ≤ length line.old }
    ensures { Placed line.old line.new at text.now result }
{
    let end = at + N;
    put_over(&mut line[at..end], text);
    end
}

/// Puts the first of so many octets at a place where there is room for all of them, and answers where these end.
#[inline(always)]
pub(crate) fn put_front<const N: usize>(
    octets: &[u8; N],
    count: usize,
    line: &mut [u8],
    at: usize,
) -> usize
    requires count { count ≤ N }
    requires room { at + N ≤ length line.old }
    ensures { Placed line.old line.new at (take count octets.now) result }
{
    put_over(&mut line[at..at + N], octets);
    at + count
}
