//! The octets that were read and not yet taken.

ghost use Rattle.std.specs.Prelude.{◌≡◌, ◌≤◌, ◌<◌, ◌+◌, [], drop, length, take, IfOk, IsTrue, OnOk, vec_len};
ghost use Rattle.std.specs.Io.KnownBytes.{Keeps, IsAtEnd, ReadConsumes, prepend_known};

use std::alloc::{AllocError, Allocator, Global};
use std::io;
use std::io::Read;

/// How many octets are read at once.
const CHUNK: usize = 65_536;

/// Octets that were read and not yet taken: `octets[start..end]`. They lie in one piece. What stands behind them is room
/// for more, which is filled once, when it is taken.
#[derive(Drop)]
pub(crate) struct Hand<A: Allocator = Global> {
    octets: Vec<u8, A>,
    start: usize,
    end: usize,
    ghost within: { (start ≤ end) × (end ≤ vec_len octets) },
}

impl<A: Allocator> Hand<A> {
    ghost use Rattle.translated.specs.Hand.{held};

    /// No octets, and no memory.
    pub fn new(alloc: A) -> Hand<A>
        ensures { held result ≡ [] }
    {
        Hand {
            octets: Vec::new(alloc),
            start: 0,
            end: 0,
        }
    }

    /// The octets that are held.
    pub fn octets(&self) -> &[u8]
        ensures { result.now ≡ held self.now }
    {
        let (start, end) = (self.start, self.end);
        let all = self.octets.as_slice();
        &all[start..end]
    }

    /// Whether none is held.
    pub fn is_empty(&self) -> bool
        ensures { IsTrue result → held self.now ≡ [] }
    {
        self.start == self.end
    }

    /// Takes octets from the front of those that are held.
    pub fn take(&mut self, count: usize)
        requires { count ≤ length (held self.old) }
        ensures { held self.new ≡ drop count (held self.old) }
    {
        self.start += count;
    }

    /// Moves what is held to the front of its memory.
    fn pull(&mut self)
        ensures held { held self.new ≡ held self.old }
        ensures start { self.new.start ≡ 0 }
    {
        let (start, end) = (self.start, self.end);
        self.octets.copy_within(start..end, 0);
        self.start = 0;
        self.end = end - start;
    }

    /// Takes room for a chunk behind what is held, where there is less.
    fn make_room(&mut self) -> Result<(), AllocError>
        ensures held { held self.new ≡ held self.old }
        ensures room { OnOk result (self.new.end < vec_len self.new.octets) }
    {
        let wanted = self.end.saturating_add(CHUNK);
        if self.octets.len() < wanted {
            self.octets.resize(wanted, 0)?;
        }
        Ok(())
    }

    /// Reads once, behind what is held. How many octets came: none where the source has ended.
    pub fn fill<R: Read>(&mut self, source: &mut R) -> io::Result<usize>
        ensures octets { Keeps (prepend_known (held self.old) (R.remaining source.old))
            (prepend_known (held self.new) (R.remaining source.new)) }
        ensures ended { IfOk result (λ count. count ≡ 0 → IsAtEnd (R.remaining source.new)) }
        ensures none { IfOk result (λ count. count ≡ 0 → held self.new ≡ held self.old) }
        ensures more { IfOk result (λ count.
            length (held self.new) ≡ length (held self.old) + count) }
    {
        self.pull();
        self.make_room()?;
        let end = self.end;
        let count = read_behind(self.octets.as_mut_slice(), end, source)?;
        self.end = end + count;
        Ok(count)
    }
}

/// Reads once, into the place behind the first octets.
fn read_behind<R: Read>(octets: &mut [u8], first: usize, source: &mut R) -> io::Result<usize>
    requires { first < length octets.old }
    ensures front { take first octets.new ≡ take first octets.old }
    ensures len { length octets.new ≡ length octets.old }
    ensures within { IfOk result (λ count. first + count ≤ length octets.new) }
    ensures read { ReadConsumes (R.remaining source.old)
        (R.remaining source.new) result (drop first octets.new) }
{
    source.read(&mut octets[first..])
}
