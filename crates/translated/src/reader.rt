//! A reader that gives what another one's octets are turned into.

ghost use Rattle.std.specs.Prelude.{◌≡◌, ◌≤◌, ◌++◌, [], drop, length, min, take, true, option_map, vec_len, IfOk, IsTrue, OnOk};
ghost use Rattle.std.specs.Io.{ReadsAtMost};
ghost use Rattle.std.specs.Io.KnownBytes.{IsAtEnd, Keeps, ReadConsumes};

use crate::hand::Hand;
use crate::translation::Translation;
use std::alloc::{AllocError, Allocator, Global};
use std::io;
use std::io::Read;

/// Gives what a translation turns the octets of a source into.
///
/// It reads only where the translation wants more than is in hand. When out of memory, a read fails, and nothing is lost.
#[derive(Drop)]
pub struct Translated<R, T, A: Allocator = Global> {
    source: R,
    hand: Hand<A>,
    translation: T,
    turned: Vec<u8, A>,
    given: usize,
    ghost within: { given ≤ vec_len turned },
}

impl<R: Read, T: Translation, A: Allocator> Translated<R, T, A> {
    ghost use Rattle.translated.specs.Outlook.{Passes, outlook};

    /// A reader of what comes from `source`. It takes no memory, and reads nothing yet.
    pub fn new(hand: A, turned: A, source: R, translation: T) -> Translated<R, T, A>
        ensures { outlook R.remaining T.meaning result
            ≡ option_map (T.meaning translation) (R.remaining source) }
    {
        Translated {
            source,
            hand: Hand::new(hand),
            translation,
            turned: Vec::new(turned),
            given: 0,
        }
    }

    /// Has the translation take octets in hand, where all that it put before is given. How many it took.
    fn turn(&mut self, is_last: bool) -> Result<usize, AllocError>
        requires given { drop self.old.given self.old.turned.items ≡ [] }
        requires last { is_last ≡ true → IsAtEnd (R.remaining self.old.source) }
        ensures kept { Keeps (outlook R.remaining T.meaning self.old)
            (outlook R.remaining T.meaning self.new) }
        ensures source { self.new.source ≡ self.old.source }
        ensures done { IfOk result (λ count. is_last ≡ true → count ≡ 0 →
            drop self.new.given self.new.turned.items ≡ [] →
            IsAtEnd (outlook R.remaining T.meaning self.new)) }
    {
        self.turned.clear();
        self.given = 0;
        match self
            .translation
            .turn(self.hand.octets(), is_last, &mut self.turned)
        {
            Ok(count) => {
                self.hand.take(count);
                Ok(count)
            }
            Err(fault) => {
                self.turned.clear();
                Err(fault)
            }
        }
    }

    /// How many octets are put and not yet given.
    fn waiting(&self) -> usize
        ensures { result ≡ length (drop self.now.given self.now.turned.items) }
    {
        self.turned.len() - self.given
    }

    /// Has the last octets taken, where no more come, until something is put or nothing is left.
    fn finish(&mut self) -> io::Result<()>
        requires given { drop self.old.given self.old.turned.items ≡ [] }
        requires last { IsAtEnd (R.remaining self.old.source) }
        ensures kept { Keeps (outlook R.remaining T.meaning self.old)
            (outlook R.remaining T.meaning self.new) }
        ensures done { OnOk result (drop self.new.given self.new.turned.items ≡ [] →
            IsAtEnd (outlook R.remaining T.meaning self.new)) }
    {
        for _ in 0..u64::MAX {
            let count = self.turn(true)?;
            if count == 0 || self.waiting() > 0 {
                return Ok(());
            }
        }
        Err(io::Error::from(io::ErrorKind::Interrupted))
    }

    /// Reads and turns until something is put, or nothing is left.
    fn fill(&mut self) -> io::Result<()>
        requires given { drop self.old.given self.old.turned.items ≡ [] }
        ensures kept { Keeps (outlook R.remaining T.meaning self.old)
            (outlook R.remaining T.meaning self.new) }
        ensures done { OnOk result (drop self.new.given self.new.turned.items ≡ [] →
            IsAtEnd (outlook R.remaining T.meaning self.new)) }
    {
        for _ in 0..u64::MAX {
            let count = self.turn(false)?;
            if self.waiting() > 0 || self.translation.is_over() {
                return Ok(());
            }
            if count == 0 && self.hand.fill(&mut self.source)? == 0 {
                return self.finish();
            }
        }
        Err(io::Error::from(io::ErrorKind::Interrupted))
    }

    /// Whether what comes from the source is given as it is, from here on.
    fn passes(&self) -> bool
        ensures { IsTrue result → Passes T.meaning self.now }
    {
        self.hand.is_empty() && self.translation.passes()
    }

    /// Reads what comes from the source, as it is.
    fn pass(&mut self, buf: &mut [u8]) -> io::Result<usize>
        requires given { drop self.old.given self.old.turned.items ≡ [] }
        requires passes { Passes T.meaning self.old }
        ensures bound { ReadsAtMost result buf.new }
        ensures bytes { ReadConsumes (outlook R.remaining T.meaning self.old)
            (outlook R.remaining T.meaning self.new) result buf.new }
    {
        self.source.read(buf)
    }

    /// Gives what is put, as far as there is room for it.
    fn give(&mut self, buf: &mut [u8]) -> usize
        ensures count { result ≡ min (length buf.new)
            (length (drop self.old.given self.old.turned.items)) }
        ensures octets { drop self.old.given self.old.turned.items
            ≡ take result buf.new ++ drop self.new.given self.new.turned.items }
        ensures source { self.new.source ≡ self.old.source }
        ensures hand { self.new.hand ≡ self.old.hand }
        ensures translation { self.new.translation ≡ self.old.translation }
        ensures turned { self.new.turned ≡ self.old.turned }
    {
        let start = self.given;
        let all = self.turned.as_slice();
        let ready = &all[start..];
        let count = buf.len().min(ready.len());
        buf[..count].copy_from_slice(&ready[..count]);
        self.given = start + count;
        count
    }
}

impl<R: Read, T: Translation, A: Allocator> Read for Translated<R, T, A> {
    ghost use Rattle.translated.specs.Outlook.{outlook};

    ghost remaining = { outlook R.remaining T.meaning };

    fn read(&mut self, buf: &mut [u8]) -> io::Result<usize>
        ensures bound { ReadsAtMost result buf.new }
        ensures bytes { ReadConsumes (outlook R.remaining T.meaning self.old)
            (outlook R.remaining T.meaning self.new) result buf.new }
    {
        if buf.is_empty() {
            return Ok(0);
        }
        if self.waiting() > 0 {
            return Ok(self.give(buf));
        }
        if self.passes() {
            return self.pass(buf);
        }
        self.fill()?;
        Ok(self.give(buf))
    }
}
