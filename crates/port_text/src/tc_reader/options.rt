//! An option with its values.

ghost use Rattle.std.specs.Prelude.{◌≡◌};
ghost use Rattle.port_text.specs.Words.{words_left, words_taken, Moves, option_named, values_at, view, Takes};

use crate::tc_reader::capped::CappedOptions;
use crate::tc_reader::fault::{Opt, TcFault};
use crate::tc_reader::lists::{push_capped, take_list};
use crate::tc_reader::values::{take_clock_name, take_entry, take_flags, take_number};
use text::words::Words;

/// The option that a word names.
pub(crate) fn option_named(word: &[u8]) -> Option<Opt>
    ensures { result ≡ option_named word.now }
{
    if word == b"num_tc".as_slice() {
        Some(Opt::NumTc)
    } else if word == b"map".as_slice() {
        Some(Opt::Map)
    } else if word == b"queues".as_slice() {
        Some(Opt::Queues)
    } else if word == b"base-time".as_slice() {
        Some(Opt::BaseTime)
    } else if word == b"cycle-time".as_slice() {
        Some(Opt::CycleTime)
    } else if word == b"cycle-time-extension".as_slice() {
        Some(Opt::CycleTimeExtension)
    } else if word == b"sched-entry".as_slice() {
        Some(Opt::SchedEntry)
    } else if word == b"clockid".as_slice() {
        Some(Opt::Clockid)
    } else if word == b"flags".as_slice() {
        Some(Opt::Flags)
    } else if word == b"txtime-delay".as_slice() {
        Some(Opt::TxtimeDelay)
    } else if word == b"max-sdu".as_slice() {
        Some(Opt::MaxSdu)
    } else if word == b"fp".as_slice() {
        Some(Opt::Fp)
    } else {
        None
    }
}

/// The values of an option, after its word.
#[tactic(auto, unfolding(crate::specs::Options::values_at))]
pub(crate) fn take_values(
    given: &mut CappedOptions,
    words: &mut Words<'_>,
    opt: Opt,
) -> Result<(), TcFault>
    ensures value { Takes (view given.old)
        (values_at opt (words_taken words.old) (words_left words.old)) result (view given.new)
        (words_left words.new) }
    ensures moves { Moves words.old words.new }
{
    match opt {
        Opt::NumTc => given.num_tc = Some(take_number(words, opt, 255)? as u8),
        Opt::Map => given.priorities = Some(take_list(words)?),
        Opt::Queues => given.ranges = Some(take_list(words)?),
        Opt::BaseTime => given.base_time = Some(take_number(words, opt, u64::MAX)?),
        Opt::CycleTime => given.cycle_time = Some(take_number(words, opt, u64::MAX)?),
        Opt::CycleTimeExtension => given.extension = Some(take_number(words, opt, u64::MAX)?),
        Opt::SchedEntry => {
            let entry = take_entry(words)?;
            push_capped(&mut given.entries, entry);
        }
        Opt::Clockid => {
            take_clock_name(words)?;
            given.clock = true;
        }
        Opt::Flags => {
            take_flags(words)?;
            given.flags = true;
        }
        Opt::MaxSdu => given.limits = Some(take_list(words)?),
        _ => return Err(TcFault::Unsupported(opt)),
    }
    Ok(())
}
