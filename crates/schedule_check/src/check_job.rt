//! The program's second job: schedules are checked by the values of options.

ghost use Rattle.std.specs.Prelude.{◌≡◌, IfErr};
ghost use Rattle.text.specs.Buffered.{writer_contents};
ghost use Rattle.schedule_check.specs.Alerts.{IsWatchedEnding};
ghost use Rattle.schedule_check.specs.CheckEnd.{checks_given};
ghost use Rattle.schedule_check.specs.Words.{whole_check, IsTeller, Teller, IsEnding, octets_of};

use crate::schedules::check;
use crate::settings::{CheckWords, checks_given};
use job::{Ended, Errors, end_run};
use script::{Watch, end_with_value};
use std::alloc::Allocator;
use std::io::{Read, Write};
use text::octet_writer::BufWriter;

/// Checks the schedules that `reader` gives, as these words ask for it, through `answers`, with the text of a fault on
/// `errors`; and gives the writer of the answers back. What was reported is let out before a fault is; after a failed
/// write no other is tried. Where a value is bad nothing is read.
pub fn answer_check<A: Allocator, B: Allocator, R: Read, W: Write + Drop, E: Errors, H: Watch>(
    alloc: A,
    words: CheckWords<'_>,
    reader: &mut R,
    mut answers: BufWriter<W, B>,
    errors: &mut E,
    watch: &mut H,
) -> (Ended, W)
    ensures ending { let given = checks_given (octets_of words.entry.rate)
        (octets_of words.entry.mtu) (octets_of words.entry.map)
        (octets_of words.entry.frame) words.entry.shares words.entry.windows words.entry.script in
        (tell : Teller) → IsTeller tell →
        IsEnding (whole_check tell) given (R.remaining reader.old) result.0
        (writer_contents W.contents answers) (W.contents result.1) (E.contents errors.old)
        (E.contents errors.new) }
    ensures watched { let given = checks_given (octets_of words.entry.rate)
        (octets_of words.entry.mtu) (octets_of words.entry.map)
        (octets_of words.entry.frame) words.entry.shares words.entry.windows words.entry.script in
        IsWatchedEnding H.alerted given (R.remaining reader.old) result.0 watch.old watch.new }
    ensures unread { let given = checks_given (octets_of words.entry.rate)
        (octets_of words.entry.mtu) (octets_of words.entry.map)
        (octets_of words.entry.frame) words.entry.shares words.entry.windows words.entry.script in
        IfErr given (λ _. reader.new ≡ reader.old) }
{
    match checks_given(words) {
        Ok(settings) => {
            let run = check(alloc, reader, &mut answers, settings, watch);
            end_run(run, answers, errors)
        }
        Err(value) => end_with_value(value, answers, errors),
    }
}
