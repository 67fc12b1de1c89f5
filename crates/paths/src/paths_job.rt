//! The program's job: the bounds of streams from end to end.

ghost use Rattle.text.specs.Buffered.{writer_contents};
ghost use Rattle.paths.specs.PathsEnd.{IsPathsEnding};
ghost use Rattle.script.specs.Given.{octets_of};

use crate::network_lines::paths;
use job::{Ended, Errors, end_run};
use script::Watch;
use std::alloc::{Allocator, Global};
use std::io::{Read, Write};
use stream_bounds::BoundsSettings;
use text::octet_writer::BufWriter;

/// Answers about the network that `network` gives and the schedules that `reader` gives, with these settings and, where
/// it is asked for, the table of a port, through `answers`, with the text of a fault or of a strict run's finding on
/// `errors`; and gives the writer of the answers back. What was answered is let out before a fault is reported; after a
/// failed write no other is tried. Who watches is called as by `paths`.
pub fn answer_paths<B: Allocator, R: Read, S: Read + Drop, W: Write + Drop, E: Errors, H: Watch>(
    alloc: Global,
    settings: &BoundsSettings,
    next: Option<&str>,
    network: S,
    reader: &mut R,
    mut answers: BufWriter<W, B>,
    errors: &mut E,
    watch: &mut H,
) -> (Ended, W)
    ensures { IsPathsEnding settings.now (octets_of next.entry) (S.remaining network)
        (R.remaining reader.old) result.0 (writer_contents W.contents answers) (W.contents result.1)
        (E.contents errors.old) (E.contents errors.new) }
{
    let run = paths(alloc, network, reader, &mut answers, settings, next, watch);
    end_run(run, answers, errors)
}
