//! How a run ends whose output goes through a buffer.

ghost use Rattle.std.specs.Prelude.{◌≡◌, ◌⊎◌, [], Err};
ghost use Rattle.text.specs.Buffered.{writer_buffer, writer_contents};
ghost use Rattle.std.specs.Io.KnownBytes.{Keeps, append_known};
ghost use Rattle.job.specs.RunEnd.{IsEndOf};
ghost use Rattle.job.specs.declared.fault.Fault.TheVariants as Faults;

use crate::fault::Fault;
use crate::input::InputFault;
use crate::kind::Errors;
use crate::report::{Ended, say_run};
use std::alloc::Allocator;
use std::io::Write;
use text::octet_writer::BufWriter;

/// Lets out what was written, also before a fault, unless a write failed already: no write is tried again.
fn let_out<I: Copy, W: Write + Drop, B: Allocator>(
    run: Result<(), Fault<I>>,
    answers: &mut BufWriter<W, B>,
) -> Result<(), Fault<I>>
    ensures kept { (result ≡ run) ⊎ (result ≡ Err Faults.Write) }
    ensures out { (writer_buffer answers.new ≡ []) ⊎ (result ≡ Err Faults.Write) }
    ensures bytes { Keeps (writer_contents W.contents answers.old)
        (writer_contents W.contents answers.new) }
    ensures once { run ≡ Err Faults.Write → answers.new ≡ answers.old }
{
    if let Err(Fault::Write) = run {
        return run;
    }
    if answers.flush().is_err() {
        return Err(Fault::Write);
    }
    run
}

/// Ends a run whose output went through `answers`: lets out what was written, also before a fault, but after a failed
/// write; then reports the fault on `errors`, where there is one; and gives the writer back. What the run has written
/// is then what the writer has got, with what no write let out.
pub fn end_run<I: InputFault, B: Allocator, W: Write + Drop, E: Errors>(
    run: Result<(), Fault<I>>,
    mut answers: BufWriter<W, B>,
    errors: &mut E,
) -> (Ended, W)
    ensures { IsEndOf I.telling run (writer_contents W.contents answers) result.0
        (W.contents result.1) (E.contents errors.old) (E.contents errors.new) }
{
    let run = let_out(run, &mut answers);
    let ended = say_run(run, errors);
    let (writer, _unwritten) = answers.into_parts();
    (ended, writer)
}

/// Gives the writer of the output back where a run ended before anything was written, as this says.
pub fn end_told<B: Allocator, W: Write + Drop>(ended: Ended, answers: BufWriter<W, B>) -> (Ended, W)
    ensures ended { result.0 ≡ ended }
    ensures kept { append_known (W.contents result.1) (writer_buffer answers)
        ≡ writer_contents W.contents answers }
{
    let (writer, _unwritten) = answers.into_parts();
    (ended, writer)
}
