//! The program: what it does with its words, its input and its two outputs.
//!
//! The exit status is 0 where all is done, 1 where a strict run has found something, 2 where the words are refused, 3
//! where the input is, and 4 where a read, a write or memory failed, or a file can't be opened. `run` lends the
//! process's own streams; all else is over any reader, writers and files.
//!
//! The contracts of the calls over readers, writers and files cite the definitions of each job; what words say is
//! specs/Given.antt.
#![tactic(auto)]

ghost use Rattle.std.specs.Prelude.{◌≡◌};
ghost use Rattle.text.specs.Buffered.{writer_contents};
ghost use Rattle.job.specs.RunEnd.{IsUnanswered};
ghost use Rattle.job.specs.Texts.{IsTold};
ghost use Rattle.program.specs.Given.{memory_text};

mod bounds_call;
mod calls;
mod capture_input;
mod compare_call;
mod devices;
mod draw_call;
mod early;
mod frames_call;
mod job_name;
mod laws;
mod noted;
mod onlooker;
mod options;
mod paths_call;
mod piped;
mod plain_input;
mod plan_call;
mod progress;
mod replay_call;
mod same_file;
mod stream_ids;
mod streams_call;

pub use bounds_call::bounds_given;
use calls::answer_words;
pub use calls::{answer_given, check_given};
pub use draw_call::draw_given;
pub use frames_call::frames_given;
use job::{Ended, end_told, say_fault};
pub use laws::replay_words;
pub use noted::Noted;
use options::reads_input;
pub use options::values_of;
pub use paths_call::paths_given;
use piped::Piped;
pub use plan_call::plan_for;
pub use progress::Progress;
pub use replay_call::replay_given;
use script::RunFault;
use std::alloc::Allocator;
use std::io::{IsTerminal, Write};
use std::process::ExitCode;
pub use streams_call::streams_given;
use text::octet_writer::BufWriter;

/// How many octets of each output are kept until they are let out.
const BUFFER: usize = 131_072;

/// Reports that memory is out before the program has begun.
fn end_without_memory<E: Write>(errors: &mut E) -> Ended
    ensures status { result.status ≡ 4 }
    ensures told { IsTold result.told (E.contents errors.old) (E.contents errors.new) memory_text }
{
    say_fault(&RunFault::Memory, errors)
}

/// Reports that memory is out, and gives the writer of the answers back. Nothing is answered.
fn end_forgotten<B: Allocator, W: Write + Drop, E: Write>(
    answers: BufWriter<W, B>,
    errors: &mut E,
) -> (Ended, W)
    ensures { IsUnanswered 4 memory_text result.0 (writer_contents W.contents answers)
        (W.contents result.1) (E.contents errors.old) (E.contents errors.new) }
{
    end_told(end_without_memory(errors), answers)
}

/// Says that the input is read from a terminal. Whether that can be told changes nothing.
fn prompt<E: Write>(errors: &mut E) {
    let _ = errors.write_all(b"reading from the terminal; Ctrl-D ends the input\n");
}

/// Runs the program on the words, the standard input and the two standard outputs of the process, and answers its exit
/// status.
pub fn run(rt: &HostRuntime) -> ExitCode {
    let mut errors = rt.stderr();
    let Ok(args) = std::env::args(rt) else {
        return ExitCode::from(end_without_memory(&mut errors).status);
    };
    let Ok(words) = args.collect::<Vec<String>>(rt.alloc()) else {
        return ExitCode::from(end_without_memory(&mut errors).status);
    };
    let Ok(answers) = BufWriter::with_capacity(rt.alloc(), BUFFER, Piped::new(rt.stdout())) else {
        return ExitCode::from(end_without_memory(&mut errors).status);
    };
    let mut progress = Progress::new(rt, rt.stderr());
    let terminal = errors.is_terminal();
    if terminal {
        progress.start();
    }
    if rt.stdin().is_terminal() && reads_input(words.as_slice()) {
        prompt(&mut errors);
    }
    let (ended, _stdout) = answer_words(
        rt,
        rt.alloc(),
        words.as_slice(),
        &mut rt.stdin(),
        answers,
        &mut errors,
        &mut progress,
        terminal,
    );
    ExitCode::from(ended.status)
}
