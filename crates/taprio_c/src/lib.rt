//! The library as C calls it: one function for each of the program's jobs over memory, and a reader of moments, whose
//! declarations are in `bindings/c/taprio.h`.
//!
//! The contract of each function is that of its job in `in_memory`; what C's values say, and how a moment is told, is
//! specs/FromC.antt.
#![tactic(auto)]

mod values;

ghost use Rattle.std.specs.Prelude.{◌≡◌, List, ℕ, Result, false, true};
ghost use Rattle.abstract_port.specs.declared.Command.{Command};
ghost use Rattle.capture.specs.Records.{Entry};
ghost use Rattle.capture.specs.declared.fault.CapFault.{CapFault};
ghost use Rattle.capture.specs.declared.reader.End.{End};
ghost use Rattle.frame_table.specs.ByStream.{frames_by_stream};
ghost use Rattle.frame_table.specs.OfCapture.{frames_of_capture};
ghost use Rattle.frame_table.specs.Outcome.{frames_of};
ghost use Rattle.in_memory.specs.Bounds.{AnswersBounds, bounds_settings_at};
ghost use Rattle.in_memory.specs.Paths.{AnswersPaths};
ghost use Rattle.in_memory.specs.Captures.{Replays, outputs, told_by_replay};
ghost use Rattle.in_memory.specs.Pictures.{DrawsWith, options_at};
ghost use Rattle.in_memory.specs.Plans.{AnswersPlan};
ghost use Rattle.in_memory.specs.Slices.{Answers, slices, told_by, told_of};
ghost use Rattle.in_memory.specs.Values.{from_at, rate_at, settings_at};
ghost use Rattle.replay.specs.Outcome.{ReadsAs, outcome_of as replay_outcome_of};
ghost use Rattle.replay.specs.Texts.{replay_telling};
ghost use Rattle.replay.specs.declared.stamps.Stamp.TheVariants as Stamps;
ghost use Rattle.schedule_check.specs.CheckEnd.{usual};
ghost use Rattle.schedule_check.specs.Checked.{whole_check};
ghost use Rattle.schedule_check.specs.Windows.{IsTeller, Teller};
ghost use Rattle.script.specs.Outcome.{outcome_of};
ghost use Rattle.script.specs.Texts.{script_telling};
ghost use Rattle.taprio_c.specs.FromC.{asked_of, is_wanted, moment_of, moment_said, picture_values, port_values, stamp_of};
ghost use Rattle.port_text.specs.Reader.{IsReader};
ghost use Rattle.port_text.specs.declared.tc_reader.fault.TcFault.{TcFault};
ghost use Rattle.traffic.specs.Faults.{streams_telling};
ghost use Rattle.traffic.specs.Outcome.{outcome_of as streams_outcome_of};
ghost use Rattle.traffic.specs.Plan.{timed_from};
ghost use Rattle.traffic.specs.declared.plan.Timing.TheVariants.{Drawn, Earliest, Latest};

use crate::values::{
    asked_of, is_wanted, moment_of, moment_said, picture_values, plan_values, port_values, stamp_of,
};
use in_memory::{
    Ran, ReplayRan, bounds_octets, check_octets, draw_octets, frames_by_stream_octets,
    frames_octets, frames_of_capture_octets, paths_octets, plan_octets, replay_octets, run_octets,
    streams_octets,
};
use replay::Stamp;
use std::alloc::Global;
use traffic::Timing;
pub use values::{CMoment, CPictureValues, CPlanValues, CPortValues};

/// Runs a script: its answers come into `output`, and the text of a fault into `fault`; how it ended is written to
/// `ran`.
#[unsafe(no_mangle)]
pub extern "C" fn taprio_run(
    alloc: Global,
    values: &CPortValues,
    script: &[u8],
    output: &mut [u8],
    fault: &mut [u8],
    ran: &mut Ran,
)
    ensures { (read : List (List ℕ) → Result Command TcFault) → IsReader read →
        Answers
        (told_by script_telling (λ settings. outcome_of read settings script.now)
        (settings_at (port_values values.now))) ran.new (slices output.old fault.old)
        (slices output.new fault.new) }
{
    *ran = run_octets(&alloc, port_values(values), script, output, fault);
}

/// Writes the table of the frames of a script, as comma-separated values.
#[unsafe(no_mangle)]
pub extern "C" fn taprio_frames(
    alloc: Global,
    values: &CPortValues,
    script: &[u8],
    output: &mut [u8],
    fault: &mut [u8],
    ran: &mut Ran,
)
    ensures { (read : List (List ℕ) → Result Command TcFault) → IsReader read →
        Answers
        (told_by script_telling (λ settings. frames_of read settings script.now)
        (settings_at (port_values values.now))) ran.new (slices output.old fault.old)
        (slices output.new fault.new) }
{
    *ran = frames_octets(&alloc, port_values(values), script, output, fault);
}

/// Writes the same table with the stream of each frame, by a table of streams.
#[unsafe(no_mangle)]
pub extern "C" fn taprio_frames_by_stream(
    alloc: Global,
    values: &CPortValues,
    table: &[u8],
    script: &[u8],
    output: &mut [u8],
    fault: &mut [u8],
    ran: &mut Ran,
)
    ensures { (read : List (List ℕ) → Result Command TcFault) → IsReader read →
        Answers
        (told_by streams_telling (λ settings. frames_by_stream read settings table.now script.now)
        (settings_at (port_values values.now))) ran.new (slices output.old fault.old)
        (slices output.new fault.new) }
{
    *ran = frames_by_stream_octets(&alloc, port_values(values), table, script, output, fault);
}

/// Writes the same table for the frames of a capture, with the lines of a script among them: those of their replay.
#[unsafe(no_mangle)]
pub extern "C" fn taprio_frames_of_capture(
    alloc: Global,
    values: &CPortValues,
    script: &[u8],
    capture: &[u8],
    output: &mut [u8],
    fault: &mut [u8],
    ran: &mut Ran,
)
    ensures { (read : List (List ℕ) → Result Command TcFault) → IsReader read →
        (records : Result (List Entry × End) CapFault) → ReadsAs capture.now records →
        Answers
        (told_by replay_telling (λ settings. frames_of_capture read settings script.now records)
        (settings_at (port_values values.now))) ran.new (slices output.old fault.old)
        (slices output.new fault.new) }
{
    *ran = frames_of_capture_octets(&alloc, port_values(values), script, capture, output, fault);
}

/// Reads a word as a moment, as the options do: whole picoseconds, or a decimal number with its unit.
#[unsafe(no_mangle)]
pub extern "C" fn taprio_moment(word: &[u8], moment: &mut CMoment)
    ensures { moment.new ≡ moment_said word.now }
{
    *moment = moment_said(word);
}

/// Checks schedule commands at a line rate in Mb/s, with windows unless `windows` is 0.
#[unsafe(no_mangle)]
pub extern "C" fn taprio_check(
    alloc: Global,
    rate: u32,
    windows: u32,
    schedules: &[u8],
    output: &mut [u8],
    fault: &mut [u8],
    ran: &mut Ran,
)
    ensures { (tell : Teller) → IsTeller tell → (read : List (List ℕ) → Result Command TcFault) →
        IsReader read →
        Answers
        (told_by script_telling
        (λ ps. whole_check tell (usual false (is_wanted windows) ps) read schedules.now)
        (rate_at rate)) ran.new (slices output.old fault.old) (slices output.new fault.new) }
{
    let windows = is_wanted(windows);
    *ran = check_octets(&alloc, rate, false, windows, schedules, output, fault);
}

/// The same, with the classes that share windows.
#[unsafe(no_mangle)]
pub extern "C" fn taprio_check_shares(
    alloc: Global,
    rate: u32,
    windows: u32,
    schedules: &[u8],
    output: &mut [u8],
    fault: &mut [u8],
    ran: &mut Ran,
)
    ensures { (tell : Teller) → IsTeller tell → (read : List (List ℕ) → Result Command TcFault) →
        IsReader read →
        Answers
        (told_by script_telling
        (λ ps. whole_check tell (usual true (is_wanted windows) ps) read schedules.now)
        (rate_at rate)) ran.new (slices output.old fault.old) (slices output.new fault.new) }
{
    let windows = is_wanted(windows);
    *ran = check_octets(&alloc, rate, true, windows, schedules, output, fault);
}

/// Makes a script of a table of streams, with the lines of `script` among their frames, which may have no octets.
#[unsafe(no_mangle)]
pub extern "C" fn taprio_streams(
    alloc: Global,
    table: &[u8],
    script: &[u8],
    output: &mut [u8],
    fault: &mut [u8],
    ran: &mut Ran,
)
    ensures { Answers
        (told_of streams_telling
        (streams_outcome_of (timed_from Earliest 0) table.now script.now)) ran.new
        (slices output.old fault.old) (slices output.new fault.new) }
{
    *ran = streams_octets(&alloc, Timing::Earliest, 0, table, script, output, fault);
}

/// The same, with a moment that is added to each offset: `from_high * 2^64 + from_low` picoseconds.
#[unsafe(no_mangle)]
pub extern "C" fn taprio_streams_from(
    alloc: Global,
    from_low: u64,
    from_high: u64,
    table: &[u8],
    script: &[u8],
    output: &mut [u8],
    fault: &mut [u8],
    ran: &mut Ran,
)
    ensures { Answers
        (told_by streams_telling
        (λ from. streams_outcome_of (timed_from Earliest from) table.now script.now)
        (from_at (moment_of from_low from_high))) ran.new (slices output.old fault.old)
        (slices output.new fault.new) }
{
    let from = moment_of(from_low, from_high);
    *ran = streams_octets(&alloc, Timing::Earliest, from, table, script, output, fault);
}

/// The same, with each frame as late as it may come.
#[unsafe(no_mangle)]
pub extern "C" fn taprio_streams_late(
    alloc: Global,
    from_low: u64,
    from_high: u64,
    table: &[u8],
    script: &[u8],
    output: &mut [u8],
    fault: &mut [u8],
    ran: &mut Ran,
)
    ensures { Answers
        (told_by streams_telling
        (λ from. streams_outcome_of (timed_from Latest from) table.now script.now)
        (from_at (moment_of from_low from_high))) ran.new (slices output.old fault.old)
        (slices output.new fault.new) }
{
    let from = moment_of(from_low, from_high);
    *ran = streams_octets(&alloc, Timing::Latest, from, table, script, output, fault);
}

/// The same, with each frame at a moment, and of a length, that `seed` draws.
#[unsafe(no_mangle)]
pub extern "C" fn taprio_streams_drawn(
    alloc: Global,
    seed: u64,
    from_low: u64,
    from_high: u64,
    table: &[u8],
    script: &[u8],
    output: &mut [u8],
    fault: &mut [u8],
    ran: &mut Ran,
)
    ensures { Answers
        (told_by streams_telling
        (λ from. streams_outcome_of (timed_from (Drawn seed) from) table.now script.now)
        (from_at (moment_of from_low from_high))) ran.new (slices output.old fault.old)
        (slices output.new fault.new) }
{
    let from = moment_of(from_low, from_high);
    *ran = streams_octets(
        &alloc,
        Timing::Drawn(seed),
        from,
        table,
        script,
        output,
        fault,
    );
}

/// Answers how long the frames of a table's streams wait under each schedule, for ever; at most `frames` frames of a
/// class are looked at.
#[unsafe(no_mangle)]
pub extern "C" fn taprio_bounds(
    alloc: Global,
    values: &CPortValues,
    frames: u64,
    table: &[u8],
    schedules: &[u8],
    output: &mut [u8],
    fault: &mut [u8],
    ran: &mut Ran,
)
    ensures { (read : List (List ℕ) → Result Command TcFault) → IsReader read →
        AnswersBounds read
        (bounds_settings_at (port_values values.now) frames
        (asked_of 0)) table.now schedules.now ran.new (slices output.old fault.old)
        (slices output.new fault.new) }
{
    *ran = bounds_octets(
        alloc,
        port_values(values),
        frames,
        asked_of(0),
        table,
        schedules,
        output,
        fault,
    );
}

/// The same, with the greatest jitter that each stream with a deadline may have.
#[unsafe(no_mangle)]
pub extern "C" fn taprio_bounds_slack(
    alloc: Global,
    values: &CPortValues,
    frames: u64,
    table: &[u8],
    schedules: &[u8],
    output: &mut [u8],
    fault: &mut [u8],
    ran: &mut Ran,
)
    ensures { (read : List (List ℕ) → Result Command TcFault) → IsReader read →
        AnswersBounds read
        (bounds_settings_at (port_values values.now) frames
        (asked_of 1)) table.now schedules.now ran.new (slices output.old fault.old)
        (slices output.new fault.new) }
{
    *ran = bounds_octets(
        alloc,
        port_values(values),
        frames,
        asked_of(1),
        table,
        schedules,
        output,
        fault,
    );
}

/// The same, with what `asked` says: the greatest jitter that each stream with a deadline may have (1), that frames may
/// wait from before the schedule (2), and that class N sends nothing where it has no streams (256 shifted by N).
#[unsafe(no_mangle)]
pub extern "C" fn taprio_bounds_asked(
    alloc: Global,
    values: &CPortValues,
    frames: u64,
    asked: u32,
    table: &[u8],
    schedules: &[u8],
    output: &mut [u8],
    fault: &mut [u8],
    ran: &mut Ran,
)
    ensures { (read : List (List ℕ) → Result Command TcFault) → IsReader read →
        AnswersBounds read
        (bounds_settings_at (port_values values.now) frames
        (asked_of asked)) table.now schedules.now ran.new (slices output.old fault.old)
        (slices output.new fault.new) }
{
    *ran = bounds_octets(
        alloc,
        port_values(values),
        frames,
        asked_of(asked),
        table,
        schedules,
        output,
        fault,
    );
}

/// Answers how long the frames of a network's streams take from end to end, for ever, under the schedules of its ports; of
/// what `asked` says silent classes and frames that wait from before the schedules count.
#[unsafe(no_mangle)]
pub extern "C" fn taprio_paths(
    alloc: Global,
    values: &CPortValues,
    frames: u64,
    asked: u32,
    network: &[u8],
    schedules: &[u8],
    output: &mut [u8],
    fault: &mut [u8],
    ran: &mut Ran,
)
    ensures { (read : List (List ℕ) → Result Command TcFault) → IsReader read →
        AnswersPaths read
        (bounds_settings_at (port_values values.now) frames
        (asked_of asked)) network.now schedules.now ran.new (slices output.old fault.old)
        (slices output.new fault.new) }
{
    *ran = paths_octets(
        alloc,
        port_values(values),
        frames,
        asked_of(asked),
        network,
        schedules,
        output,
        fault,
    );
}

/// Finds a schedule by which the streams of a table make their deadlines, or one for each port of a network. The device is
/// that of the line where the table names no port.
#[unsafe(no_mangle)]
pub extern "C" fn taprio_plan(
    alloc: Global,
    values: &CPortValues,
    asked: &CPlanValues,
    device: &[u8],
    table: &[u8],
    output: &mut [u8],
    fault: &mut [u8],
    ran: &mut Ran,
)
    ensures { AnswersPlan (settings_at (port_values values.now)) table.now ran.new
        (slices output.old fault.old) (slices output.new fault.new) }
{
    let asked = plan_values(asked, device);
    *ran = plan_octets(alloc, port_values(values), asked, table, output, fault);
}

/// Draws the run of a script as an SVG picture.
#[unsafe(no_mangle)]
pub extern "C" fn taprio_draw(
    alloc: Global,
    values: &CPortValues,
    shown: &CPictureValues,
    script: &[u8],
    output: &mut [u8],
    fault: &mut [u8],
    ran: &mut Ran,
)
    ensures { DrawsWith (settings_at (port_values values.now))
        (options_at (picture_values shown.now)) script.now ran.new (slices output.old fault.old)
        (slices output.new fault.new) }
{
    let shown = picture_values(shown);
    *ran = draw_octets(alloc, port_values(values), shown, script, output, fault);
}

/// Replays a script and a capture: the report and the capture of the frames that leave.
#[unsafe(no_mangle)]
pub extern "C" fn taprio_replay(
    alloc: Global,
    values: &CPortValues,
    script: &[u8],
    capture: &[u8],
    report: &mut [u8],
    departures: &mut [u8],
    fault: &mut [u8],
    ran: &mut ReplayRan,
)
    ensures { (read : List (List ℕ) → Result Command TcFault) → IsReader read →
        (records : Result (List Entry × End) CapFault) → ReadsAs capture.now records →
        Replays
        (told_by_replay
        (λ settings. replay_outcome_of read settings Stamps.Start script.now records)
        (settings_at (port_values values.now))) ran.new
        (outputs report.old departures.old fault.old)
        (outputs report.new departures.new fault.new) }
{
    *ran = replay_octets(
        &alloc,
        port_values(values),
        Stamp::Start,
        script,
        capture,
        report,
        departures,
        fault,
    );
}

/// The same, whose departures carry the moment that `stamp` says: 0 that at which a frame starts, else that at which
/// its last octet has been sent.
#[unsafe(no_mangle)]
pub extern "C" fn taprio_replay_stamped(
    alloc: Global,
    values: &CPortValues,
    stamp: u32,
    script: &[u8],
    capture: &[u8],
    report: &mut [u8],
    departures: &mut [u8],
    fault: &mut [u8],
    ran: &mut ReplayRan,
)
    ensures { (read : List (List ℕ) → Result Command TcFault) → IsReader read →
        (records : Result (List Entry × End) CapFault) → ReadsAs capture.now records →
        Replays
        (told_by_replay
        (λ settings. replay_outcome_of read settings (stamp_of stamp) script.now records)
        (settings_at (port_values values.now))) ran.new
        (outputs report.old departures.old fault.old)
        (outputs report.new departures.new fault.new) }
{
    let stamp = stamp_of(stamp);
    *ran = replay_octets(
        &alloc,
        port_values(values),
        stamp,
        script,
        capture,
        report,
        departures,
        fault,
    );
}
