//! Runs a script and a capture, and draws what happens.

ghost use Rattle.std.specs.Prelude.{◌≡◌, ◌≤◌, ℕ, Err, IfSome, List, None, Ok, Result, Some, false, true};
ghost use Rattle.text.specs.Writes.{Writes};
ghost use Rattle.drawing.specs.Followed.{BandsTo};
ghost use Rattle.drawing.specs.OfCapture.{BandsOfBoth, IsDrawnBeside, IsDrawnWhole, WhereWhole, asked_to, picture_read};
ghost use Rattle.drawing.specs.PictureEnd.{picture_to};
ghost use Rattle.drawing.specs.Words.{CapFault, Command, Comes, End, Entry, ForSomeBands, IsReader, IsSoundPort, ReadsAs, TcFault, greatest_moment, first_place, is_too_late, kept_requests, left, drawn_place, run_end};
ghost use Rattle.job.specs.declared.fault.Fault.TheVariants as Faults;
ghost use Rattle.replay.specs.declared.faults.ReplayInput.TheVariants as Inputs;

use crate::draw_run::{draw_ended, run_on};
use crate::drawn::{Drawn, new_drawn};
use crate::options::DrawOptions;
use abstract_port::separation::settling;
use capture::CaptureReader;
use port_text::answer_text::WriteFault;
use replay::{
    ByEvents, KeptScript, ReplayFault, ReplayInput, ended_by, is_too_late, open_capture,
    read_script, run_end, walk_both,
};
use script::{Settings, Watch};
use std::alloc::{Allocator, Global};
use std::io::{Read, Write};

/// Up to which moment a run was to go on that came from one moment to another, in picoseconds.
fn asked_to(until: Option<u128>, from: u128, to: u128) -> u128
    requires from { from ≤ greatest_moment }
    requires to { to ≤ greatest_moment }
    ensures value { result ≡ asked_to until from to }
    ensures within { result ≤ greatest_moment }
{
    match until {
        None => from,
        Some(_) => to,
    }
}

/// Runs on to the moment that the settings of the run give, or where they give none until no frame can start any more;
/// and then to the end of the picture, and writes it.
fn draw_end_of_both<W: Write>(
    drawn: &mut Drawn,
    settings: Settings,
    writer: &mut W,
) -> Result<(), WriteFault>
    requires { is_too_late settings.until ≡ false }
    ensures { let o = drawn.old.options in
        ForSomeBands
        (λ b. BandsTo (Some (run_end settings.until)) settings o drawn.old.port.port
        drawn.old.course drawn.old.bands b
        × Writes result (W.contents writer.old) (W.contents writer.new)
        (picture_to (Some (run_end settings.until)) settings o drawn.old.port.port
        drawn.old.course b)) }
{
    let from = drawn.port.now();
    let until = settings.until();
    run_on(&mut drawn.port, &mut drawn.course, Some(run_end(until)));
    let asked = asked_to(until, from, drawn.port.now());
    draw_ended(
        &mut drawn.port,
        &mut drawn.bands,
        &mut drawn.course,
        writer,
        settings,
        drawn.options,
        asked,
    )
}

/// Draws the run of a kept script and of the records of a capture, of which nothing is drawn yet.
fn draw_both<B: Allocator, C: Allocator, R: Read, W: Write, H: Watch>(
    drawn: &mut ByEvents<Drawn>,
    script: &KeptScript<B>,
    records: &mut CaptureReader<R, C>,
    writer: &mut W,
    watch: &mut H,
) -> Result<(), ReplayFault>
    requires until { is_too_late drawn.old.taker.settings.until ≡ false }
    requires begun { (left records.old).ended ≡ None }
    requires first { (left records.old).number ≡ 0 }
    requires place { drawn_place drawn.old.taker
        ≡ first_place drawn.old.taker.settings drawn.old.taker.options }
    requires sound { IsSoundPort drawn.old.taker.port.port }
    ensures { (read : List (List ℕ) → Result Command TcFault) → IsReader read →
        (entries : List Entry) (last : End) → Comes R.remaining (left records.old) entries last →
        ForSomeBands
        (λ bands. WhereWhole result
        (BandsOfBoth drawn.old.taker.settings drawn.old.taker.options
        (kept_requests read script.now.octets.items script.now.lines.items) entries bands)
        × IsDrawnWhole result (W.contents writer.old) (W.contents writer.new)
        (picture_read drawn.old.taker.settings drawn.old.taker.options
        (kept_requests read script.now.octets.items script.now.lines.items)
        (Ok (entries, last)) bands)) }
{
    settling();
    let settings = drawn.taker.settings;
    let broken = walk_both(drawn, script, records, None, &mut (), watch)?;
    draw_end_of_both(&mut drawn.taker, settings, writer)?;
    ended_by(broken)
}

/// Reads a script to its end, and then the records of a capture, and writes the picture of a replay of both: that of the
/// events of both by moment. The ID of a frame is the number of its record, from 0.
///
/// The inputs are read as `replay::replay` reads them, and the run ends as there: at the moment of the settings, or
/// where they have none when no frame can start any more; the picture then ends at the last line or record, or where the
/// last frame does. Nothing is written where the script or the file header of the capture has a fault, at a failed read,
/// and when out of memory. A record with a fault ends the capture: the picture is that of the records before it, and of
/// the whole script. Who watches is called as for a replay.
pub fn draw_capture<R: Read + Drop, S: Read + Drop, W: Write, H: Watch>(
    alloc: Global,
    script: R,
    capture: S,
    writer: &mut W,
    settings: Settings,
    options: DrawOptions,
    watch: &mut H,
) -> Result<(), ReplayFault>
    ensures picture { (read : List (List ℕ) → Result Command TcFault) → IsReader read →
        IfSome (R.remaining script)
        (λ lines. IfSome (S.remaining capture) (λ octets.
        (records : Result (List Entry × End) CapFault) → ReadsAs octets records →
        IsDrawnBeside read settings options lines records result
        (W.contents writer.old) (W.contents writer.new))) }
    ensures late { is_too_late settings.until ≡ true →
        (result ≡ Err (Faults.Input Inputs.Until)) × (writer.new ≡ writer.old) }
{
    if is_too_late(settings.until()) {
        return Err(ReplayFault::Input(ReplayInput::Until));
    }
    let script = read_script(&alloc, script, watch)?;
    let mut records = open_capture(&alloc, capture)?;
    let taker = new_drawn(&alloc, settings, options)?;
    let mut drawn = ByEvents { taker };
    draw_both(&mut drawn, &script, &mut records, writer, watch)
}
