//! Runs a script, and draws what happens.

ghost use Rattle.std.specs.Prelude.{◌≡◌, ◌≤◌, ◌+◌, ◌*◌, ◌↔◌, ℕ, IfOk, IfSome, IsTrue, List, MatchOption, Ok, Result, Some, true};
ghost use Rattle.text.specs.Words.{words_of};
ghost use Rattle.script.specs.Answered.{HasFewVisits};
ghost use Rattle.script.specs.Responses.{responses_to};
ghost use Rattle.wire_time.specs.Moment.{greatest_lead};
ghost use Rattle.drawing.specs.Words.{installs, settled, answers_to, IsSoundPort, greatest_moment, Command, script_left, IsReader, TcFault, reading_of, tc_request, seen_at, ForSomeBands, IsDrawnFrom, MOST_SHAPES, bands_to, course_on, last_moment, picture_after, port_on, seen_by};
ghost use Rattle.text.specs.Script.{script_of};
ghost use Rattle.abstract_port.specs.AbstractPort.{new_port};
ghost use Rattle.text.specs.Writes.{Writes};
ghost use Rattle.wire_time.specs.Wire.{lead_of};
ghost use Rattle.drawing.specs.Followed.{BandsAtEnd, BandsBy, BandsOn, BandsShown, EndBands, FollowedAndEnded, IsFollowed, first_bands, MayBegin, MayGo, Shows, given, given_to};
ghost use Rattle.drawing.specs.declared.options.DrawOptions.{DrawOptions};
ghost use Rattle.drawing.specs.Picture.{fitted_text};
ghost use Rattle.drawing.specs.PictureEnd.{end_text, first_course, page_of, shown_text};
ghost use Rattle.drawing.specs.declared.page.TheConstants.{WIRE};
ghost use Rattle.abstract_port.specs.declared.Event.TheVariants.{Clock, Install};
ghost use Rattle.drawing.specs.Course.{asked_at, class_at, cycle_at, cycle_in, ended_at, no_command};

use crate::course::{Asked, Course};
use crate::drawn::{Drawn, new_drawn};
use crate::options::DrawOptions;
use crate::page::Page;
use crate::scope::Scope;
use crate::svg::put_picture;
use crate::view::View;
use crate::view_fit::fit;
use abstract_port::separation::settling;
use abstract_port::{Answer, Command, Event, Refused};
use picture::{Bands, Viewport, cycle_of};
use port_text::answer_text::WriteFault;
use port_text::tc_reader::CommandPlace;
use script::{Failure, RunFault, RunningPort, Settings, Watch, read_tc_into, walk};
use std::alloc::{AllocError, Allocator, Global};
use std::io::{Read, Write};
use text::line_reader::LineReader;
use wire_time::{MAX_MOMENT, Rate, lead};

/// The class of a frame that comes.
fn class_at<A: Allocator>(port: &RunningPort<A>, event: &Event<'_>) -> Option<u8>
    ensures { result ≡ class_at event.now port.now.port }
{
    match event {
        Event::Arrive(frame) => port.class_for(frame.priority),
        _ => None,
    }
}

/// How long the cycle of a command's schedule is, in picoseconds.
fn cycle_in(command: &Command) -> Option<u128>
    ensures { result ≡ cycle_in command.now }
{
    match command {
        Command::Delete => None,
        Command::Replace(change) => Some(cycle_of(change)),
    }
}

/// How long the cycle of a schedule is that is given, in picoseconds.
fn cycle_at(event: &Event<'_>) -> Option<u128>
    ensures { result ≡ cycle_at event.now }
{
    match event {
        Event::Install(command) => cycle_in(command),
        _ => None,
    }
}

/// What an event says beside its answers.
fn asked_at<A: Allocator>(port: &RunningPort<A>, event: &Event<'_>) -> Asked
    ensures { result ≡ asked_at event.now port.now.port }
{
    Asked {
        class: class_at(port, event),
        cycle: cycle_at(event),
    }
}

/// Takes an event, and draws the answers to it.
pub fn take<A: Allocator>(port: &mut RunningPort<A>, course: &mut Course<A>, event: &Event<'_>)
    ensures course { course.new ≡ seen_at event.now port.old.port course.old }
    ensures port { port.new.port ≡ settled (answers_to event.now port.old.port).1 }
    ensures sound { IsSoundPort port.new.port }
    ensures few { HasFewVisits port.old.port port.old port.new }
{
    let now = port.now();
    let beside = asked_at(port, event);
    let mut asked = Some(*event);
    while let Some(answer) = port.next_answer(&mut asked) {
        course.see(now, beside, &answer);
    }
}

/// Whether the bands are of the time that is to be shown.
fn are_of<A: Allocator>(bands: &Bands<A>, view: View) -> bool
    ensures { IsTrue result ↔ Shows bands.now view }
{
    bands.from() == view.from && bands.to() == view.to
}

/// Where another time is shown than so far, the bands begin anew once the port reaches it: until then a later command
/// may change it.
fn begin_shown<A: Allocator>(bands: &mut Bands<A>, view: View, now: u128)
    ensures { MayBegin view now bands.old bands.new }
{
    if now < view.from || are_of(bands, view) {
        return;
    }
    bands.begin_at(view.from, view.to);
}

/// The bands go on to a moment, in picoseconds, unless it is past.
fn go_on<A: Allocator>(bands: &mut Bands<A>, now: u128)
    requires { now ≤ greatest_moment }
    ensures { MayGo now bands.old bands.new }
{
    if bands.now() <= now {
        bands.go_to(now);
    }
}

/// The bands follow the port to a moment, in picoseconds.
fn follow_to<A: Allocator>(bands: &mut Bands<A>, view: View, now: u128)
    requires { now ≤ greatest_moment }
    ensures { IsFollowed view now bands.old bands.new }
{
    begin_shown(bands, view, now);
    go_on(bands, now);
}

/// The bands go on to where the port is.
pub(crate) fn follow<A: Allocator>(port: &RunningPort<A>, bands: &mut Bands<A>, view: View)
    ensures { IsFollowed view port.now.port.now bands.old bands.new }
{
    follow_to(bands, view, port.now());
}

/// How long after it is given a command has its lead moment, in picoseconds.
fn lead_of(settings: Settings) -> u128
    ensures value { result ≡ lead_of settings.rate settings.mtu }
    ensures within { result ≤ greatest_lead }
{
    let rate = settings.rate();
    // For the prover: the getter says within which limits a rate lies.
    let _ps = rate.ps_per_octet();
    lead(rate, settings.mtu())
}

/// A command that the port accepts is given to the gates of the bands, with its lead moment, in picoseconds.
fn give<A: Allocator>(bands: &mut Bands<A>, command: &Command, rate: Rate, lead: u128)
    requires { lead ≤ greatest_moment + greatest_lead }
    ensures { bands.new ≡ given_to rate lead command.now bands.old }
{
    if bands.now() < lead {
        bands.install(command, rate, lead);
    }
}

/// Gives the port a command, and draws when it comes into force.
fn take_command<A: Allocator>(
    port: &mut RunningPort<A>,
    bands: &mut Bands<A>,
    course: &mut Course<A>,
    command: &Command,
    settings: Settings,
) -> Result<(), Refused>
    ensures course { course.new ≡ seen_by (tc_request (Ok command.now)) port.old.port course.old }
    ensures bands { bands.new ≡ given settings command.now port.old.port bands.old }
    ensures port { port.new.port ≡ (installs port.old.port command.now).1 }
    ensures sound { IsSoundPort port.new.port }
    ensures few { HasFewVisits port.old.port port.old port.new }
{
    let now = port.now();
    let lead = now + lead_of(settings);
    match port.install(command) {
        Err(why) => Err(why),
        Ok(change) => {
            give(bands, command, settings.rate(), lead);
            let beside = Asked {
                class: None,
                cycle: cycle_in(command),
            };
            course.see(now, beside, &Answer::Installed(change));
            Ok(())
        }
    }
}

/// The command that an event gives.
fn command_in<'a>(event: &Event<'a>) -> Option<&'a Command>
    ensures { MatchOption result (no_command event.now ≡ true)
        (λ command. event.now ≡ Install command) }
{
    match event {
        Event::Install(command) => Some(*command),
        _ => None,
    }
}

/// Takes an event that a line asks, and the bands follow.
pub(crate) fn take_asked<A: Allocator>(
    port: &mut RunningPort<A>,
    bands: &mut Bands<A>,
    course: &mut Course<A>,
    event: &Event<'_>,
    settings: Settings,
    options: DrawOptions,
)
    ensures course { course.new ≡ seen_at event.now port.old.port course.old }
    ensures port { port.new.port ≡ settled (answers_to event.now port.old.port).1 }
    ensures bands { BandsOn settings options event.now port.old.port course.old bands.old
        bands.new }
    ensures sound { IsSoundPort port.new.port }
    ensures few { HasFewVisits port.old.port port.old port.new }
{
    // For the prover: a call on a port says what holds of every port.
    let _now = port.now();
    if let Some(command) = command_in(event) {
        let _ = take_command(port, bands, course, command, settings);
        return;
    }
    take(port, course, event);
    follow(port, bands, options.view(course.scope()));
}

/// Takes the line of this number, which begins with `tc`. One that changes nothing isn't drawn, and who watches is
/// called for it. The command is read into a place that is kept from line to line.
pub(crate) fn take_tc<A: Allocator, H: Watch>(
    place: &mut CommandPlace,
    port: &mut RunningPort<A>,
    bands: &mut Bands<A>,
    course: &mut Course<A>,
    number: u32,
    line: &[u8],
    settings: Settings,
    watch: &mut H,
)
    ensures course { (read : List (List ℕ) → Result Command TcFault) → IsReader read →
        course.new ≡ seen_by (tc_request (read (words_of line.now))) port.old.port course.old }
    ensures bands { (read : List (List ℕ) → Result Command TcFault) → IsReader read →
        (o : DrawOptions) →
        BandsBy settings o
        (tc_request (read (words_of line.now))) port.old.port course.old bands.old bands.new }
    ensures port { (read : List (List ℕ) → Result Command TcFault) → IsReader read →
        port.new.port
        ≡ settled (responses_to (tc_request (read (words_of line.now))) port.old.port).1 }
    ensures sound { IsSoundPort port.new.port }
    ensures few { HasFewVisits port.old.port port.old port.new }
{
    // For the prover: a call on a port says what holds of every port.
    let _now = port.now();
    read_tc_into(line, place);
    match &place.answer {
        Err(fault) => watch.command_failed(number, line, Failure::Malformed(*fault)),
        Ok(command) => {
            if let Err(why) = take_command(port, bands, course, command, settings) {
                watch.command_failed(number, line, Failure::Refused(why));
            }
        }
    }
}

/// The run goes on to a moment, in picoseconds, where one is given that isn't past.
pub(crate) fn run_on<A: Allocator>(
    port: &mut RunningPort<A>,
    course: &mut Course<A>,
    until: Option<u128>,
)
    ensures port { port.new.port ≡ port_on until port.old.port }
    ensures course { course.new ≡ course_on until port.old.port course.old }
    ensures sound { IsSoundPort port.new.port }
{
    // For the prover: a call on a port says what holds of every port.
    let _now = port.now();
    match until {
        None => {}
        Some(until) => take(port, course, &Event::Clock(until)),
    }
}

/// The last moment of a run that was to go on to a moment, in picoseconds: that, or the end of the last frame.
fn last_moment<A: Allocator>(course: &Course<A>, asked: u128) -> u128
    ensures value { result ≡ last_moment asked course.now }
    ensures within { result ≤ greatest_moment }
{
    asked.max(course.last()).min(MAX_MOMENT)
}

/// What is drawn of a run up to the end of its picture.
fn end_course<A: Allocator>(port: &mut RunningPort<A>, course: &mut Course<A>, to: u128)
    requires { to ≤ greatest_moment }
    ensures course { course.new ≡ ended_at to (seen_at (Clock to) port.old.port course.old) }
    ensures port { port.new.port ≡ settled (answers_to (Clock to) port.old.port).1 }
{
    take(port, course, &Event::Clock(to));
    course.end_at(to);
}

/// The bands go on to a moment, in picoseconds, and end.
fn end_bands<A: Allocator>(bands: &mut Bands<A>, view: View, now: u128)
    requires { now ≤ greatest_moment }
    ensures { FollowedAndEnded view now bands.old bands.new }
{
    follow_to(bands, view, now);
    bands.end();
}

/// Writes the picture of what is drawn.
fn put_course<A: Allocator, W: Write>(
    bands: &Bands<A>,
    course: &mut Course<A>,
    writer: &mut W,
    page: &Page,
) -> Result<(), WriteFault>
    ensures text { Writes result (W.contents writer.old) (W.contents writer.new)
        (fitted_text page.now bands.now course.old.shown) }
    ensures few { bands_to WIRE bands.now.classes bands.now.mixed ≤ 2 * WIRE * MOST_SHAPES }
{
    fit(bands, course, &page.viewport);
    put_picture(writer, page, bands, course.shapes())
}

/// The page of a picture of a run that has had so much.
fn page_of(settings: Settings, options: DrawOptions, scope: Scope, viewport: Viewport) -> Page
    ensures { result ≡ page_of settings options scope viewport }
{
    Page {
        viewport,
        origin: options.origin(scope),
        rate: settings.rate(),
        mtu: settings.mtu(),
    }
}

/// Runs to the end of what a picture shows, and writes it. The run was to go on to a moment, in picoseconds.
fn draw_shown<A: Allocator, W: Write>(
    port: &mut RunningPort<A>,
    bands: &mut Bands<A>,
    course: &mut Course<A>,
    writer: &mut W,
    settings: Settings,
    options: DrawOptions,
    asked: u128,
    viewport: Viewport,
) -> Result<(), WriteFault>
    requires { asked ≤ greatest_moment }
    ensures { ForSomeBands
        (λ b. EndBands options asked course.old bands.old (Some viewport) b
        × Writes result (W.contents writer.old) (W.contents writer.new)
        (shown_text settings options port.old.port course.old b (Some viewport))) }
{
    let scope = course.scope();
    end_course(port, course, viewport.to());
    end_bands(bands, options.view(scope), asked.max(viewport.to()));
    let page = page_of(settings, options, scope, viewport);
    put_course(bands, course, writer, &page)
}

/// Writes the picture of a run that has ended, and was to go on to a moment, in picoseconds.
pub(crate) fn draw_ended<A: Allocator, W: Write>(
    port: &mut RunningPort<A>,
    bands: &mut Bands<A>,
    course: &mut Course<A>,
    writer: &mut W,
    settings: Settings,
    options: DrawOptions,
    asked: u128,
) -> Result<(), WriteFault>
    requires { asked ≤ greatest_moment }
    ensures { ForSomeBands
        (λ b. BandsShown options asked course.old bands.old b
        × Writes result (W.contents writer.old) (W.contents writer.new)
        (end_text settings options asked port.old.port course.old b)) }
{
    match options.viewport(course.scope(), last_moment(course, asked)) {
        Some(viewport) => draw_shown(
            port, bands, course, writer, settings, options, asked, viewport,
        ),
        None => Ok(()),
    }
}

/// Runs on to the moment that the settings give, if they give one, and then to the end of the picture, and writes it.
fn draw_end<W: Write>(drawn: &mut Drawn, writer: &mut W) -> Result<(), WriteFault>
    ensures { let s = drawn.old.settings in let o = drawn.old.options in
        ForSomeBands
        (λ b. BandsAtEnd s o drawn.old.port.port drawn.old.course drawn.old.bands b
        × Writes result (W.contents writer.old) (W.contents writer.new)
        (picture_after s o drawn.old.port.port drawn.old.course b)) }
{
    run_on(&mut drawn.port, &mut drawn.course, drawn.settings.until());
    let asked = drawn.port.now();
    draw_ended(
        &mut drawn.port,
        &mut drawn.bands,
        &mut drawn.course,
        writer,
        drawn.settings,
        drawn.options,
        asked,
    )
}

/// Runs the lines of a script, and writes the picture of what happens.
fn draw_lines<A: Allocator, R: Read + Drop, W: Write, H: Watch>(
    drawn: &mut Drawn,
    lines: &mut LineReader<R, A>,
    writer: &mut W,
    watch: &mut H,
) -> Result<(), RunFault>
    requires { IsSoundPort drawn.old.port.port }
    ensures { (read : List (List ℕ) → Result Command TcFault) → IsReader read →
        IfSome (script_left R.remaining lines.old)
        (λ script. IsDrawnFrom drawn.old.settings drawn.old.options
        (reading_of read script) drawn.old.port.port drawn.old.course drawn.old.bands result
        (W.contents writer.old) (W.contents writer.new)) }
{
    settling();
    walk(drawn, lines, &mut (), watch)?;
    draw_end(drawn, writer)?;
    Ok(())
}

/// Nothing is drawn yet.
pub(crate) fn first_course<A: Allocator + Clone>(
    alloc: &A,
    settings: Settings,
    options: DrawOptions,
) -> Result<Course<A>, AllocError>
    ensures { IfOk result (λ course. course ≡ first_course settings options) }
{
    let view = options.view(Scope::Nothing);
    Course::new(alloc, settings.room(), view, lead_of(settings))
}

/// Runs a script to its end, and writes the picture of its run: the text that specs/Picture.antt says, of what the port
/// answers. At the first fault of the script, at a failed read, and when out of memory, nothing is written. After a
/// failed write the script has no fault, and what was written is part of no promise. Who watches is called for a
/// malformed line, and for each line that begins with `tc` and changes nothing.
pub fn draw<R: Read + Drop, W: Write, H: Watch>(
    alloc: Global,
    reader: R,
    writer: &mut W,
    settings: Settings,
    options: DrawOptions,
    watch: &mut H,
) -> Result<(), RunFault>
    ensures { (read : List (List ℕ) → Result Command TcFault) → IsReader read →
        IfSome (R.remaining reader)
        (λ input. IsDrawnFrom settings options (reading_of read (script_of input))
        (new_port settings.rate settings.mtu settings.room) (first_course settings options)
        (first_bands options) result (W.contents writer.old) (W.contents writer.new)) }
{
    let mut lines = LineReader::new(&alloc, reader)?;
    let mut drawn = new_drawn(&alloc, settings, options)?;
    draw_lines(&mut drawn, &mut lines, writer, watch)
}
