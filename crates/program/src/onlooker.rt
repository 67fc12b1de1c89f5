//! Who watches a run for the program: what it finds is reported on standard error, and is counted where the run is
//! strict.

use crate::devices::{Named, named_in};
use crate::early::Openness;
use crate::job_name::JobName;
use crate::plain_input::PassedOver;
use crate::progress::Progress;
use crate::stream_ids::{StreamIds, ids_of};
use abstract_port::{Change, Command, Dropped};
use arrayvec::ArrayVec;
use hints::{
    put_basis, put_block_fault, put_busy_class, put_comment, put_devices, put_early,
    put_end_without, put_failure, put_fault_hint, put_frame_dropped, put_frames_left, put_linux,
    put_missed, put_no_command, put_no_frame, put_none_judged, put_open_port, put_others,
    put_passed, put_rounded, put_shared_ids,
};
use job::{CaptureKind, Ended, Errors, FaultKind};
use pcapng::BlockFault;
use script::{Basis, Failure, Missed, Watch, read_tc};
use std::alloc::Global;
use std::io::{self, Write};
use std::time::Clock;
use text::octet_writer::put;
use text::words::Words;
use wire_time::Frame;

/// How many octets of a line are kept, to be shown.
const LINE: usize = 4096;

/// How many octets of a fault's text are kept: a path has some 4,000.
const TEXT: usize = 8192;

/// How many commands that change nothing are explained, and how many comments.
const EXPLAINED: u32 = 20;

/// The text of a fault, before it is written, and what it was.
#[derive(Drop)]
pub(crate) struct FaultText {
    text: ArrayVec<u8, TEXT>,
    kind: Option<FaultKind>,
}

impl FaultText {
    ghost use Rattle.std.specs.Prelude.{◌≡◌, []};

    /// No text.
    pub fn new() -> FaultText
        ensures { result.text.items ≡ [] }
    {
        FaultText {
            text: ArrayVec::new(),
            kind: None,
        }
    }

    /// Whether the first octets of a capture say more of it.
    pub fn is_of_capture(&self) -> bool {
        matches!(
            self.kind,
            Some(FaultKind::Capture(CaptureKind::BadMagic | CaptureKind::BadLink))
        )
    }
}

impl Errors for FaultText {
    ghost use Rattle.std.specs.Prelude.{◌≡◌, Some};

    ghost knows = { λ t kind. t.kind ≡ Some kind };

    fn found(&mut self, kind: FaultKind) {
        self.kind = Some(kind);
    }
}

impl Write for FaultText {
    ghost use Rattle.std.specs.Prelude.{Some};

    ghost contents = { λ t. Some t.text.items };

    fn write(&mut self, octets: &[u8]) -> io::Result<usize> {
        let room = TEXT.saturating_sub(self.text.len());
        let (taken, _) = octets.split_at(octets.len().min(room));
        let _ = self.text.try_extend_from_slice(taken);
        Ok(taken.len())
    }

    fn flush(&mut self) -> io::Result<()> {
        Ok(())
    }
}

/// What the words and the streams of the program ask for.
#[derive(Clone, Copy, Debug)]
pub(crate) struct Looks {
    /// Whether faults are explained.
    pub explain: bool,
    /// Whether what is found makes the status 1.
    pub strict: bool,
    /// Whether a frame that is dropped or left is something that is found.
    pub frames: bool,
}

impl Looks {
    ghost use Rattle.std.specs.Prelude.{◌≡◌};
    ghost use Rattle.program.specs.Jobs.{IsJudged};
    ghost use Rattle.program.specs.Strict.{status_by};

    /// Whether what is no fault, and is perhaps not meant, is looked for.
    fn warns(&self) -> bool {
        self.explain || self.strict
    }

    /// How a run ends that ended like this: a strict one that has found something with status 1.
    pub fn judged(&self, ended: Ended, found: bool) -> Ended
        ensures judged { IsJudged self.now.strict ended result }
        ensures status { result.status ≡ status_by self.now.strict found ended.status }
    {
        if ended.status == 0 && self.strict && found {
            Ended { status: 1, ..ended }
        } else {
            ended
        }
    }
}

/// Watches a run.
#[derive(Drop)]
pub(crate) struct Onlooker<'a, 'b, C: Clock, P: Write + Drop, E: Write> {
    progress: &'a mut Progress<'b, C, P>,
    errors: &'a mut E,
    looks: Looks,
    failures: u32,
    comments: u32,
    schedule: Option<u32>,
    device: Option<Named>,
    has_devices: bool,
    openness: Openness,
    found: bool,
    has_frames: bool,
    came: bool,
    has_deadlines: bool,
    judged: bool,
    missed: bool,
    ids: StreamIds,
    line: ArrayVec<u8, LINE>,
}

impl<'a, 'b, C: Clock, P: Write + Drop, E: Write> Onlooker<'a, 'b, C, P, E> {
    ghost use Rattle.std.specs.Prelude.{◌≡◌, ◌||◌, false, true};
    ghost use Rattle.program.specs.Strict.{may_find_nothing};

    /// Nothing is found.
    pub fn new(
        alloc: Global,
        progress: &'a mut Progress<'b, C, P>,
        errors: &'a mut E,
        looks: Looks,
    ) -> Onlooker<'a, 'b, C, P, E>
        ensures found { result.found ≡ false }
        ensures timed { result.has_deadlines ≡ false }
        ensures looks { result.looks ≡ looks }
    {
        Onlooker {
            progress,
            errors,
            looks,
            failures: 0,
            comments: 0,
            schedule: None,
            device: None,
            has_devices: false,
            openness: Openness::new(),
            found: false,
            has_frames: false,
            came: false,
            has_deadlines: false,
            judged: false,
            missed: false,
            ids: StreamIds::new(alloc),
            line: ArrayVec::new(),
        }
    }

    /// Whether something was found for which a strict run ends with status 1: a command changed nothing, a warning was
    /// given, a frame that has a deadline wasn't in time, or one was dropped or left where that is looked for.
    pub fn has_found(&self) -> bool
        ensures { result ≡ self.now.found }
    {
        self.found
    }

    /// Notes a finding about frames, where they are looked at, and answers whether it is the first.
    fn is_first_of_frames(&mut self) -> bool
        ensures looks { self.new.looks ≡ self.old.looks }
        ensures found { self.new.found ≡ (self.old.found || self.old.looks.frames) }
        ensures timed { self.new.has_deadlines ≡ self.old.has_deadlines }
    {
        if !self.looks.frames {
            return false;
        }
        let is_first = !self.has_frames;
        self.has_frames = true;
        self.found = true;
        is_first
    }

    /// Warns where a job has answered all, which ended like this, and there was nothing for it to look at: no command, no
    /// frame, no frame with a deadline, or frames that came before a schedule was in force. A check without a command has
    /// written nothing.
    pub fn warn_of_nothing(&mut self, name: JobName, ended: Ended, is_written: bool)
        ensures kept { self.old.found ≡ true → self.new.found ≡ true }
        ensures same { may_find_nothing name self.old.looks.frames self.old.has_deadlines ≡ false →
            self.new.found ≡ self.old.found }
    {
        if ended.status != 0 {
            return;
        }
        match name {
            JobName::Script => {
                let counts = self.looks.frames;
                self.warn_of_no_frame();
                self.warn_of_early(counts);
            }
            JobName::Replay => {
                self.warn_of_no_frame();
                self.warn_of_early(true);
            }
            JobName::Frames => {
                self.warn_of_none_judged();
                self.warn_of_early(false);
            }
            JobName::Check => {
                if !is_written {
                    self.warn_of_no_command();
                }
            }
            JobName::Streams | JobName::Bounds | JobName::Paths => {}
            JobName::Plan | JobName::Draw | JobName::Compare => {}
        }
    }

    /// Warns of an input without a schedule command, where that is wanted.
    fn warn_of_no_command(&mut self)
        ensures { self.old.found ≡ true → self.new.found ≡ true }
    {
        if !self.looks.warns() {
            return;
        }
        self.found = true;
        let _ = put_no_command(self.errors);
        let _ = self.errors.flush();
    }

    /// Warns where no frame came, where frames are looked at and nothing else was found.
    fn warn_of_no_frame(&mut self)
        ensures kept { self.old.found ≡ true → self.new.found ≡ true }
        ensures same { self.old.looks.frames ≡ false → self.new.found ≡ self.old.found }
    {
        if !self.looks.frames || self.came || self.has_found() {
            return;
        }
        self.found = true;
        let _ = put_no_frame(self.errors);
        let _ = self.errors.flush();
    }

    /// Warns of frames that came before the first command was in force, where that is wanted. It is a finding where that
    /// counts, and the run says nothing of the schedule.
    fn warn_of_early(&mut self, counts: bool)
        ensures kept { self.old.found ≡ true → self.new.found ≡ true }
        ensures same { counts ≡ false → self.new.found ≡ self.old.found }
    {
        let Some(early) = self.openness.early() else {
            return;
        };
        let found = counts && self.openness.is_of_no_use();
        if !self.looks.explain && !(self.looks.strict && found) {
            return;
        }
        self.found |= found;
        let _ = put_early(self.errors, &early, self.looks.explain);
        let _ = self.errors.flush();
    }

    /// Looks at the device of a command that a port is given. Where the first one named another, that is explained once.
    fn look_at_device(&mut self, number: u32, line: &[u8])
        ensures looks { self.new.looks ≡ self.old.looks }
        ensures found { self.new.found ≡ self.old.found }
        ensures timed { self.new.has_deadlines ≡ self.old.has_deadlines }
    {
        if !self.looks.explain || self.has_devices {
            return;
        }
        let Some(later) = named_in(number, line) else {
            return;
        };
        let Some(earlier) = &self.device else {
            self.device = Some(later);
            return;
        };
        if earlier.name.as_slice() != later.name.as_slice() {
            self.has_devices = true;
            let _ = put_devices(
                self.errors,
                (earlier.number, earlier.name.as_slice()),
                (later.number, later.name.as_slice()),
            );
            let _ = self.errors.flush();
        }
    }

    /// Warns where streams that were read have deadlines, and no frame was judged by one, where that is wanted.
    fn warn_of_none_judged(&mut self)
        ensures kept { self.old.found ≡ true → self.new.found ≡ true }
        ensures same { self.old.has_deadlines ≡ false → self.new.found ≡ self.old.found }
    {
        if !self.looks.warns() || !self.has_deadlines || self.judged {
            return;
        }
        self.found = true;
        let _ = put_none_judged(self.errors);
        let _ = self.errors.flush();
    }

    /// Looks at a line that the job didn't: whether it is a malformed command, or a comment where a command was perhaps
    /// meant.
    fn look_at(&mut self, number: u32, line: &[u8])
        ensures looks { self.new.looks.frames ≡ self.old.looks.frames }
        ensures kept { self.old.found ≡ true → self.new.found ≡ true }
    {
        if Words::new(line).next_word() != Some(b"tc".as_slice()) {
            self.look_at_comment(number, line);
        } else if let Err(fault) = read_tc(line) {
            self.command_failed(number, line, Failure::Malformed(fault));
        }
    }

    /// Explains a comment where a command was perhaps meant.
    fn look_at_comment(&mut self, number: u32, line: &[u8])
        ensures looks { self.new.looks ≡ self.old.looks }
        ensures found { self.new.found ≡ self.old.found }
        ensures timed { self.new.has_deadlines ≡ self.old.has_deadlines }
    {
        let mut words = Words::new(line);
        let is_meant = words.next_word() == Some(b"#".as_slice())
            && words.next_word() == Some(b"tc".as_slice());
        if is_meant && self.looks.explain && self.comments < EXPLAINED {
            self.comments += 1;
            let _ = put_comment(self.errors, number, line);
            let _ = self.errors.flush();
        }
    }

    /// Reports a fault, if there is one, and what helps with it, where that is wanted. A capture begins with these
    /// octets, where they are known.
    pub fn report(&mut self, fault: &FaultText, capture: &[u8])
        ensures { self.new.found ≡ self.old.found }
    {
        let _ = put(self.errors, fault.text.as_slice());
        if let Some(kind) = fault.kind {
            if self.looks.explain {
                let _ = put_fault_hint(self.errors, kind, self.line.as_slice(), capture);
            }
        }
        let _ = self.errors.flush();
    }

    /// Reports a fault that is one of this block of a capture in pcapng, and what helps with it, where that is wanted. The
    /// text of the fault stands before it where it says which of two captures it is.
    pub fn report_block(&mut self, fault: &FaultText, block: &BlockFault, is_of_two: bool)
        ensures { self.new.found ≡ self.old.found }
    {
        let is_of_block = fault.kind == Some(FaultKind::Capture(CaptureKind::ShortRecord));
        if is_of_two || !is_of_block {
            let _ = put(self.errors, fault.text.as_slice());
        }
        if is_of_block {
            let _ = put_block_fault(self.errors, block, self.looks.explain);
        }
        let _ = self.errors.flush();
    }

    /// Tells how many packets of a capture came at a moment that is no whole number of nanoseconds, where that is wanted.
    pub fn tell_rounded(&mut self, rounded: u64)
        ensures { self.new.found ≡ self.old.found }
    {
        if rounded > 0 && self.looks.explain {
            let _ = put_rounded(self.errors, rounded);
            let _ = self.errors.flush();
        }
    }

    /// Tells what was passed over in the lines of a script.
    pub fn tell_passed(&mut self, passed: &PassedOver)
        ensures { self.new.found ≡ self.old.found }
    {
        let _ = put_passed(self.errors, &passed.pasted);
        let _ = put_others(self.errors, &passed.others);
        let _ = self.errors.flush();
    }
}

impl<C: Clock, P: Write + Drop, E: Write> Watch for Onlooker<'_, '_, C, P, E> {
    ghost use Rattle.program.specs.Strict.{IsSeen, sight};
    ghost use Rattle.program.specs.StrictLaws.{none_seen, both_seen};

    ghost alerted = { λ alerts s t. IsSeen alerts (sight s.looks.frames s.found s.has_deadlines)
        (sight t.looks.frames t.found t.has_deadlines) };

    #[inline(always)]
    fn records_taken(&mut self, records: u32, moment: u128) {
        self.openness.come(moment);
        self.progress.records_taken(records, moment);
    }

    fn command_taken(&mut self, number: u32, line: &[u8], change: u128) {
        self.openness.begin(change);
        self.look_at_device(number, line);
    }

    #[inline(always)]
    fn frame_came(&mut self, moment: u128) {
        self.openness.come(moment);
    }

    fn command_failed(&mut self, number: u32, line: &[u8], why: Failure) {
        self.look_at_device(number, line);
        let explain = self.looks.explain && self.failures < EXPLAINED;
        let told = explain || (self.looks.strict && self.failures == 0);
        self.failures = self.failures.saturating_add(1);
        self.found = true;
        if told {
            let _ = put_failure(self.errors, number, line, why, explain);
            let _ = self.errors.flush();
        }
    }

    fn command_read(&mut self, number: u32, line: &[u8], command: &Command) {
        if self.looks.explain && self.comments < EXPLAINED {
            self.comments += 1;
            let _ = put_linux(self.errors, number, line, command, self.schedule);
            let _ = self.errors.flush();
        }
        self.schedule = match command {
            Command::Replace(_) => Some(number),
            Command::Delete => None,
        };
    }

    fn frame_dropped(&mut self, moment: u128, frame: &Frame, why: Dropped) {
        if self.is_first_of_frames() {
            let _ = put_frame_dropped(self.errors, moment, frame.id, why);
            let _ = self.errors.flush();
        }
    }

    fn class_used(&mut self, _class: u8) {
        self.came = true;
    }

    fn frames_left(&mut self, class: u8, count: u64) {
        if self.is_first_of_frames() {
            let _ = put_frames_left(self.errors, class, count);
            let _ = self.errors.flush();
        }
    }

    fn wants_hints(&self) -> bool {
        self.looks.explain
    }

    fn class_is_busy(&mut self, number: u32, class: u8, every: u128) {
        if self.comments < EXPLAINED {
            self.comments += 1;
            let _ = put_busy_class(self.errors, number, class, every);
            let _ = self.errors.flush();
        }
    }

    fn class_judged(&mut self, number: u32, class: u8, change: &Change, basis: Basis) {
        if self.comments < EXPLAINED {
            self.comments += 1;
            let _ = put_basis(self.errors, number, class, change, basis);
            let _ = self.errors.flush();
        }
    }

    fn port_is_open(&mut self, name: &[u8]) {
        if self.comments < EXPLAINED {
            self.comments += 1;
            let _ = put_open_port(self.errors, name);
            let _ = self.errors.flush();
        }
    }

    fn ends_without(&mut self, first_id: u64, end: u128) {
        if self.comments < EXPLAINED {
            self.comments += 1;
            let _ = put_end_without(self.errors, first_id, end);
            let _ = self.errors.flush();
        }
    }

    fn line_failed(&mut self, line: &[u8]) {
        self.line.clear();
        let _ = self.line.try_extend_from_slice(line);
    }

    fn line_skipped(&mut self, number: u32, line: &[u8]) {
        if self.looks.explain {
            self.look_at_comment(number, line);
        }
    }

    fn line_passed(&mut self, number: u32, line: &[u8]) {
        if self.looks.warns() {
            self.look_at(number, line);
        }
    }

    fn stream_read(&mut self, number: u32, first_id: u64, count: u32, has_deadline: bool) {
        if !self.looks.warns() {
            return;
        }
        self.has_deadlines |= has_deadline;
        let Some(later) = ids_of(number, first_id, count) else {
            return;
        };
        if let Some(earlier) = self.ids.take(later) {
            self.found = true;
            let _ = put_shared_ids(self.errors, &earlier, &later, self.looks.explain);
            let _ = self.errors.flush();
        }
    }

    fn deadline_judged(&mut self, id: u64, stream: u64, missed: Option<Missed>) {
        self.judged = true;
        let Some(why) = missed else {
            return;
        };
        let told = self.looks.strict && !self.missed;
        self.missed = true;
        self.found = true;
        if told {
            let _ = put_missed(self.errors, id, stream, why);
            let _ = self.errors.flush();
        }
    }

    ghost nothing = { λ s. none_seen (sight s.looks.frames s.found s.has_deadlines) };

    ghost both = { λ xs ys s t u a b. both_seen xs ys (sight s.looks.frames s.found s.has_deadlines)
        (sight t.looks.frames t.found t.has_deadlines)
        (sight u.looks.frames u.found u.has_deadlines) a b };
}
