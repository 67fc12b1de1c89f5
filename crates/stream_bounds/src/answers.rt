//! The answers about all classes.

ghost use Rattle.std.specs.Prelude.{◌≡◌, ◌<◌, All, IfErr, IfOk, None, slice_get, unwrap_or};
ghost use Rattle.abstract_port.specs.AbstractPort.{plan_asked};
ghost use Rattle.job.specs.declared.fault.Fault.TheVariants as Faults;
ghost use Rattle.wire_time.specs.declared.TheConstants.{CLASSES};
ghost use Rattle.stream_bounds.specs.Case.{IsCase};
ghost use Rattle.stream_bounds.specs.Classes.{IsPeriodic, streams_of};
ghost use Rattle.stream_bounds.specs.Standing.{IsCounted, standing_of};
ghost use Rattle.stream_bounds.specs.Answers.{AreClassAnswers, IsClassAnswer};
ghost use Rattle.stream_bounds.specs.Verdicts.{answer_at, delay_of, extra_at, extra_of, extra_told, left_after, one_told};

use crate::case::Case;
use crate::class_answer::{ClassAnswer, own_answer};
use crate::classes::streams_of;
use crate::extras::{Extra, extras_of};
use crate::faults::BoundsFault;
use crate::settings::BoundsSettings;
use crate::standing::{Standing, standing_of};
use crate::verdicts::{Delay, Verdict, delay_by};
use abstract_port::{Change, Dropped};
use delay_bounds::Bound;
use gates::gate_list::Schedule;
use std::alloc::Global;
use std::marker::Model;
use traffic::Stream;
use wire_time::CLASSES;

/// The answer about a class, and what it is for those below it.
#[derive(Drop)]
struct Judged {
    answer: ClassAnswer,
    standing: Standing,
}

/// The answer about a class, and what it is for those below it.
fn class_answer(alloc: Global, case: &Case<'_>) -> Result<Judged, BoundsFault>
    requires { IsCase case.now }
    ensures answer { IfOk result
        (λ j. IsClassAnswer case.now.settings.now case.now.change.now case.now.table.now
        case.now.above.now case.now.class j.answer) }
    ensures standing { IfOk result
        (λ j. j.standing
        ≡ standing_of case.now.settings.now case.now.change.now case.now.class
        (streams_of case.now.settings.now case.now.change.now case.now.class case.now.table.now)
        j.answer.verdict) }
    ensures counted { IfOk result (λ j. IsCounted j.standing) }
    ensures memory { IfErr result (λ fault. fault ≡ Faults.Memory) }
{
    let (settings, change) = (case.settings, case.change);
    let own = streams_of(alloc, settings, change, case.table, case.class)?;
    let own = own.as_slice();
    let answer = own_answer(alloc, case, own)?;
    let extras = extras_of(alloc, case, own, &answer)?;
    let standing = standing_of(settings, change, case.class, own, answer.verdict());
    Ok(Judged {
        answer: answer.with_extras(extras),
        standing,
    })
}

/// The answer about a class below others that stand so, in the same schedule.
fn answer_below(
    alloc: Global,
    case: &Case<'_>,
    above: &[Standing],
    class: u8,
) -> Result<Judged, BoundsFault>
    requires case { IsCase case.now }
    requires counted { All IsCounted above.now }
    requires class { class < CLASSES }
    ensures answer { IfOk result
        (λ j. IsClassAnswer case.now.settings.now case.now.change.now case.now.table.now above.now
        class j.answer) }
    ensures standing { IfOk result
        (λ j. j.standing
        ≡ standing_of case.now.settings.now case.now.change.now class
        (streams_of case.now.settings.now case.now.change.now class case.now.table.now)
        j.answer.verdict) }
    ensures counted { IfOk result (λ j. IsCounted j.standing) }
    ensures memory { IfErr result (λ fault. fault ≡ Faults.Memory) }
{
    let case = Case {
        above,
        class,
        ..*case
    };
    class_answer(alloc, &case)
}

/// The answers about all classes.
#[derive(Drop)]
pub struct Answers {
    classes: [ClassAnswer; CLASSES],
}

/// A contract sees the eight answers.
impl Model for Answers {
    ghost use Rattle.std.specs.Prelude.{List};
    ghost use Rattle.stream_bounds.specs.Verdicts.{ClassAnswer};

    ghost Value = { List ClassAnswer };

    ghost view = { λ a. a.classes };
}

/// The answers about all classes, in an array, from the highest down.
fn all_answers(
    alloc: Global,
    settings: &BoundsSettings,
    change: &Change,
    schedule: &Schedule,
    table: &[Stream],
) -> Result<[ClassAnswer; CLASSES], BoundsFault>
    requires plan { schedule.now ≡ plan_asked change.now }
    requires periodic { All IsPeriodic table.now }
    ensures answers { IfOk result (AreClassAnswers settings.now change.now table.now) }
    ensures memory { IfErr result (λ fault. fault ≡ Faults.Memory) }
{
    let case = Case {
        settings,
        change,
        schedule,
        table,
        above: &[],
        class: 7,
    };
    let g = class_answer(alloc, &case)?;
    let above = [g.standing];
    let f = answer_below(alloc, &case, &above, 6)?;
    let above = [f.standing, g.standing];
    let e = answer_below(alloc, &case, &above, 5)?;
    let above = [e.standing, f.standing, g.standing];
    let d = answer_below(alloc, &case, &above, 4)?;
    let above = [d.standing, e.standing, f.standing, g.standing];
    let c = answer_below(alloc, &case, &above, 3)?;
    let above = [c.standing, d.standing, e.standing, f.standing, g.standing];
    let b = answer_below(alloc, &case, &above, 2)?;
    let above = [
        b.standing, c.standing, d.standing, e.standing, f.standing, g.standing,
    ];
    let a = answer_below(alloc, &case, &above, 1)?;
    let above = [
        a.standing, b.standing, c.standing, d.standing, e.standing, f.standing, g.standing,
    ];
    let z = answer_below(alloc, &case, &above, 0)?;
    Ok([
        z.answer, a.answer, b.answer, c.answer, d.answer, e.answer, f.answer, g.answer,
    ])
}

/// The verdict about a class.
fn verdict_at(classes: &[ClassAnswer; CLASSES], class: u8) -> Verdict
    requires { class < CLASSES }
    ensures { result ≡ (answer_at classes.now class).verdict }
{
    classes[class as usize].verdict()
}

/// The next bounds of a class that are still to be told; they then are.
fn next_of(classes: &mut [ClassAnswer; CLASSES], class: u8) -> Option<Bound>
    requires { class < CLASSES }
    ensures first { result ≡ slice_get (answer_at classes.old class).left 0 }
    ensures left { classes.new ≡ one_told classes.old class }
{
    classes[class as usize].next()
}

/// What else is told of the next stream of a class; it then is.
fn extra_of_next(classes: &mut [ClassAnswer; CLASSES], class: u8) -> Extra
    requires { class < CLASSES }
    ensures first { result ≡ extra_at classes.old class }
    ensures left { classes.new ≡ extra_told classes.old class }
{
    classes[class as usize].next_extra()
}

/// What is told of a stream.
#[derive(Clone, Copy)]
pub struct Told {
    /// How long its frames take.
    pub delay: Delay,
    /// What is told beside that, where it is asked.
    pub extra: Extra,
}

impl Answers {
    /// The answers about the streams of a table, in the schedule of a change.
    pub fn new(
        alloc: Global,
        settings: &BoundsSettings,
        change: &Change,
        schedule: &Schedule,
        streams: &[Stream],
    ) -> Result<Answers, BoundsFault>
        requires plan { schedule.now ≡ plan_asked change.now }
        requires periodic { All IsPeriodic streams.now }
        ensures answers { IfOk result (AreClassAnswers settings.now change.now streams.now) }
        ensures memory { IfErr result (λ fault. fault ≡ Faults.Memory) }
    {
        let classes = all_answers(alloc, settings, change, schedule, streams)?;
        Ok(Answers { classes })
    }

    /// The answer about a class.
    pub fn of(&self, class: u8) -> &ClassAnswer
        requires { class < CLASSES }
        ensures { result.now ≡ answer_at self.now class }
    {
        &self.classes[class as usize]
    }

    /// The verdict about a class.
    pub fn verdict(&self, class: u8) -> Verdict
        requires { class < CLASSES }
        ensures { result ≡ (answer_at self.now class).verdict }
    {
        verdict_at(&self.classes, class)
    }

    /// What is told of the next stream, by its class.
    pub fn next_told(&mut self, class: Result<u8, Dropped>) -> Told
        requires { IfOk class (λ class. class < CLASSES) }
        ensures delay { result.delay ≡ delay_of self.old class }
        ensures extra { result.extra ≡ extra_of self.old class }
        ensures left { self.new ≡ left_after self.old class }
    {
        match class {
            Ok(class) => {
                let verdict = verdict_at(&self.classes, class);
                let extra = extra_of_next(&mut self.classes, class);
                let bound = next_of(&mut self.classes, class);
                let none = Bound {
                    least: 0,
                    greatest: 0,
                };
                Told {
                    delay: delay_by(class, verdict, bound.unwrap_or(none)),
                    extra,
                }
            }
            Err(why) => Told {
                delay: Delay::Lost(why),
                extra: Extra::none(),
            },
        }
    }
}
