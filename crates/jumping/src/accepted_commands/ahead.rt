//! The legs of the commands that count.
ghost use Rattle.std.specs.Prelude.{◌≡◌, ◌+◌, ◌*◌, ◌<◌, ◌≤◌, ◌∷◌, [], Some, None};
ghost use Rattle.std.specs.Option.{ForSome};
ghost use Rattle.jumping.specs.CommandWords.{greatest_moment, plan_of, stretches_from, entry_count, AreCommands, IsUsable, accepted_in, command_of, lent_position, stretches_of, IsFirst, Stands, StandsHeld, held_under, position_lent, AreReady, IsReady, from_of, lent_rest, rest_of, until_of, stretch_held, stretch_of, stretch_under, stretches_ahead, Resumes};

use crate::accepted_commands::command::AcceptedCommand;
use crate::accepted_commands::leg::{Leg, ListedLeg, OpenLeg, Rest};
use crate::accepted_commands::slots::CommandSlots;
use crate::accepted_commands::under::{held_under, list_in};
use crate::list_position::Position;
use gates::gate_list::Visits;

/// A leg and what follows it.
#[derive(Drop)]
pub struct Ahead<'a> {
    /// The leg from now on.
    pub leg: Leg<'a>,
    /// The one after it, if there is one.
    pub next: Option<Leg<'a>>,
    /// The one after that, if there is a leg before it.
    pub last: Option<Leg<'a>>,
}

impl Ahead<'_> {
    /// What follows the first leg, lent.
    pub fn rest(&self) -> Rest<'_>
        ensures { lent_rest result ≡ rest_of self.now }
    {
        Rest {
            next: self.next.as_ref(),
            last: self.last.as_ref(),
        }
    }
}

/// Where the list of a command stands, if it has one.
fn position_of<'a>(command: Option<&'a AcceptedCommand>) -> Option<&'a Position>
    ensures { lent_position result ≡ position_lent command.entry }
{
    match list_in(command) {
        None => None,
        Some(list) => Some(&list.position),
    }
}

/// The leg of a command from a moment on, at which its list stands there, up to another, held from a moment on, if from
/// any.
fn leg_at<'a>(
    command: Option<&'a AcceptedCommand>,
    position: Option<&'a Position>,
    from: u128,
    held_from: Option<u128>,
    until: Option<u128>,
) -> Leg<'a>
    requires usable { ForSome (command_of command) IsUsable }
    requires stands { StandsHeld (command_of command) held_from from (lent_position position) }
    requires unheld { plan_of (command_of command) ≡ None → held_from ≡ None }
    requires near { from ≤ 2 * greatest_moment }
    ensures shows { stretch_of result ≡ stretch_held (command_of command.entry) held_from until }
    ensures from { from_of result ≡ from }
    ensures until { until_of result ≡ until }
    ensures ready { IsReady result }
{
    let start = match command {
        None => 0,
        Some(command) => command.change(),
    };
    let open = OpenLeg { start, from, until };
    let Some(list) = list_in(command) else {
        return Leg::Open(open);
    };
    let Some(position) = position else {
        return Leg::Open(open);
    };
    Leg::Listed(ListedLeg {
        schedule: &list.schedule,
        start: list.change,
        held_from,
        from,
        position,
        until,
    })
}

/// The leg of a command from its change on, up to another and with a change pending.
#[tactic(auto, using(crate::proofs::UnderLaws::unheld))]
fn leg_from_change<'a>(
    command: &'a AcceptedCommand,
    pending: Option<&AcceptedCommand>,
    until: Option<u128>,
) -> Leg<'a>
    requires usable { IsUsable (accepted_in command.now) }
    requires first { IsFirst command.now }
    requires pending { ForSome (command_of pending) IsUsable }
    ensures shows { stretch_of result
        ≡ stretch_under (Some (accepted_in command.now)) (command_of pending.entry) until }
    ensures from { from_of result ≡ (accepted_in command.now).change }
    ensures until { until_of result ≡ until }
    ensures ready { IsReady result }
{
    let position = position_of(Some(command));
    let held_from = held_under(Some(command), pending);
    leg_at(Some(command), position, command.change(), held_from, until)
}

/// The leg of the command in force, where nothing follows it.
#[tactic(auto, using(crate::proofs::UnderLaws::unheld))]
fn alone<'a>(in_force: Option<&'a AcceptedCommand>, moment: u128) -> Ahead<'a>
    requires usable { ForSome (command_of in_force) IsUsable }
    requires stands { Stands (command_of in_force) None moment (position_lent in_force) }
    requires near { moment ≤ 2 * greatest_moment }
    ensures shows { stretches_ahead result.leg (rest_of result)
        ≡ stretches_from (command_of in_force.entry) [] }
    ensures from { from_of result.leg ≡ moment }
    ensures ready { AreReady result.leg (rest_of result) }
{
    Ahead {
        leg: leg_at(in_force, position_of(in_force), moment, None, None),
        next: None,
        last: None,
    }
}

/// The legs of the command in force and of one that follows it.
#[tactic(auto, using(crate::proofs::UnderLaws::unheld))]
fn into_change<'a>(
    in_force: Option<&'a AcceptedCommand>,
    held_from: Option<u128>,
    moment: u128,
    command: &'a AcceptedCommand,
) -> Ahead<'a>
    requires usable { ForSome (command_of in_force) IsUsable }
    requires command { IsUsable (accepted_in command.now) }
    requires first { IsFirst command.now }
    requires held { held_from ≡ held_under (command_of in_force) (Some (accepted_in command.now)) }
    requires stands { Stands (command_of in_force) (Some (accepted_in command.now)) moment
        (position_lent in_force) }
    requires near { moment ≤ (accepted_in command.now).change }
    ensures shows { stretches_ahead result.leg (rest_of result)
        ≡ stretches_from (command_of in_force.entry) (accepted_in command.now ∷ []) }
    ensures from { from_of result.leg ≡ moment }
    ensures ready { AreReady result.leg (rest_of result) }
{
    Ahead {
        leg: leg_at(
            in_force,
            position_of(in_force),
            moment,
            held_from,
            Some(command.change()),
        ),
        next: Some(leg_from_change(command, None, None)),
        last: None,
    }
}

/// The legs of the command in force, of the one that is pending and is in time, and of the one that is announced.
#[tactic(auto, using(crate::proofs::UnderLaws::unheld))]
fn through_change<'a>(
    in_force: Option<&'a AcceptedCommand>,
    held_from: Option<u128>,
    moment: u128,
    pending: &'a AcceptedCommand,
    announced: &'a AcceptedCommand,
) -> Ahead<'a>
    requires usable { ForSome (command_of in_force) IsUsable }
    requires pending { IsUsable (accepted_in pending.now) }
    requires next { IsFirst pending.now }
    requires announced { IsUsable (accepted_in announced.now) }
    requires last { IsFirst announced.now }
    requires held { held_from ≡ held_under (command_of in_force) (Some (accepted_in pending.now)) }
    requires stands { Stands (command_of in_force) (Some (accepted_in pending.now)) moment
        (position_lent in_force) }
    requires near { moment ≤ (accepted_in pending.now).change }
    requires timely { (accepted_in pending.now).change ≤ (accepted_in announced.now).lead }
    ensures shows { stretches_ahead result.leg (rest_of result)
        ≡ stretches_from (command_of in_force.entry)
        (accepted_in pending.now ∷ accepted_in announced.now ∷ []) }
    ensures from { from_of result.leg ≡ moment }
    ensures ready { AreReady result.leg (rest_of result) }
{
    Ahead {
        leg: leg_at(
            in_force,
            position_of(in_force),
            moment,
            held_from,
            Some(pending.change()),
        ),
        next: Some(leg_from_change(pending, Some(announced), Some(announced.change()))),
        last: Some(leg_from_change(announced, None, None)),
    }
}

/// The legs of the command in force, with one pending that is replaced by the one that is announced: the list goes on
/// at the lead moment where `resumed` says.
#[tactic(auto, using(crate::proofs::UnderLaws::unheld))]
fn through_lead<'a>(
    in_force: Option<&'a AcceptedCommand>,
    held_from: Option<u128>,
    moment: u128,
    pending: &AcceptedCommand,
    announced: &'a AcceptedCommand,
    held_next: Option<u128>,
    resumed: &'a Option<Position>,
) -> Ahead<'a>
    requires usable { ForSome (command_of in_force) IsUsable }
    requires pending { IsUsable (accepted_in pending.now) }
    requires announced { IsUsable (accepted_in announced.now) }
    requires last { IsFirst announced.now }
    requires held { held_from ≡ held_under (command_of in_force) (Some (accepted_in pending.now)) }
    requires next { held_next
        ≡ held_under (command_of in_force) (Some (accepted_in announced.now)) }
    requires stands { Stands (command_of in_force) (Some (accepted_in pending.now)) moment
        (position_lent in_force) }
    requires resumes { Stands (command_of in_force) (Some (accepted_in announced.now))
        (accepted_in announced.now).lead resumed.now }
    requires near { moment ≤ (accepted_in announced.now).lead }
    requires late { (accepted_in announced.now).lead < (accepted_in pending.now).change }
    ensures shows { stretches_ahead result.leg (rest_of result)
        ≡ stretches_from (command_of in_force.entry)
        (accepted_in pending.now ∷ accepted_in announced.now ∷ []) }
    ensures from { from_of result.leg ≡ moment }
    ensures ready { AreReady result.leg (rest_of result) }
{
    let lead = announced.lead();
    Ahead {
        leg: leg_at(
            in_force,
            position_of(in_force),
            moment,
            held_from,
            Some(lead),
        ),
        next: Some(leg_at(
            in_force,
            resumed.as_ref(),
            lead,
            held_next,
            Some(announced.change()),
        )),
        last: Some(leg_from_change(announced, None, None)),
    }
}

/// Where the list in force goes on at the lead moment of the command that is announced, where it replaces a pending
/// one.
pub fn resumed(slots: &CommandSlots, visits: &mut Visits) -> Option<Position>
    requires { AreCommands slots.now.commands }
    ensures resumes { Resumes slots.now.commands result }
    ensures counted { visits.old ≤ visits.new }
    ensures visits { visits.new
        ≤ visits.old + (entry_count (plan_of slots.now.commands.in_force) + 1) }
{
    let pending = slots.pending()?;
    let announced = slots.announced()?;
    if pending.change() <= announced.lead() {
        return None;
    }
    let list = list_in(slots.in_force())?;
    Some(list.position_at(slots.held_next(), announced.lead(), visits))
}

/// The legs of the commands that count.
pub fn legs_ahead<'a>(slots: &'a CommandSlots, resumed: &'a Option<Position>) -> Ahead<'a>
    requires sound { AreCommands slots.now.commands }
    requires stands { Stands slots.now.commands.in_force slots.now.commands.pending
        slots.now.commands.moment slots.now.position }
    requires resumes { Resumes slots.now.commands resumed.now }
    ensures shows { stretches_ahead result.leg (rest_of result) ≡ stretches_of slots.now.commands }
    ensures from { from_of result.leg ≡ slots.now.commands.moment }
    ensures ready { AreReady result.leg (rest_of result) }
{
    let in_force = slots.in_force();
    let held_from = slots.held_from();
    let moment = slots.moment();
    match slots.pending() {
        None => match slots.announced() {
            None => alone(in_force, moment),
            Some(announced) => into_change(in_force, slots.held_next(), moment, announced),
        },
        Some(pending) => match slots.announced() {
            None => into_change(in_force, held_from, moment, pending),
            Some(announced) => if pending.change() <= announced.lead() {
                through_change(in_force, held_from, moment, pending, announced)
            } else {
                let held_next = slots.held_next();
                through_lead(
                    in_force, held_from, moment, pending, announced, held_next, resumed,
                )
            },
        },
    }
}
