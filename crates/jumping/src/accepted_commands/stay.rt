//! Whether a class stays open from now on.
ghost use Rattle.std.specs.Prelude.{◌≡◌, ◌*◌, ◌<◌, ◌≤◌, true, false};
ghost use Rattle.jumping.specs.CommandWords.{greatest_moment, opens, open_while, AreCommands, mask_ahead, Stands, shown_by, shows_under, Resumes};

use crate::accepted_commands::ahead::legs_ahead;
use crate::accepted_commands::slots::CommandSlots;
use crate::accepted_commands::under::{list_in, mask_under};
use crate::list_position::{Need, Position};
use gates::gate_list::is_open;
use wire_time::CLASSES;

/// Whether a class stays open by the command in force, where another comes later.
fn stays_open_alone(slots: &CommandSlots, need: Need) -> bool
    requires sound { AreCommands slots.now.commands }
    requires stands { Stands slots.now.commands.in_force slots.now.commands.pending need.from
        slots.now.position }
    requires class { need.class < CLASSES }
    requires moment { need.from ≤ 2 * greatest_moment }
    requires within { need.length ≤ greatest_moment }
    ensures { result
        ≡ open_while
        (shows_under slots.now.commands.in_force slots.now.commands.pending) need.class need.from
        need.length }
{
    match list_in(slots.in_force()) {
        None => true,
        Some(list) => {
            list.position
                .stays_open(&list.schedule, slots.held_from(), need)
        }
    }
}

/// Whether a class stays open through all the legs of the commands that count.
fn stays_open_through(slots: &CommandSlots, resumed: &Option<Position>, need: Need) -> bool
    requires sound { AreCommands slots.now.commands }
    requires stands { Stands slots.now.commands.in_force slots.now.commands.pending
        slots.now.commands.moment slots.now.position }
    requires resumes { Resumes slots.now.commands resumed.now }
    requires at { need.from ≡ slots.now.commands.moment }
    requires class { need.class < CLASSES }
    requires within { need.length ≤ greatest_moment }
    ensures { result ≡ open_while (mask_ahead slots.now.commands) need.class need.from need.length }
{
    let ahead = legs_ahead(slots, resumed);
    ahead.leg.stays_open_ahead(&ahead.rest(), need)
}

/// Whether a class that needs some time is shut now, by the mask that shows.
fn is_shut_now(slots: &CommandSlots, need: Need) -> bool
    requires class { need.class < CLASSES }
    ensures { result ≡ true →
        (0 < need.length) × (opens (shown_by slots.now.position) need.class ≡ false) }
{
    need.length != 0 && !is_open(mask_under(slots.in_force()), need.class)
}

/// Whether a class stays open from now on, by the commands that count. The mask that shows is enough for a class that
/// is shut now, which most that are asked for are. Where no other command comes up to the end of the need, the one in
/// force decides, and no legs are made.
#[tactic(auto, using(crate::proofs::CommandLaws::alone_while))]
pub fn stays_open(slots: &CommandSlots, resumed: &Option<Position>, need: Need) -> bool
    requires sound { AreCommands slots.now.commands }
    requires stands { Stands slots.now.commands.in_force slots.now.commands.pending
        slots.now.commands.moment slots.now.position }
    requires resumes { Resumes slots.now.commands resumed.now }
    requires at { need.from ≡ slots.now.commands.moment }
    requires class { need.class < CLASSES }
    requires within { need.length ≤ greatest_moment }
    ensures { result ≡ open_while (mask_ahead slots.now.commands) need.class need.from need.length }
{
    if is_shut_now(slots, need) {
        return false;
    }
    if slots.is_alone_until(need.from + need.length) {
        stays_open_alone(slots, need)
    } else {
        stays_open_through(slots, resumed, need)
    }
}
