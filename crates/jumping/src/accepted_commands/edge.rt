//! The next moment at which something comes.
ghost use Rattle.std.specs.Prelude.{◌≡◌, ℕ, IfSome, option_map};
ghost use Rattle.jumping.specs.CommandWords.{gates, IsGateEvent, IsFlat, AreCommands, command_of, history_of, Stands, earlier, edge_at, boundary_in_force, shows_under};

use crate::accepted_commands::command::AcceptedCommand;
use crate::accepted_commands::slots::CommandSlots;
use crate::accepted_commands::under::list_in;

/// The earlier of two moments, in picoseconds, if any.
#[inline(always)]
fn earlier(a: Option<u128>, b: Option<u128>) -> Option<u128>
    ensures { result ≡ earlier a b }
{
    match a {
        None => b,
        Some(s) => match b {
            None => Some(s),
            Some(t) => Some(s.min(t)),
        },
    }
}

/// When a command changes the gates, in picoseconds.
fn change_moment(command: Option<&AcceptedCommand>) -> Option<u128>
    ensures { result ≡ option_map (λ a. a.change) (command_of command.entry) }
{
    match command {
        None => None,
        Some(command) => Some(command.change()),
    }
}

/// The lead moment of a command, in picoseconds.
pub fn lead_moment(command: Option<&AcceptedCommand>) -> Option<u128>
    ensures { result ≡ option_map (λ a. a.lead) (command_of command.entry) }
{
    match command {
        None => None,
        Some(command) => Some(command.lead()),
    }
}

/// The moment up to which the command in force shows one mask, in picoseconds; none: for ever.
#[inline(always)]
fn until_boundary(slots: &CommandSlots) -> Option<u128>
    requires sound { AreCommands slots.now.commands }
    ensures boundary { result
        ≡ boundary_in_force slots.now.commands.in_force slots.now.commands.pending
        slots.now.position }
    ensures flat { (n : ℕ) →
        Stands slots.now.commands.in_force slots.now.commands.pending n slots.now.position →
        IsFlat (shows_under slots.now.commands.in_force slots.now.commands.pending) n result }
{
    match list_in(slots.in_force()) {
        None => None,
        Some(list) => list.position.until(slots.held_from()),
    }
}

/// The next moment at which a boundary of the list in force comes, or a command does, in picoseconds; none: there is
/// none.
#[inline(always)]
pub fn edge_of(slots: &CommandSlots) -> Option<u128>
    requires sound { AreCommands slots.now.commands }
    requires stands { Stands slots.now.commands.in_force slots.now.commands.pending
        slots.now.commands.moment slots.now.position }
    ensures edge { result ≡ edge_at slots.now.commands slots.now.position }
    ensures flat { IsFlat (gates (history_of slots.now.commands)) slots.now.commands.moment result }
    ensures event { IfSome result (IsGateEvent (history_of slots.now.commands)) }
{
    let listed = until_boundary(slots);
    earlier(
        listed,
        earlier(
            change_moment(slots.pending()),
            lead_moment(slots.announced()),
        ),
    )
}
