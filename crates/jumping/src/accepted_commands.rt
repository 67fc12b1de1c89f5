//! The accepted commands that count at a moment: the one in force, the one that is pending and the one that is
//! announced, each list with the position where it stands (IEEE Std 802.1Q-2018, 8.6.9.3 List Config).
//!
//! The contracts compare them with the history of accepted commands, by specs/Commands.antt, specs/InForce.antt
//! and specs/Leg.antt.
mod ahead;
mod command;
mod edge;
mod leg;
mod roles;
mod slots;
mod stay;
mod under;

pub use ahead::{Ahead, legs_ahead, resumed};
pub use command::{AcceptedCommand, AcceptedList, installed};
pub use edge::{edge_of, lead_moment};
pub use leg::{Leg, ListedLeg, OpenLeg, Rest};
pub use slots::CommandSlots;
pub use stay::stays_open;
pub use under::{list_in, mask_under};
