//! Strict priority among the heads of the class queues.
//!
//! The definition is specs/Choice.antt of `list_config`; the contracts of `choose` and of `Lookout` cite it, the
//! latter by specs/Watched.antt.
mod choice;
mod lookout;

pub use choice::{choose, find_choice};
pub use lookout::{Lookout, Shown};
