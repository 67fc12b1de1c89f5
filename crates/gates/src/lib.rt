//! The gates of a port (IEEE Std 802.1Q-2018, 8.6.8.4 and 8.6.9): gate control lists, the history of commands and the
//! gates at a moment, the machines of the standard, and strict priority.
//!
//! Each module's head comment says where its contract lies.
#![tactic(auto)]

pub mod cycle_timer;
pub mod gate_list;
pub mod list_config;
pub mod list_execute;
pub mod queue_heads;
pub mod selection;
