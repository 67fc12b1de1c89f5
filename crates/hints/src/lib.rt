//! What helps with a fault: its line with the word marked, what was expected there, and what was perhaps meant. And
//! what is no fault, and is perhaps not meant.
//!
//! No contract says these texts. They are tested.
#![tactic(auto)]

mod blocks;
mod clocks;
mod commands;
mod fault_hints;
mod linux;
mod marks;
mod near;
mod passed;
mod script_words;
mod sharers;
mod shell_words;
mod warnings;

pub use blocks::{put_block_fault, put_rounded};
pub use clocks::{Early, put_early};
pub use commands::put_failure;
pub use fault_hints::put_fault_hint;
pub use linux::put_linux;
pub use passed::{put_others, put_passed};
pub use warnings::{
    Ids, put_basis, put_busy_class, put_comment, put_devices, put_end_without, put_frame_dropped,
    put_frames_left, put_missed, put_no_command, put_no_frame, put_none_judged, put_open_port,
    put_shared_ids,
};
