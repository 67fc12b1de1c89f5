//! What schedules promise, before anything runs: for each schedule command the classes that it keeps apart, those that
//! share windows, and what a schedule gives each class.
//!
//! The definition is specs/Checked.antt, over specs/Apart.antt, specs/Shares.antt and specs/Windows.antt, and that of
//! what who watches is told specs/Alerts.antt; the contracts of `check` and `answer_check` cite both.
#![tactic(auto)]

mod check_job;
mod class_words;
mod laws;
mod refusals;
mod schedule_report;
mod schedules;
mod settings;
mod share_lines;
mod window_lines;
mod windows;

pub use check_job::answer_check;
pub use laws::{ever_open, one_teller, shared_windows, turned_masks};
pub use refusals::{early_refusal, given_map, is_led, map_after, read_map};
pub use schedule_report::{class_count, classes_apart, put_apart};
pub use schedules::{check, is_command};
pub use settings::{CheckSettings, CheckWords, checks_given};
pub use windows::{Longest, Window, Windows};
