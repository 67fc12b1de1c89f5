//! A schedule that meets the deadlines of a table of streams, or one for each port of a network.
//!
//! What a search finds is not believed: each schedule is written as a line, and that line and the table are given to
//! `stream_bounds::bounds`, and those of a network to `paths::paths`. Only what a strict run finds nothing of is
//! answered. The claim is specs/Met.antt, and
//! what is written specs/PlanEnd.antt; the contracts of `plan` and `answer_plan` cite them.
#![tactic(auto)]

mod along;
mod classes;
mod faults;
mod judge;
mod line;
mod octets;
mod plan_job;
mod plans;
mod reasons;
pub mod schedule_search;
mod settings;

pub use faults::{PlanFault, PlanInput};
pub use octets::MAX_OCTETS;
pub use plan_job::{answer_plan, bad_value, end_with_plan_value, plan_given};
pub use plans::plan;
pub use reasons::Reason;
pub use settings::{PlanSettings, PlanValue, PlanWords, say_plan_value};
