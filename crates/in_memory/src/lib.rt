//! The jobs of the program over memory: octets in, octets out into slices that the caller lends, with no file, no
//! stream and no word.
//!
//! Each call answers how it ended (`Ran`). At status 0 the whole output stands at the front of its slice, at 1 why there is
//! no plan, at 3 what an input with a fault gives, and at 2 and 3 the text of the fault stands at the front of its own slice; what lies after
//! them is as it was. At 5 a slice has too little room, and at 4 out of memory: nothing is written then.
//!
//! The contract of each call cites the job's own definition of its output, by specs/Slices.antt,
//! specs/Captures.antt, specs/Pictures.antt, specs/Bounds.antt, specs/Paths.antt and specs/Plans.antt.
#![tactic(auto)]

mod bounds;
mod captures;
mod checks;
mod end_to_end;
mod frames;
mod jobs;
mod pictures;
mod plans;
mod scripts;
mod tables;
mod values;

pub use bounds::{BoundsAsked, bounds_octets};
pub use captures::{ReplayRan, replay_octets};
pub use checks::check_octets;
pub use end_to_end::paths_octets;
pub use frames::{frames_by_stream_octets, frames_octets, frames_of_capture_octets};
pub use jobs::Ran;
pub use pictures::{PictureValues, draw_octets};
pub use plans::{PlanValues, plan_octets};
pub use scripts::run_octets;
pub use tables::streams_octets;
pub use values::PortValues;
