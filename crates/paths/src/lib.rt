//! The bounds of streams from end to end: the ways of a network's streams, the schedules of its ports, and for each class
//! of a port, each hop and each way what `path_bounds` finds.
//!
//! What a port is, is specs/Ports.antt, and the ways specs/Ways.antt. What is written is specs/Outcome.antt, over
//! specs/PortLines.antt and specs/PathLines.antt; the contracts of `paths` and `answer_paths` cite it.
#![tactic(auto)]

mod faults;
mod findings;
mod network_lines;
mod next_lines;
mod order;
mod path_lines;
mod paths_job;
mod port_lines;
mod ports;
mod ways;

pub use faults::{PathsFault, PathsFinding, PathsInput};
pub use network_lines::{answer_schedules, paths};
pub use next_lines::put_stream;
pub use paths_job::answer_paths;
pub use ports::{MOST_NETWORK_PORTS, ports_of, settings_at};
