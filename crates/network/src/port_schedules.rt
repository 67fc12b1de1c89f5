//! The schedules of the ports of a network: one command of tc for each, which names the port as its device.
//!
//! The definitions are specs/Device.antt of `pasted`, the device that a line names, and specs/Schedules.antt, the
//! schedules that lines are and their first fault; the contract of `read_schedules` is one equation with the latter.
mod faults;
mod reader;
mod schedules;

pub use faults::{BadSchedules, SchedulesFault, SchedulesRunFault};
pub use reader::read_schedules;
pub use schedules::{PortSchedule, schedule_at};
