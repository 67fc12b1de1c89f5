//! A network of ports as a user gives it: the lines of its table, and a schedule for each of its ports.
#![tactic(auto)]

pub mod network_table;
pub mod port_schedules;
