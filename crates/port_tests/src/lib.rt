//! Tests of gates, bounds and ports, by their public calls.
#![tactic(auto)]

pub mod delay_bounds_tests;
pub mod gates_tests;
pub mod premises_tests;
pub mod scenarios;
pub mod shared_bounds_tests;
pub mod window_bounds_tests;
