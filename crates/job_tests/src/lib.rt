//! Tests of the program's jobs, by their public calls: readers, writers and heaps that fail, slices with too little
//! room, and random schedules against a reference. What words and texts show, the rows of `tests/` have. They stand in
//! a crate of their own, so that the jobs are proved once and not again with them. Nothing stands on it, so it has no
//! contract.
#![tactic(auto)]

pub mod capture_tests;
#[cfg(test)]
mod checks;
#[cfg(test)]
#[cfg(test)]
mod failures;
#[cfg(test)]
mod frames;
pub mod limits;
pub mod line_reader_tests;
#[cfg(test)]
mod memory;
pub mod network_table_tests;
#[cfg(test)]
mod numbers;
pub mod picture_tests;
#[cfg(test)]
mod pictures;
#[cfg(test)]
mod random;
#[cfg(test)]
mod replays;
#[cfg(test)]
mod scripts;
pub mod summary_tests;
#[cfg(test)]
mod tables;
#[cfg(test)]
mod windows;
