//! The jobs over memory: what is written into slices, and what is not.

mod bounds;
mod checks;
mod faults;
mod jobs;
mod large;
mod lent;
mod pictures;
mod replays;
mod scripts;
mod tables;
