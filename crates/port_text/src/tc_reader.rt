//! Schedule commands in the words of tc-taprio(8): `tc qdisc replace dev eth0 root taprio ..`.
//!
//! The grammar is specs/Grammar.antt, and how a line is read specs/Lines.antt; the contract of `read_command` cites
//! them.
mod capped;
mod end;
mod fault;
mod heads;
pub mod laws;
mod line;
mod lists;
mod option_list;
mod options;
mod values;

pub use end::CommandPlace;
pub use fault::{Opt, TcFault};
pub use line::{read_command, read_command_into};
