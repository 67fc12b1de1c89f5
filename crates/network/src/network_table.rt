//! What a network of ports is that lines say: its ports, the links between them, how far their clocks differ, and its
//! streams with their ways.
//!
//! The definitions are specs/Lines.antt, what a line says, and specs/Network.antt, the network that lines say and its
//! first fault; the contract of `read_network` is one equation with the latter.
mod contents;
mod ends;
mod faults;
pub mod laws;
mod lookups;
mod name;
mod reader;
mod said;
mod takes;
mod via;
mod ways;

pub use contents::{Clocks, Network, NetworkLink, NetworkStream, PortSetting};
pub use faults::{BadNetwork, NetworkFault, NetworkRunFault, put_named_fault, put_second_fault};
pub use name::{NAME_OCTETS, Name};
pub use reader::read_network;
pub use said::PortValues;
