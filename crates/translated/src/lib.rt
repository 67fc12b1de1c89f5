//! A reader that turns what another reader gives into other octets: a format that nobody below knows, as one that all
//! read.
//!
//! How octets are turned is a `Translation`, and its meaning a function of all that is still to come. `Translated` gives
//! just that meaning of what its source gives, however reads are cut. The definition is specs/Outlook.antt.
#![tactic(auto)]

mod hand;
mod reader;
mod translation;

pub use reader::Translated;
pub use translation::Translation;
