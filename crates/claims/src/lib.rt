//! What the bounds are worth in every run: the premises of the laws, met by values that calls make, and the claims for
//! one port and for a network of ports.
#![tactic(auto)]

pub mod late_claim;
pub mod network_claim;
pub mod premises;
pub mod shared_claim;
