//! Tests of `network_table` and `port_schedules`, by their public calls. They stand in a crate of their own, so that
//! these are proved once and not again with them.
#[cfg(test)]
mod tests;
