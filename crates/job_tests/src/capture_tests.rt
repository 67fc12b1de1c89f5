//! Tests of `capture` and `octet_store`, by their public calls. They stand in a crate of their own, so that those are
//! proved once and not again with them.
#[cfg(test)]
mod store;
#[cfg(test)]
mod tests;
