//! Tests of `summary`, by its public calls. They stand in a crate of their own, so that `summary` is proved once and
//! not again with them.
#[cfg(test)]
mod tests;
