//! Tests of `line_reader`, by its public calls. They stand in a crate of their own, so that `line_reader` is proved
//! once and not again with them.
#[cfg(test)]
mod tests;
