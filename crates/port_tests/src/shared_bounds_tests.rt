//! Tests of `shared_bounds`, by its public call. The expected values are those of a model that tries all moments, and
//! shares no code with it.
#[cfg(test)]
mod tests;
