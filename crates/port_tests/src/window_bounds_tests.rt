//! Tests of `window_bounds`, by its public call. The expected values are those of a model that goes from picosecond to
//! picosecond by the definitions, and shares no code with it.
#[cfg(test)]
mod tests;
