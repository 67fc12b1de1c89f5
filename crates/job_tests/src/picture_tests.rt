//! Tests of `picture`, by its public calls.
#[cfg(test)]
mod bands;
#[cfg(test)]
mod tests;
