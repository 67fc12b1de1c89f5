//! A test of `delay_bounds`, where memory is refused. What it answers is seen by rows of the program.
#[cfg(test)]
mod tests;
