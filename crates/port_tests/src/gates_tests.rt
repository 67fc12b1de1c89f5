//! Tests of `gate_list`, `stepped` and `jumping`, by their public calls.
#[cfg(test)]
mod far;
#[cfg(test)]
mod lists;
#[cfg(test)]
mod worked;
