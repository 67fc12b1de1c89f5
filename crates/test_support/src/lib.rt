//! What tests share: readers, writers and an allocator that fail, random lists, and gates in the form of the definitions.
#![tactic(auto)]

pub mod random_lists;
pub mod reference;
pub mod refusing_heap;
pub mod test_streams;
