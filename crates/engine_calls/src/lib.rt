//! Each call of an engine once, with its arguments as data and its answer as a value: the tests of answers, of counted
//! products and of failed allocations all go through this list, on engines by their names.
#![tactic(auto)]

pub mod algebra;
pub mod answers;
pub mod batch;
pub mod blocks;
pub mod changes;
pub mod codes;
pub mod engines;
pub mod names;
pub mod vector;
pub mod work;
