//! Layers of butterflies, the tables of their twiddles, and the networks of the engines on rows that lie
//! one after another in a slice.
//!
//! What a network computes is said by values: each row holds, after it, the value of the polynomials of
//! the columns at a point. `p3_dft` makes engines of them and gives the names that a user needs.
#![tactic(auto)]

mod butterfly_layers;
mod chunks;
pub mod groups;
pub mod halves;
pub mod layouts;
mod pairs;
pub mod radix_2_bowers;
pub mod radix_2_dit;
pub mod radix_2_dit_parallel;
pub mod radix_2_small_batch;
pub mod root_tables;
pub mod shifts;
pub mod tiles;
pub mod twiddles;
