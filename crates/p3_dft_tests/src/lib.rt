//! Tests of `p3_dft` through its public names, as a crate of a user's sees it, and of the groups of layers in
//! `p3_networks`.
//!
//! They stand in a crate of their own since a crate with tests is proved once more with them.
#![tactic(auto)]

#[cfg(test)]
mod tests;
