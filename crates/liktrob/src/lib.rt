//! Transforms of matrices of canonical numbers, for callers in C, Rust and Python.
//!
//! An export has no condition: whatever engine, words, sizes and shift are given, it answers a status, and where that
//! is not 0, nothing that was lent to it has changed.
#![tactic(auto)]

mod calls;
mod engines;
mod exports;
mod refusal;
mod words;
