//! The public surface of `p3_dft`, as lines of a user: every trait with its members and bounds, every derive and every
//! signature, each in a function that has no other purpose, with the caller's condition as its `requires`; and worked
//! rows by the plain names. A change of the library that breaks a user's line, or asks more of it, fails here.
//!
//! Lines name `p3_dft` alone, and those of the program `dft_program`; they are generic where the library is. What a
//! user writes to meet a trait stands, proved in the same way, where it has a use:
//!
//! | A user's own | Is |
//! | --- | --- |
//! | field, packed value, field with a packing | `Quadratic` of `examples`; `Tally` of `p3_dft_tests` |
//! | field with roots of unity | `Quadratic` of `examples` |
//! | field with canonical numbers | `Tally` of `p3_dft_tests` |
//! | engine | `NaturalToReversed` of `examples`; `LimitedDft` of `p3_dft_tests` |
//! | consumer of blocks | `Leaves`, `BlockSum`, `LimitedSum` of `examples`; here `Sum` |
//! | vector space | `Quadratic` of `examples`; here `Complex` |
//! | evaluations, butterfly | here: `Kept`, `SumAndDifference` |
#![tactic(auto)]

#[cfg(test)]
mod tests;
