//! Values of polynomials at any point, from their values on a coset of a two-adic subgroup: no transform is made.
//!
//! The names are those of p3-interpolation. A matrix has the values of a polynomial in each column; `interpolate_coset`
//! answers the polynomials' values at one point, by the barycentric formula, in one pass over the rows.
//! `barycentric_weights` has the formula's weights, one for each row, which serve every matrix of that height. By
//! `weighted_rows` the weights of several points, or the coordinates of those in an extension field, are taken in one
//! pass. `vanishing` has the values of a subgroup's vanishing polynomial on a larger coset, and their inverses.
#![tactic(auto)]

mod barycentric;
mod interpolation;
mod rows;
mod vanishing;

pub use barycentric::{barycentric_weights, is_off_coset};
pub use interpolation::{interpolate_coset, interpolate_subgroup};
pub use rows::weighted_rows;
pub use vanishing::{
    CosetGenerator, vanishing_inverses, vanishing_inverses_off_subgroups, vanishing_values,
};

#[cfg(test)]
mod tests;
