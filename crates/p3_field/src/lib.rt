//! Finite fields with roots of unity of two-power order, as the transforms use them.
//!
//! `Field` has the operations of a commutative ring with one in which halving is exact, and their
//! laws, on the values that `Valued` gives elements; `FieldOps` adds operators in place, sums, products and texts,
//! `TwoAdicField` the roots of unity, and `CanonicalField` the numbers below a modulus.
//! `Residue31` is such a field for each type that has `Numbers`, with a modulus below `2^31`, and a
//! `ResiduePacking`: `BabyBear` and `KoalaBear` are made of it. `Goldilocks` has a modulus below `2^64`.
//! `WideBabyBear`, `WideKoalaBear` and `WideGoldilocks` are the same fields for processors with wider vectors.
//! `PackedField` handles several scalars by one operation: `Residue31X8` eight and `Residue31X16` sixteen of a
//! `Residue31`, `GoldilocksX8` eight of a `WideGoldilocks`, and `Lanes` any number of any field, as four of a
//! `Goldilocks`. `Products` counts the products that were made, for contracts alone. `BasedVectorSpace` is what
//! elements with coordinates are, as `Coordinates`. `power_iterator` has the powers of an element, `batch_inverse` the
//! inverses of many by one inversion, and `totals` what the sums and products of a new field can be made of.
#![tactic(auto)]

pub mod algebra;
pub mod baby_bear;
pub mod batch_inverse;
mod euclid;
pub mod fields;
pub mod goldilocks;
pub mod goldilocks_x8;
pub mod koala_bear;
mod lane_residues;
pub mod lanes;
pub mod packed;
pub mod power_iterator;
pub mod residue31;
pub mod residue31_x16;
pub mod residue31_x8;
pub mod sixteen_lanes;
pub mod totals;
pub mod two_adic;

pub use algebra::{BasedVectorSpace, Coordinates};
pub use baby_bear::{BabyBear, BabyBearX8, WideBabyBear};
pub use batch_inverse::{
    batch_multiplicative_inverse, batch_multiplicative_inverse_to, first_without_inverse,
};
pub use fields::{Field, FieldOps, Valued};
pub use goldilocks::{
    Goldilocks, GoldilocksIn, GoldilocksPacking, ScalarLanes, VectorLanes, WideGoldilocks,
};
pub use goldilocks_x8::GoldilocksX8;
pub use koala_bear::{KoalaBear, KoalaBearX8, WideKoalaBear};
pub use lanes::Lanes;
pub use packed::{Packable, PackedField, Products, scaled};
pub use residue31::{Numbers, Residue31, ResiduePacking};
pub use residue31_x8::Residue31X8;
pub use residue31_x16::Residue31X16;
pub use sixteen_lanes::SixteenLanes;
pub use two_adic::{CanonicalField, TwoAdicField};
