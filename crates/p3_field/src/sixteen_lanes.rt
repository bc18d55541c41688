//! The fields of `Residue31` in sixteen lanes: the same numbers under another name, which has another packing.

use crate::residue31::{Numbers, Residue31, ResiduePacking};
use crate::residue31_x16::Residue31X16;
use std::alloc::AllocError;
use std::marker::PhantomData;

/// The same numbers, for elements in sixteen lanes.
#[derive_where(Copy;)]
pub struct SixteenLanes<N: Numbers> {
    of: PhantomData<N>,
}

impl<N: Numbers> Clone for SixteenLanes<N> {
    ghost use Rattle.std.specs.Prelude.{◌≡◌, ⊤};

    ghost is_clone = { λ x y. y ≡ x };

    ghost is_infallible = { λ _. ⊤ };

    fn clone(&self) -> Result<SixteenLanes<N>, AllocError> {
        Ok(*self)
    }
}

impl<N: Numbers> Numbers for SixteenLanes<N> {
    ghost numbers = { N.numbers };

    const MODULUS: u32 = N::MODULUS;

    ghost MODULUS = { N.MODULUS };

    const GENERATOR: u32 = N::GENERATOR;

    ghost GENERATOR = { N.GENERATOR };

    const TWO_ADICITY: usize = N::TWO_ADICITY;

    ghost TWO_ADICITY = { N.TWO_ADICITY };

    ghost modulus_law = { N.modulus_law };

    ghost generator_law = { N.generator_law };

    ghost two_adicity_law = { N.two_adicity_law };

    ghost small_law = { N.small_law };

    ghost quotient_law = { N.quotient_law };

    fn generator_number(bits: usize) -> u32 {
        N::generator_number(bits)
    }
}

impl<N: Numbers> ResiduePacking for SixteenLanes<N> {
    ghost use Rattle.std.proofs.Common.{lit≤};

    type Packing = Residue31X16<SixteenLanes<N>>;

    ghost some_law = { lit≤ tt };
}

/// The element of the same number.
impl<N: Numbers> From<Residue31<N>> for Residue31<SixteenLanes<N>> {
    ghost use Rattle.std.specs.Prelude.{◌≡◌};

    ghost from_gives = { λ x r. r.number ≡ x.number };

    fn from(x: Residue31<N>) -> Residue31<SixteenLanes<N>> {
        Residue31 {
            number: x.number,
            of: PhantomData,
        }
    }
}

/// The element of the same number.
impl<N: Numbers> From<Residue31<SixteenLanes<N>>> for Residue31<N> {
    ghost use Rattle.std.specs.Prelude.{◌≡◌};

    ghost from_gives = { λ x r. r.number ≡ x.number };

    fn from(x: Residue31<SixteenLanes<N>>) -> Residue31<N> {
        Residue31 {
            number: x.number,
            of: PhantomData,
        }
    }
}
