//! A polynomial whose coefficients and values are known at every height.

use p3_dft::{Field, TwoAdicField};
use std::alloc::{AllocError, Global};

/// `5 + 4 x`, or `5` where there is one coefficient.
#[derive(Clone, Copy)]
pub struct Line<F> {
    slope: F,
}

/// `2^log_h`, or zero where a `usize` does not hold it.
fn height(log_h: usize) -> usize {
    if log_h < 64 { 1 << log_h } else { 0 }
}

// The generator of the subgroup of order `2^log_h`, where there is one.
fn generator<F: TwoAdicField>(log_h: usize) -> F {
    if log_h <= F::TWO_ADICITY {
        F::two_adic_generator(log_h)
    } else {
        F::ONE
    }
}

impl<F: TwoAdicField> Line<F> {
    /// With `2^log_h` coefficients.
    pub fn new(log_h: usize) -> Self {
        Line {
            slope: if log_h == 0 { F::ZERO } else { F::from_u8(4) },
        }
    }

    fn coefficient(self, i: usize) -> F {
        match i {
            0 => F::from_u8(5),
            1 => self.slope,
            _ => F::ZERO,
        }
    }

    fn value(self, point: F) -> F {
        F::from_u8(5) + self.slope * point
    }

    /// Its `2^log_h` coefficients.
    pub fn coefficients(self, alloc: Global, log_h: usize) -> Result<Vec<F>, AllocError> {
        let count = height(log_h);
        let mut coefficients = Vec::with_capacity(alloc, count)?;
        for i in 0..count {
            coefficients.push(self.coefficient(i))?;
        }
        Ok(coefficients)
    }

    /// Its values on the coset of `shift` of order `2^log_h`.
    pub fn values(self, alloc: Global, log_h: usize, shift: F) -> Result<Vec<F>, AllocError> {
        let count = height(log_h);
        let mut values = Vec::with_capacity(alloc, count)?;
        let generator = generator(log_h);
        let mut point = shift;
        for _i in 0..count {
            values.push(self.value(point))?;
            point = point * generator;
        }
        Ok(values)
    }

    /// Whether these are its `2^log_h` coefficients. Takes no memory, as the next.
    pub fn has_coefficients(self, found: &[F], log_h: usize) -> bool {
        let mut same = found.len() == height(log_h);
        for i in 0..found.len() {
            same = same && found[i] == self.coefficient(i);
        }
        same
    }

    /// Whether these are its values there.
    pub fn has_values(self, found: &[F], log_h: usize, shift: F) -> bool {
        let mut same = found.len() == height(log_h);
        let generator = generator(log_h);
        let mut point = shift;
        for i in 0..found.len() {
            same = same && found[i] == self.value(point);
            point = point * generator;
        }
        same
    }
}
