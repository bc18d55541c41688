//! What is timed: a call on a matrix of a shape.

use p3_dft::{CanonicalField, RowMajorMatrix};
use std::alloc::{AllocError, Global};

#[derive(Clone, Copy)]
pub enum Call {
    Dft,
    Idft,
    CosetLde,
}

impl Call {
    /// How many bits it adds, of those that the words name: a transform adds none.
    pub fn added_bits(self, named: usize) -> usize {
        match self {
            Call::CosetLde => named,
            _ => 0,
        }
    }
}

/// How often a call is made.
#[derive(Clone, Copy)]
pub enum Calls {
    /// Once, for its answer alone.
    Untimed,
    /// Twice by a new engine, and so many times more.
    Timed(usize),
}

#[derive(Clone, Copy)]
pub struct Case {
    pub call: Call,
    /// The logarithm of the input's height.
    pub log_height: usize,
    pub width: usize,
    /// For extensions alone.
    pub added_bits: usize,
    pub calls: Calls,
}

// `2^log`, or zero where a `usize` does not hold it.
fn power_of_two(log: usize) -> usize {
    if log < 64 { 1 << log } else { 0 }
}

impl Case {
    /// How many rows the input has, or zero where a `usize` does not hold the number.
    pub fn height(self) -> usize {
        power_of_two(self.log_height)
    }

    /// How many rows the answer has, or zero where a `usize` does not hold the number.
    pub fn answer_height(self) -> usize {
        match self.call {
            Call::CosetLde => power_of_two(self.log_height.saturating_add(self.added_bits)),
            _ => power_of_two(self.log_height),
        }
    }

    /// How many entries go through layers, each counted once a layer: those of the input, and in an extension
    /// those of the output too.
    pub fn entries_by_layers(self) -> usize {
        let input = self
            .width
            .saturating_mul(power_of_two(self.log_height))
            .saturating_mul(self.log_height);
        match self.call {
            Call::CosetLde => {
                let layers = self.log_height.saturating_add(self.added_bits);
                let output = self
                    .width
                    .saturating_mul(self.answer_height())
                    .saturating_mul(layers);
                input.saturating_add(output)
            }
            _ => input,
        }
    }

    /// A matrix of this shape, whose entries are those of a linear congruential generator. There is none
    /// where the width is zero or too many entries were to be made.
    pub fn input<F: CanonicalField>(
        self,
        alloc: Global,
    ) -> Result<Option<RowMajorMatrix<F>>, AllocError> {
        let Some(count) = power_of_two(self.log_height).checked_mul(self.width) else {
            return Ok(None);
        };
        let entries = drawn(alloc, count)?;
        if self.width == 0 || entries.len() / self.width * self.width != entries.len() {
            return Ok(None);
        }
        Ok(Some(RowMajorMatrix::new(entries, self.width)))
    }
}

fn drawn<F: CanonicalField>(alloc: Global, count: usize) -> Result<Vec<F>, AllocError> {
    let mut entries = Vec::with_capacity(alloc, count)?;
    let mut state = 12345u64;
    for _n in 0..count {
        state = state
            .wrapping_mul(6364136223846793005)
            .wrapping_add(1442695040888963407);
        entries.push(F::from_u64(state >> 1))?;
    }
    Ok(entries)
}

/// A number that tells the entries and their order: 31 times the number before, plus the entry's, modulo 2^64.
pub fn sum_of<F: CanonicalField>(entries: &[F]) -> u64 {
    let mut sum = 0u64;
    for entry in entries {
        sum = sum.wrapping_mul(31).wrapping_add(entry.as_canonical_u64());
    }
    sum
}
