//! A low degree test of the published blocks of an extension, for every field and engine: a consumer keeps each
//! block, and the test is of the rows that were kept.
//!
//! Proved: the rows that were kept are the extension. The test says yes where each of its columns has the values
//! of a polynomial with no more coefficients than the input has rows, and nowhere else; and it says yes.

ghost use Rattle.std.specs.Prelude.{◌≡◌, ◌↔◌, ◌*◌, ◌^◌, IfErr, IfOk, IsTrue, length};
ghost use Rattle.std.specs.Mem.{type_size};
ghost use Rattle.p3_field.specs.Ring.{IsInvertible};
ghost use Rattle.p3_matrix.specs.BitOrder.{reversed_rows};
ghost use Rattle.p3_matrix.specs.Cosets.{values_of};
ghost use Rattle.p3_matrix.specs.Room.{IsWithin, WasOutOfMemory};
ghost use Rattle.p3_matrix.specs.RowMajor.{height};
ghost use Rattle.p3_dft.specs.Codes.{HasDegreeBelow};
ghost use Rattle.p3_dft.specs.Engines.{AtLog, IsLater};
ghost use Rattle.p3_dft.specs.Extensions.{IsExtension};
ghost use Rattle.p3_dft.specs.Shapes.{FitsLde};

use p3_dft::{
    BitReversedMatrixView, BlockConsumer, DftError, Evaluations, Field, RowMajorMatrix,
    RowMajorMatrixView, TwoAdicField, TwoAdicSubgroupDft, extended_height, growth,
    has_degree_below,
};
use std::convert::Infallible;

/// A consumer that keeps the entries of each block at their place among those of all rows, and never refuses
/// one.
#[derive(Drop)]
pub struct Kept<F> {
    entries: Vec<F>,
}

impl<F: Field> BlockConsumer<F> for Kept<F> {
    ghost use Rattle.std.specs.Prelude.{◌≡◌, Ok};
    ghost use Rattle.p3_matrix.specs.Consumers.{IsCopied};

    type Refusal = Infallible;

    ghost step = { λ c start block answer e. (answer ≡ Ok tt)
        × IsCopied c.entries.items start block e.entries.items };

    fn consume(&mut self, start: usize, block: RowMajorMatrixView<'_, F>) -> Result<(), Infallible>
        ensures { ⟦<Kept<F> as BlockConsumer<F>>⟧.step self.old start block.entry result self.new }
    {
        let entries = block.values();
        let first = start.saturating_mul(block.width());
        let end = first.saturating_add(entries.len());
        if end <= self.entries.len() {
            self.entries[first..end].copy_from_slice(entries);
        }
        Ok(())
    }
}

// As many zeros as the extension of the matrix has entries.
fn zeros_for<F: TwoAdicField>(
    mat: &RowMajorMatrix<F>,
    added_bits: usize,
) -> Result<Vec<F>, DftError>
    requires { FitsLde F.TWO_ADICITY (height mat.now) mat.now.width added_bits }
    ensures size { IfOk result (λ zeros. length zeros.items ≡ (height mat.now * 2 ^ added_bits) * mat.now.width) }
    ensures refused { IfErr result
        (IsWithin (type_size F.row) ((height mat.now * 2 ^ added_bits) * mat.now.width)) }
{
    let rows = extended_height::<F>(mat.height(), mat.width(), added_bits);
    let mut zeros = Vec::new(*mat.allocator());
    growth::resize(&mut zeros, rows * mat.width(), F::ZERO)?;
    Ok(zeros)
}

// The matrix in natural order whose rows, as they lie in memory, have the same entries as those of `out`.
#[tactic(auto, using(p3_matrix::proofs::ReversedRows::reversed_alike))]
fn in_natural_order<F: Field>(
    entries: Vec<F>,
    out: &BitReversedMatrixView<RowMajorMatrix<F>>,
) -> RowMajorMatrix<F>
    requires { entries.items ≡ out.now.physical.values }
    ensures { result ≡ reversed_rows out.now.bits out.now.physical }
{
    let width = out.inner().width();
    let physical = RowMajorMatrix::new(entries, width);
    physical.bit_reverse_rows().to_row_major_matrix()
}

/// The extension of a matrix, as its published blocks make it.
pub fn kept_extension<F: TwoAdicField, D: TwoAdicSubgroupDft<F>>(
    engine: &mut D,
    mat: RowMajorMatrix<F>,
    added_bits: usize,
    shift: F,
) -> Result<RowMajorMatrix<F>, DftError>
    requires { FitsLde F.TWO_ADICITY (height mat) mat.width added_bits }
    ensures extension { IfOk result (λ out. IsExtension F.Valued.own F.generator mat added_bits (F.value shift) out) }
    ensures later { IsLater D.facts engine.old engine.new }
    ensures refused { IfErr result WasOutOfMemory }
{
    let entries = zeros_for(&mat, added_bits)?;
    let (out, kept) = engine.coset_lde_batch_in_blocks(
        mat,
        added_bits,
        shift,
        |_rows| Kept { entries },
    )?;
    // Tells the prover that the rows are whole.
    let _whole = out.inner();
    Ok(in_natural_order(kept.entries, &out))
}

/// The extension of a matrix, as its published blocks make it, and whether its columns have the values of
/// polynomials with no more coefficients than the matrix has rows.
pub fn published_degree<F: TwoAdicField, D: TwoAdicSubgroupDft<F>>(
    engine: &mut D,
    mat: RowMajorMatrix<F>,
    added_bits: usize,
    shift: F,
) -> Result<(RowMajorMatrix<F>, bool), DftError>
    requires fits { FitsLde F.TWO_ADICITY (height mat) mat.width added_bits }
    requires invertible { IsInvertible F.ring (F.value shift) }
    ensures extension { IfOk result (λ p. IsExtension F.Valued.own F.generator mat added_bits (F.value shift) p.0) }
    ensures exact { IfOk result (λ p. AtLog (height p.0) (λ k. IsTrue p.1 ↔ HasDegreeBelow F.Valued.own F.generator
        (height mat) k (F.value shift) (values_of F.Valued.own p.0))) }
    ensures low { IfOk result (λ p. IsTrue p.1) }
    ensures later { IsLater D.facts engine.old engine.new }
    ensures refused { IfErr result WasOutOfMemory }
{
    let degree = mat.height();
    let kept = kept_extension(engine, mat, added_bits, shift)?;
    let coefficients = engine.coset_idft_batch(kept.try_clone()?, shift)?;
    let low = has_degree_below(&coefficients, degree);
    Ok((kept, low))
}
