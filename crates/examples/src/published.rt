//! Extensions with published blocks, for every field and engine: a recorder of all blocks, a limit on their
//! number, and the sum of the entries of all or of the first blocks. Each hands over a maker of consumers of
//! its own.
//!
//! Proved: what a client may conclude, whatever the order of the blocks and whether one was refused.

ghost use Rattle.std.specs.Prelude.{◌≡◌, ℕ, ◌+◌, ◌%◌, ◌/◌, ◌^◌, ◌<◌, ◌≤◌, ◌≢◌, ◌++◌, List, [], ◌∷◌, IfErr, IfOk};
ghost use Rattle.std.specs.Prelude.{IfSome, IsNone, Ok, false, get_or, length};
ghost use Rattle.p3_matrix.specs.BitOrder.{bit_reversal, reversed_rows};
ghost use Rattle.p3_matrix.specs.Blocks.{AreBlocksOf, IsPartition};
ghost use Rattle.p3_matrix.specs.Matrix.{Matrix};
ghost use Rattle.p3_matrix.specs.Room.{WasOutOfMemory};
ghost use Rattle.p3_matrix.specs.RowMajor.{RowMajor, height};
ghost use Rattle.p3_matrix.specs.Polynomials.{sum};
ghost use Rattle.p3_dft.specs.Engines.{AtLog, IsLater};
ghost use Rattle.p3_dft.specs.Extensions.{AreExtendedValues, IsExtension};
ghost use Rattle.p3_dft.specs.Shapes.{FitsLde};
ghost use Rattle.examples.specs.Sums.{sum_of_blocks};
ghost use Rattle.std.specs.List.{All, AllPairs};
ghost use Rattle.p3_matrix.specs.Cosets.{values_of};

use p3_dft::{
    BitReversedMatrixView, BlockConsumer, BlockLimit, BlockRefused, BlocksStopped, DftError, Field,
    Recorder, RowMajorMatrix, RowMajorMatrixView, TwoAdicField, TwoAdicSubgroupDft,
    extended_height,
};
use std::convert::Infallible;

/// An extension, and a recorder that holds each of its blocks once.
pub fn recorded_extension<F: TwoAdicField, D: TwoAdicSubgroupDft<F>>(
    engine: &mut D,
    mat: RowMajorMatrix<F>,
    added_bits: usize,
    shift: F,
) -> Result<(BitReversedMatrixView<RowMajorMatrix<F>>, Recorder<F>), DftError>
    requires { FitsLde F.TWO_ADICITY (height mat) mat.width added_bits }
    ensures extension { IfOk result (λ p.
        IsExtension F.Valued.own F.generator mat added_bits (F.value shift) (reversed_rows p.0.bits p.0.physical)) }
    ensures recorded { IfOk result (λ p. AtLog (height mat) (λ k.
        IsPartition (D.facts.block_rows k added_bits) p.0.physical p.1.blocks × (p.1.missed ≡ false))) }
    ensures later { IsLater D.facts engine.old engine.new }
    ensures refused { IfErr result WasOutOfMemory }
{
    // There are no more blocks than rows.
    let rows = extended_height::<F>(mat.height(), mat.width(), added_bits);
    let recorder = Recorder::with_room(*mat.allocator(), rows, rows * mat.width())?;
    let answer = engine.coset_lde_batch_in_blocks(mat, added_bits, shift, |_rows| recorder);
    match answer {
        Ok((out, recorder)) => {
            // Tells the prover that the rows are whole.
            let _whole = out.height();
            Ok((out, recorder))
        }
        Err(stopped) => match stopped {
            BlocksStopped::Refused {
                consumer: _consumer,
                refusal: (),
            } => unreachable!(),
            BlocksStopped::OutOfMemory(_) => Err(DftError::OutOfMemory),
        },
    }
}

/// An extension that has at most so many blocks, with their number. Else, as it has more, the block that was
/// one too many: it and those that were taken before it, as many as the limit, are blocks of one extension,
/// none twice. No order of blocks is promised, so any may be the last. There is none where memory was
/// refused, of which no clause speaks.
pub fn limited_extension<F: TwoAdicField, D: TwoAdicSubgroupDft<F>>(
    engine: &mut D,
    mat: RowMajorMatrix<F>,
    added_bits: usize,
    shift: F,
    limit: usize,
) -> Result<(BitReversedMatrixView<RowMajorMatrix<F>>, usize), Option<BlockRefused>>
    requires { FitsLde F.TWO_ADICITY (height mat) mat.width added_bits }
    ensures extension { IfOk result (λ p.
        IsExtension F.Valued.own F.generator mat added_bits (F.value shift) (reversed_rows p.0.bits p.0.physical)) }
    ensures counted { IfOk result (λ p. AtLog (height mat)
        (λ k. p.1 ≡ height p.0.physical / D.facts.block_rows k added_bits)) }
    ensures within { IfOk result (λ p. p.1 ≤ limit) }
    ensures refused { IfErr result (λ e. IfSome e (λ refusal. AtLog (height mat) (λ k.
        (refusal.start % D.facts.block_rows k added_bits ≡ 0) × (refusal.start < 2 ^ (k + added_bits))
        × (limit < 2 ^ (k + added_bits) / D.facts.block_rows k added_bits)))) }
    ensures one_too_many { IfErr result (λ e. IfSome e (λ refusal. AtLog (height mat) (λ k. (out : Matrix F.Element)
        × AreExtendedValues F.Valued.own F.generator mat added_bits (F.value shift) out
        × (taken : List (ℕ × RowMajor F)) × (refused : ℕ × RowMajor F)
        × AreBlocksOf (values_of F.Valued.own) (D.facts.block_rows k added_bits) (bit_reversal (k + added_bits) out)
        (taken ++ refused ∷ [])
        × (length taken ≡ limit) × (refusal.start ≡ refused.0)))) }
    ensures later { IsLater D.facts engine.old engine.new }
{
    let answer = engine.coset_lde_batch_in_blocks(
        mat,
        added_bits,
        shift,
        |_rows| BlockLimit::new(limit),
    );
    match answer {
        Ok((out, taken)) => Ok((out, taken.seen())),
        Err(stopped) => match stopped {
            BlocksStopped::Refused {
                consumer: _consumer,
                refusal,
            } => Err(Some(refusal)),
            BlocksStopped::OutOfMemory(_) => Err(None),
        },
    }
}

/// A consumer that adds up the entries of all blocks, and never refuses one.
#[derive(Drop)]
pub struct BlockSum<F> {
    /// The sum so far.
    pub sum: F,
}

impl<F: Field> BlockConsumer<F> for BlockSum<F> {
    ghost use Rattle.std.specs.Prelude.{◌≡◌, Ok, get_or, length};
    ghost use Rattle.p3_matrix.specs.Polynomials.{sum};

    type Refusal = Infallible;

    ghost step = { λ c start block answer e. (answer ≡ Ok tt) × (F.value e.sum
        ≡ F.ring.add (F.value c.sum) (sum F.ring (length block.values)
        (λ i. F.value (get_or block.values i F.zero)))) };

    fn consume(&mut self, start: usize, block: RowMajorMatrixView<'_, F>) -> Result<(), Infallible>
        ensures { ⟦<BlockSum<F> as BlockConsumer<F>>⟧.step self.old start block.entry result self.new }
    {
        let _ = start;
        self.sum = self.sum + sum_of(block.values());
        Ok(())
    }
}

// The sum of the elements.
fn sum_of<F: Field>(elements: &[F]) -> F
    ensures { F.value result ≡ sum F.ring (length elements.now) (λ i. F.value (get_or elements.now i F.zero)) }
{
    let mut sum = F::ZERO;
    for i in 0..elements.len() {
        sum = sum + elements[i];
    }
    sum
}

/// An extension and the sum of its entries, which is made block by block.
pub fn summed_extension<F: TwoAdicField, D: TwoAdicSubgroupDft<F>>(
    engine: &mut D,
    mat: RowMajorMatrix<F>,
    added_bits: usize,
    shift: F,
) -> Result<(BitReversedMatrixView<RowMajorMatrix<F>>, F), DftError>
    requires { FitsLde F.TWO_ADICITY (height mat) mat.width added_bits }
    ensures extension { IfOk result (λ p.
        IsExtension F.Valued.own F.generator mat added_bits (F.value shift) (reversed_rows p.0.bits p.0.physical)) }
    ensures summed { IfOk result (λ p.
        F.value p.1 ≡ sum F.ring (length p.0.physical.values) (λ i. F.value (get_or p.0.physical.values i F.zero))) }
    ensures later { IsLater D.facts engine.old engine.new }
    ensures refused { IfErr result WasOutOfMemory }
{
    let (out, total) = engine.coset_lde_batch_in_blocks(
        mat,
        added_bits,
        shift,
        |_rows| BlockSum { sum: F::ZERO },
    )?;
    // Tells the prover that the rows are whole.
    let _whole = out.height();
    Ok((out, total.sum))
}

/// A consumer that adds up the entries of the first blocks, so many, and refuses any other.
#[derive(Drop)]
pub struct LimitedSum<F> {
    /// The sum so far.
    pub sum: F,
    /// How many more blocks it takes.
    pub left: usize,
}

impl<F: Field> BlockConsumer<F> for LimitedSum<F> {
    ghost use Rattle.std.specs.Prelude.{◌≡◌, ◌+◌, Ok, Err, get_or, length};
    ghost use Rattle.p3_matrix.specs.Polynomials.{sum};

    type Refusal = ();

    ghost step = { λ c start block answer e.
        (answer ≡ Ok tt → (c.left ≡ e.left + 1) × (F.value e.sum
        ≡ F.ring.add (F.value c.sum) (sum F.ring (length block.values) (λ i. F.value (get_or block.values i F.zero)))))
        × (answer ≡ Err tt → (c.left ≡ 0) × (e ≡ c)) };

    fn consume(&mut self, start: usize, block: RowMajorMatrixView<'_, F>) -> Result<(), ()>
        ensures { ⟦<LimitedSum<F> as BlockConsumer<F>>⟧.step self.old start block.entry result self.new }
    {
        let _ = start;
        if self.left == 0 {
            return Err(());
        }
        self.left -= 1;
        self.sum = self.sum + sum_of(block.values());
        Ok(())
    }
}

/// The sum of the entries of so many blocks of an extension: of each block those of its rows, and no block
/// twice. There is none only where the extension has no more blocks than that.
pub fn sum_of_first_blocks<F: TwoAdicField, D: TwoAdicSubgroupDft<F>>(
    engine: &mut D,
    mat: RowMajorMatrix<F>,
    added_bits: usize,
    shift: F,
    limit: usize,
) -> Result<Option<F>, DftError>
    requires { FitsLde F.TWO_ADICITY (height mat) mat.width added_bits }
    ensures first { IfOk result (λ found. IfSome found (λ total. AtLog (height mat) (λ k. (out : Matrix F.Element)
        × AreExtendedValues F.Valued.own F.generator mat added_bits (F.value shift) out
        × (starts : List ℕ) × (length starts ≡ limit) × AllPairs (λ i j. i ≢ j) starts
        × All (λ start. (start % D.facts.block_rows k added_bits ≡ 0) × (start < 2 ^ (k + added_bits))) starts
        × (F.value total ≡ sum_of_blocks F.ring (D.facts.block_rows k added_bits) (bit_reversal (k + added_bits) out)
        starts)))) }
    ensures none { IfOk result (λ found. IsNone found
        → AtLog (height mat) (λ k. 2 ^ (k + added_bits) / D.facts.block_rows k added_bits ≤ limit)) }
    ensures later { IsLater D.facts engine.old engine.new }
    ensures refused { IfErr result WasOutOfMemory }
{
    let none_yet = LimitedSum {
        sum: F::ZERO,
        left: limit,
    };
    let answer = engine.coset_lde_batch_in_blocks(mat, added_bits, shift, |_rows| none_yet);
    match answer {
        Ok((out, taken)) => {
            // Tells the prover that the rows are whole.
            let _whole = out.height();
            let _left = taken.left;
            Ok(None)
        }
        Err(stopped) => match stopped {
            BlocksStopped::Refused {
                consumer,
                refusal: (),
            } => Ok(Some(consumer.sum)),
            BlocksStopped::OutOfMemory(_) => Err(DftError::OutOfMemory),
        },
    }
}
