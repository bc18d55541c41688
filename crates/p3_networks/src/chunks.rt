//! Chunks of a slice, one after another.

ghost use Rattle.std.specs.Prelude.{◌≡◌, ℕ, ◌+◌, ◌*◌, ◌<◌, ◌≤◌, List, length};
ghost use Rattle.p3_networks.specs.Chunks.{chunk_of};
ghost use Rattle.p3_networks.specs.Counts.{RisesAtMost};
ghost use Rattle.p3_networks.specs.Slots.{BlockShape, LentInBlocks};

use p3_field::{Products, TwoAdicField};
use p3_matrix::BlockConsumer;

/// Work that is done on the chunks of a slice.
pub(crate) trait ChunkWork<F: TwoAdicField>: Drop {
    // Whether it may be done on a chunk of that number and of so many entries.
    ghost accepts: { Self → ℕ → ℕ → Type 0 };

    // What a chunk of that number was before the work and is after it.
    ghost takes: { Self → ℕ → List F → List F → Type 0 };

    // Twice the products that it makes at most on a chunk of so many entries.
    ghost cost: { Self → ℕ → ℕ };

    /// Does it on one chunk, in place.
    fn on_chunk(&self, number: usize, chunk: &mut [F], products: &mut Products)
        requires { accepts self.now number (length chunk.old) }
        ensures chunk { takes self.now number chunk.old chunk.new }
        ensures cost { RisesAtMost (cost self.now (length chunk.old)) (2 * products.old) (2 * products.new) };
}

/// Does the work on each of `count` chunks of `size` entries, one after another.
///
/// Inlined, so that what the work names is known in its loops.
#[inline(always)]
pub(crate) fn on_each_chunk<F: TwoAdicField, W: ChunkWork<F>>(
    work: W,
    values: &mut [F],
    size: usize,
    count: usize,
    products: &mut Products,
)
    requires whole { length values.old ≡ count * size }
    requires accepts { (n : ℕ) → n < count → W.accepts work n size }
    ensures chunks { (n : ℕ) → n < count → W.takes work n (chunk_of size n values.old) (chunk_of size n values.new) }
    ensures cost { RisesAtMost (count * W.cost work size) (2 * products.old) (2 * products.new) }
{
    for n in 0..count {
        let start = n * size;
        let chunk = &mut values[start..start + size];
        work.on_chunk(n, chunk, products);
    }
}

/// Work that is done on the chunks of a slice, whose rows are lent to a consumer in blocks as soon as they are final.
pub(crate) trait LendingWork<F: TwoAdicField, C: BlockConsumer<F>>: Drop {
    /// What is kept from chunk to chunk. No result depends on it.
    type Kept;

    // Whether it may be done on a chunk of that number and of so many entries.
    ghost accepts: { Self → ℕ → ℕ → Type 0 };

    // When a row of a chunk is final, by the number of the chunk, that of the row in it, and the chunk before and after.
    ghost takes: { Self → ℕ → ℕ → List F → List F → Type 0 };

    // In which blocks the rows are lent.
    ghost shape: { Self → BlockShape };

    // The products that it makes at most on a chunk of so many entries.
    ghost cost: { Self → ℕ → ℕ };

    /// Does it on one chunk, in place, and lends its blocks until one is refused.
    fn on_chunk(
        &self,
        number: usize,
        chunk: &mut [F],
        kept: &mut Self::Kept,
        consumer: &mut C,
        products: &mut Products,
    ) -> Result<(), C::Refusal>
        requires { accepts self.now number (length chunk.old) }
        ensures lent { let s = shape self.now in
            LentInBlocks C.step (s.first + number * (s.blocks * s.rows)) s.rows s.width s.blocks
            (λ n. (r : ℕ) → r < n * s.rows → takes self.now number r chunk.old chunk.new)
            chunk.new consumer.old result consumer.new }
        ensures cost { RisesAtMost (cost self.now (length chunk.old)) products.old products.new };
}

/// Does the work on each of `count` chunks of `size` entries, one after another, until a block is refused.
#[inline(always)]
pub(crate) fn lend_each_chunk<F: TwoAdicField, C: BlockConsumer<F>, W: LendingWork<F, C>>(
    work: &W,
    values: &mut [F],
    size: usize,
    count: usize,
    kept: &mut W::Kept,
    consumer: &mut C,
    products: &mut Products,
) -> Result<(), C::Refusal>
    requires whole { length values.old ≡ count * size }
    requires blocks { let s = W.shape work.now in size ≡ s.blocks * (s.rows * s.width) }
    requires accepts { (n : ℕ) → n < count → W.accepts work.now n size }
    ensures lent { let s = W.shape work.now in LentInBlocks C.step s.first s.rows s.width (count * s.blocks)
        (λ n. (p r : ℕ) → r < s.blocks * s.rows → p * (s.blocks * s.rows) + r < n * s.rows
        → W.takes work.now p r (chunk_of size p values.old) (chunk_of size p values.new))
        values.new consumer.old result consumer.new }
    ensures cost { RisesAtMost (count * W.cost work.now size) products.old products.new }
{
    for n in 0..count {
        let start = n * size;
        let chunk = &mut values[start..start + size];
        if let Err(refusal) = work.on_chunk(n, chunk, kept, consumer, products) {
            return Err(refusal);
        }
    }
    Ok(())
}

/// One chunk of `size` entries.
#[inline(always)]
pub(crate) fn chunk<F: TwoAdicField>(values: &[F], size: usize, number: usize) -> &[F]
    requires { number * size + size ≤ length values.now }
    ensures { result.now ≡ chunk_of size number values.now }
{
    let start = number * size;
    &values[start..start + size]
}
