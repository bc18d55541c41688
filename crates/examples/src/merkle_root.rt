//! A Merkle root over the rows of a low degree extension, whose digests are made block by block as these become
//! final (in `Radix2DitParallel` while the rows are in the cache): what a commitment layer writes, for every field,
//! engine and hash.
//!
//! Proved: leaf i is the digest of row i of the extension as it lies in memory, in bit reversed order, and the
//! root is the tree over these leaves, whatever the order in which the engine lends its blocks. So it depends
//! on the rows alone: two engines have one root.

ghost use Rattle.std.specs.Prelude.{◌≡◌, ℕ, ◌^◌, IfErr, IfOk, get_or, length};
ghost use Rattle.p3_matrix.specs.BitOrder.{reversed_rows};
ghost use Rattle.p3_matrix.specs.Room.{WasOutOfMemory};
ghost use Rattle.p3_matrix.specs.RowMajor.{RowMajor, height, row};
ghost use Rattle.p3_dft.specs.Engines.{IsLater};
ghost use Rattle.p3_dft.specs.Extensions.{IsExtension};
ghost use Rattle.p3_dft.specs.Shapes.{FitsLde};
ghost use Rattle.examples.specs.MerkleTrees.{AreDigests, tree};

use p3_dft::{
    BitReversedMatrixView, BlockConsumer, DftError, Field, RowMajorMatrix, RowMajorMatrixView,
    TwoAdicField, TwoAdicSubgroupDft, extended_height, growth, log2_strict_usize,
};
use std::convert::Infallible;

/// A hash of rows and of pairs of digests.
///
/// An impl says in `of_row` and `of_pair` what a digest is worth, and shows that rows of equal values have
/// digests of one worth: elements of one value may differ in what no contract sees, and so may digests.
pub trait RowHash<F: Field> {
    ghost use Rattle.std.specs.Prelude.{◌≡◌, ◌↔◌, IsTrue, List, map};

    /// What it makes of a row.
    type Digest: Copy;

    // What digests are worth.
    ghost Worth: { Type 0 };

    // The worth of a digest.
    ghost worth: { Self.Digest → Worth };

    // That of the digest of a row.
    ghost of_row: { Self → List F → Worth };

    // That of the digest of two.
    ghost of_pair: { Self → Worth → Worth → Worth };

    /// The digest of a row.
    fn hash_row(&self, row: &[F]) -> Self::Digest
        ensures { worth result ≡ of_row self.now row.now };

    /// The digest of two, in this order.
    fn join(&self, left: Self::Digest, right: Self::Digest) -> Self::Digest
        ensures { worth result ≡ of_pair self.now (worth left) (worth right) };

    /// Whether two digests are worth the same.
    fn are_equal(&self, left: Self::Digest, right: Self::Digest) -> bool
        ensures { IsTrue result ↔ (worth left ≡ worth right) };

    // Rows of equal values have digests of one worth.
    ghost row_law: { (h : Self) (xs ys : List F) → map F.value xs ≡ map F.value ys → of_row h xs ≡ of_row h ys };
}

/// A hash in the field, for tests and examples. **It is no cryptographic hash**: whoever wants two rows of one
/// digest writes them down.
///
/// A row has the digest `(..((x_0 * base + x_1) * base + x_2)..)`, and two have `left * base + right`.
#[derive(Clone, Copy)]
pub struct HornerHash<F> {
    /// By what a digest is multiplied before the next entry is added.
    pub base: F,
}

impl<F: Field> RowHash<F> for HornerHash<F> {
    ghost use Rattle.std.specs.Prelude.{map};
    ghost use Rattle.std.specs.List.{fold};
    ghost use Rattle.std.proofs.Common.{ap};

    type Digest = F;

    ghost Worth = { F.Element };

    ghost worth = { F.value };

    ghost of_row = { λ h xs. fold (λ sum x. F.ring.add (F.ring.mul sum (F.value h.base)) x) F.ring.zero
        (map F.value xs) };

    ghost of_pair = { λ h left right. F.ring.add (F.ring.mul left (F.value h.base)) right };

    fn hash_row(&self, row: &[F]) -> F {
        let mut digest = F::ZERO;
        for x in row {
            digest = digest * self.base + *x;
        }
        digest
    }

    fn join(&self, left: F, right: F) -> F {
        left * self.base + right
    }

    fn are_equal(&self, left: F, right: F) -> bool {
        left == right
    }

    ghost row_law = { λ h xs ys same. ap (fold (λ sum x. F.ring.add (F.ring.mul sum (F.value h.base)) x) F.ring.zero)
        same };
}

/// A consumer that puts the digest of each row that it is lent at the row's number, as far as there are
/// places, and never refuses a block.
#[derive(Drop)]
pub struct Leaves<'a, F: Field, H: RowHash<F>> {
    hash: &'a H,
    digests: Vec<H::Digest>,
}

impl<'a, F: Field, H: RowHash<F>> BlockConsumer<F> for Leaves<'a, F, H> {
    ghost use Rattle.std.specs.Prelude.{◌≡◌, Ok, map};
    ghost use Rattle.p3_matrix.specs.RowMajor.{height, row};
    ghost use Rattle.examples.specs.MerkleTrees.{AreHashed};

    type Refusal = Infallible;

    ghost step = { λ c start block answer e. (answer ≡ Ok tt) × (e.hash.now ≡ c.hash.now)
        × AreHashed H.worth (λ r. H.of_row c.hash.now (row block r)) start (height block)
        c.digests.items e.digests.items };

    fn consume(&mut self, start: usize, block: RowMajorMatrixView<'_, F>) -> Result<(), Infallible>
        ensures { ⟦<Leaves<'a, F, H> as BlockConsumer<F>>⟧.step self.old start block.entry result self.new }
    {
        let places = self.digests.len().saturating_sub(start);
        for r in 0..block.height().min(places) {
            self.digests[start + r] = self.hash.hash_row(block.row(r));
        }
        Ok(())
    }
}

// The extension of a matrix, and the digest of each row as it lies in memory.
fn hashed_extension<F: TwoAdicField, D: TwoAdicSubgroupDft<F>, H: RowHash<F>>(
    engine: &mut D,
    hash: &H,
    mat: RowMajorMatrix<F>,
    added_bits: usize,
    shift: F,
) -> Result<(BitReversedMatrixView<RowMajorMatrix<F>>, Vec<H::Digest>), DftError>
    requires { FitsLde F.TWO_ADICITY (height mat) mat.width added_bits }
    ensures extension { IfOk result (λ p.
        IsExtension F.Valued.own F.generator mat added_bits (F.value shift) (reversed_rows p.0.bits p.0.physical)) }
    ensures leaves { IfOk result (λ p. AreDigests H.worth (H.of_row hash.now) p.0.physical p.1.items) }
    ensures later { IsLater D.facts engine.old engine.new }
    ensures refused { IfErr result WasOutOfMemory }
{
    let count = extended_height::<F>(mat.height(), mat.width(), added_bits);
    // Each place is written once, so any digest will do.
    let mut digests = Vec::new(*mat.allocator());
    growth::resize(&mut digests, count, hash.hash_row(&[]))?;
    let (rows, leaves) = engine.coset_lde_batch_in_blocks(
        mat,
        added_bits,
        shift,
        |_rows| Leaves { hash, digests },
    )?;
    // Tells the prover that the rows are whole.
    let _whole = rows.height();
    Ok((rows, leaves.digests))
}

// The root over `2^log_leaves` digests.
fn root_over<F: Field, H: RowHash<F>>(
    hash: &H,
    leaves: &[H::Digest],
    log_leaves: usize,
) -> H::Digest
    requires { length leaves.now ≡ 2 ^ log_leaves }
    ensures { (d : H.Digest) → H.worth result
        ≡ tree (H.of_pair hash.now) log_leaves (λ i. H.worth (get_or leaves.now i d)) }
{
    if log_leaves == 0 {
        return leaves[0];
    }
    let (left, right) = leaves.split_at(leaves.len() / 2);
    let left = root_over::<F, H>(hash, left, log_leaves - 1);
    let right = root_over::<F, H>(hash, right, log_leaves - 1);
    hash.join(left, right)
}

/// An extension, the digests of its rows and their root.
#[derive(Drop)]
pub struct Commitment<F, D> {
    /// The extension, whose rows lie in bit reversed order.
    pub rows: BitReversedMatrixView<RowMajorMatrix<F>>,
    /// The digest of each row as it lies in memory.
    pub leaves: Vec<D>,
    /// The root of the tree over the leaves.
    pub root: D,
}

/// The extension of a matrix, with the digests of its rows and their root.
pub fn merkle_root<F: TwoAdicField, D: TwoAdicSubgroupDft<F>, H: RowHash<F>>(
    engine: &mut D,
    hash: &H,
    mat: RowMajorMatrix<F>,
    added_bits: usize,
    shift: F,
) -> Result<Commitment<F, H::Digest>, DftError>
    requires { FitsLde F.TWO_ADICITY (height mat) mat.width added_bits }
    ensures extension { IfOk result (λ c.
        IsExtension F.Valued.own F.generator mat added_bits (F.value shift)
        (reversed_rows c.rows.bits c.rows.physical)) }
    ensures leaves { IfOk result (λ c. AreDigests H.worth (H.of_row hash.now) c.rows.physical c.leaves.items) }
    ensures root { IfOk result (λ c. H.worth c.root
        ≡ tree (H.of_pair hash.now) c.rows.bits (λ i. H.of_row hash.now (row c.rows.physical i))) }
    ensures later { IsLater D.facts engine.old engine.new }
    ensures refused { IfErr result WasOutOfMemory }
{
    let (rows, leaves) = hashed_extension(engine, hash, mat, added_bits, shift)?;
    let root = root_over::<F, H>(hash, &leaves, log2_strict_usize(rows.height()));
    Ok(Commitment { rows, leaves, root })
}

/// The roots that two engines have for one matrix: that of its extension, twice.
pub fn roots_of_two<
    F: TwoAdicField,
    D: TwoAdicSubgroupDft<F>,
    E: TwoAdicSubgroupDft<F>,
    H: RowHash<F>,
>(
    one: &mut D,
    other: &mut E,
    hash: &H,
    mat: RowMajorMatrix<F>,
    added_bits: usize,
    shift: F,
) -> Result<(H::Digest, H::Digest), DftError>
    requires { FitsLde F.TWO_ADICITY (height mat) mat.width added_bits }
    ensures root { IfOk result (λ p. (k : ℕ) × (rows : RowMajor F)
        × IsExtension F.Valued.own F.generator mat added_bits (F.value shift) (reversed_rows k rows)
        × (H.worth p.0 ≡ tree (H.of_pair hash.now) k (λ i. H.of_row hash.now (row rows i)))) }
    ensures one { IfOk result (λ p. H.worth p.0 ≡ H.worth p.1) }
    ensures later { IsLater D.facts one.old one.new }
    ensures later_too { IsLater E.facts other.old other.new }
    ensures refused { IfErr result WasOutOfMemory }
{
    let copy = mat.try_clone()?;
    let made = merkle_root(one, hash, mat, added_bits, shift)?;
    let again = merkle_root(other, hash, copy, added_bits, shift)?;
    // Tells the prover that the rows are whole.
    let _whole = made.rows.height();
    let _whole_too = again.rows.height();
    Ok((made.root, again.root))
}
