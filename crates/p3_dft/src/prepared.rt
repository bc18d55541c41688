//! What a transform and an inverse by kept tables have in common.

ghost use Rattle.std.specs.Prelude.{◌≡◌, ℕ, ◌+◌, ◌*◌, ◌/◌, ◌^◌, ◌<◌, ◌≤◌, IfErr, IfOk, IsOk, Ok, OnErr, OnOk, max};
ghost use Rattle.std.specs.Mem.{type_size};
ghost use Rattle.p3_matrix.specs.Room.{IsWithin};
ghost use Rattle.p3_matrix.specs.RowMajor.{IsRowMajor, RowMajor, height};
ghost use Rattle.p3_dft.specs.Engines.{AtLog};
ghost use Rattle.p3_dft.specs.Shapes.{FitsDft};
ghost use Rattle.p3_dft.specs.Stored.{HasTwoPowerRows};

use crate::util::log_height;
use p3_field::{Products, TwoAdicField};
use p3_matrix::{DftError, IntoRowMajorMatrix, RowMajorMatrix};
use p3_networks::radix_2_dit_parallel::tables::Tables;
use p3_networks::root_tables::RootTables;
use p3_networks::twiddles::Twiddles;
use std::alloc::Global;

/// Tables for all heights up to one.
pub(crate) trait KeptTables<F: TwoAdicField>: Drop {
    // The logarithm of the largest height that they are for.
    ghost log: { Self → ℕ };

    /// Makes those for height `2^log_h`, unless they are there: then no memory is taken. Where memory is refused,
    /// what is there stays.
    fn make_for(&mut self, alloc: Global, log_h: usize) -> Result<(), DftError>
        requires within { log_h ≤ F.TWO_ADICITY }
        requires fits_u64 { log_h < 64 }
        ensures made { OnOk result (log self.new ≡ max (log self.old) log_h) }
        ensures succeeds { log_h ≤ log self.old → IsOk result }
        ensures refused { OnErr result (self.new ≡ self.old) }
        ensures room { IfErr result (IsWithin (type_size F.row) (2 ^ log_h)) };
}

impl<F: TwoAdicField> KeptTables<F> for Twiddles<F> {
    ghost log = { λ tables. tables };

    fn make_for(&mut self, alloc: Global, log_h: usize) -> Result<(), DftError> {
        self.make(alloc, log_h)
    }
}

impl<F: TwoAdicField> KeptTables<F> for Tables<F> {
    ghost log = { λ tables. tables };

    fn make_for(&mut self, alloc: Global, log_h: usize) -> Result<(), DftError> {
        self.make(alloc, log_h)
    }
}

impl<F: TwoAdicField> KeptTables<F> for RootTables<F> {
    ghost log = { λ tables. tables };

    fn make_for(&mut self, alloc: Global, log_h: usize) -> Result<(), DftError> {
        self.make(alloc, log_h)
    }
}

/// What is done, in place, with a matrix of more than one row for whose height there are tables.
pub(crate) trait MatrixWork<F: TwoAdicField, K: KeptTables<F>>: Drop {
    // What a matrix was before the work and is after it.
    ghost takes: { Self → RowMajor F → RowMajor F → Type 0 };

    // How many products an entry it makes at most besides one for each butterfly.
    ghost more: { Self → ℕ };

    fn on_matrix(
        &self,
        tables: &K,
        mat: &mut RowMajorMatrix<F>,
        log_h: usize,
        products: &mut Products,
    )
        requires rows { HasTwoPowerRows mat.old log_h }
        requires nonzero { 1 ≤ log_h }
        requires within { log_h ≤ F.TWO_ADICITY }
        requires in_table { log_h ≤ K.log tables.now }
        ensures takes { takes self.now mat.old mat.new }
        ensures grows { products.old ≤ products.new }
        ensures cost { products.new
            ≤ products.old + (mat.old.width * (log_h * 2 ^ log_h / 2) + more self.now * (2 ^ log_h * mat.old.width)) };
}

/// The work on a matrix, after its tables were made. A single row is handed back, with no product and no memory
/// taken.
pub(crate) fn on_prepared<
    F: TwoAdicField,
    K: KeptTables<F>,
    N: IntoRowMajorMatrix<F>,
    W: MatrixWork<F, K>,
>(tables: &mut K, mat: N, work: W, products: &mut Products) -> Result<RowMajorMatrix<F>, DftError>
    requires fits { FitsDft F.TWO_ADICITY (height (N.stored mat)) (N.stored mat).width }
    requires alone { IsRowMajor (N.stored mat) → height (N.stored mat) ≡ 1 → W.takes work (N.stored mat) (N.stored mat) }
    ensures answer { IfOk result (W.takes work (N.stored mat)) }
    ensures succeeds { AtLog (height (N.stored mat)) (λ k. k ≤ K.log tables.old → IsOk result) }
    ensures made { AtLog (height (N.stored mat)) (λ k. OnOk result (K.log tables.new ≡ max (K.log tables.old) k)) }
    ensures one_row { height (N.stored mat) ≡ 1
        → (result ≡ Ok (N.stored mat)) × ((tables.new ≡ tables.old) × (products.new ≡ products.old)) }
    ensures refused { OnErr result ((tables.new ≡ tables.old) × (products.new ≡ products.old)) }
    ensures keeps { K.log tables.old ≤ K.log tables.new }
    ensures grows { products.old ≤ products.new }
    ensures cost { AtLog (height (N.stored mat)) (λ k. products.new ≤ products.old
        + ((N.stored mat).width * (k * 2 ^ k / 2) + W.more work * (2 ^ k * (N.stored mat).width))) }
    ensures room { IfErr result (IsWithin (type_size F.row) (height (N.stored mat) * (N.stored mat).width)) }
{
    let mut mat = mat.into_row_major_matrix();
    if mat.height() == 1 {
        return Ok(mat);
    }
    let log_h = log_height(&mat);
    tables.make_for(*mat.allocator(), log_h)?;
    work.on_matrix(tables, &mut mat, log_h, products);
    Ok(mat)
}
