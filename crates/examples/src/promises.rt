//! Callers that go by what an engine promises: success at a prepared height and on a coset whose table is there, and
//! bounds on the products of an engine that was just made.
//!
//! Proved: what each answers; that a call succeeds where the engine promised it, that what it prepared is promised from
//! then on, and that a new engine has made as many products as its own bound says, at most.

ghost use Rattle.std.specs.Prelude.{◌≡◌, ◌<◌, ℕ, ◌^◌, ◌≤◌, ◌+◌, IfErr, IfOk, IfSome, IsNone, IsOk, vec_len};
ghost use Rattle.p3_field.specs.Ring.{IsInvertible};
ghost use Rattle.p3_matrix.specs.BitOrder.{reversed_rows};
ghost use Rattle.p3_matrix.specs.Room.{WasOutOfMemory};
ghost use Rattle.p3_matrix.specs.RowMajor.{height};
ghost use Rattle.p3_dft.specs.Engines.{AtLog, IsCosetPrepared, IsPrepared, col};
ghost use Rattle.p3_dft.specs.Extensions.{IsExtension};
ghost use Rattle.p3_dft.specs.Shapes.{FitsDft, FitsLde};
ghost use Rattle.p3_dft.specs.Transforms.{IsInterpolation, IsTransform};

use p3_dft::{
    BitReversedMatrixView, DftError, Radix2DFTSmallBatch, Radix2Dit, Radix2DitParallel,
    RowMajorMatrix, TwoAdicField, TwoAdicSubgroupDft,
};

/// A transform of a prepared height.
pub fn transform_prepared<F: TwoAdicField>(
    engine: &mut Radix2Dit<F>,
    mat: RowMajorMatrix<F>,
    log_h: usize,
) -> Result<RowMajorMatrix<F>, DftError>
    requires fits { FitsDft F.TWO_ADICITY (height mat) mat.width }
    requires height { height mat ≡ 2 ^ log_h }
    requires prepared { IsPrepared engine.old log_h }
    ensures values { IfOk result (λ out. IsTransform F.Valued.own F.generator mat F.ring.one out) }
    ensures ok { IsOk result }
    ensures still { IsPrepared engine.new log_h }
{
    engine.dft_batch(mat)
}

/// Of a height that is prepared with a larger one.
pub fn transform_prepared_with_larger<F: TwoAdicField>(
    engine: &mut Radix2Dit<F>,
    mat: RowMajorMatrix<F>,
    log_h: usize,
    larger: usize,
) -> Result<RowMajorMatrix<F>, DftError>
    requires fits { FitsDft F.TWO_ADICITY (height mat) mat.width }
    requires height { height mat ≡ 2 ^ log_h }
    requires below { log_h ≤ larger }
    requires prepared { IsPrepared engine.old larger }
    ensures values { IfOk result (λ out. IsTransform F.Valued.own F.generator mat F.ring.one out) }
    ensures ok { IsOk result }
{
    engine.dft_batch(mat)
}

/// An inverse.
pub fn invert_prepared<F: TwoAdicField>(
    engine: &mut Radix2Dit<F>,
    mat: RowMajorMatrix<F>,
    log_h: usize,
) -> Result<RowMajorMatrix<F>, DftError>
    requires fits { FitsDft F.TWO_ADICITY (height mat) mat.width }
    requires height { height mat ≡ 2 ^ log_h }
    requires prepared { IsPrepared engine.old log_h }
    ensures coefficients { IfOk result (λ out. IsInterpolation F.Valued.own F.generator mat F.ring.one out) }
    ensures ok { IsOk result }
    ensures still { IsPrepared engine.new log_h }
{
    engine.idft_batch(mat)
}

/// An inverse on a coset.
pub fn invert_prepared_on_coset<F: TwoAdicField>(
    engine: &mut Radix2Dit<F>,
    mat: RowMajorMatrix<F>,
    log_h: usize,
    shift: F,
) -> Result<RowMajorMatrix<F>, DftError>
    requires fits { FitsDft F.TWO_ADICITY (height mat) mat.width }
    requires invertible { IsInvertible F.ring (F.value shift) }
    requires height { height mat ≡ 2 ^ log_h }
    requires prepared { IsPrepared engine.old log_h }
    ensures coefficients { IfOk result (λ out. IsInterpolation F.Valued.own F.generator mat (F.value shift) out) }
    ensures ok { IsOk result }
    ensures still { IsPrepared engine.new log_h }
{
    engine.coset_idft_batch(mat, shift)
}

/// A transform on a coset.
pub fn transform_prepared_on_coset<F: TwoAdicField>(
    engine: &mut Radix2Dit<F>,
    mat: RowMajorMatrix<F>,
    log_h: usize,
    shift: F,
) -> Result<RowMajorMatrix<F>, DftError>
    requires fits { FitsDft F.TWO_ADICITY (height mat) mat.width }
    requires height { height mat ≡ 2 ^ log_h }
    requires prepared { IsPrepared engine.old log_h }
    ensures values { IfOk result (λ out. IsTransform F.Valued.own F.generator mat (F.value shift) out) }
    ensures ok { IsOk result }
    ensures still { IsPrepared engine.new log_h }
{
    engine.coset_dft_batch(mat, shift)
}

/// A transform, if its height is prepared.
pub fn transform_if_prepared<F: TwoAdicField>(
    engine: &mut Radix2Dit<F>,
    mat: RowMajorMatrix<F>,
    log_h: usize,
) -> Option<Result<RowMajorMatrix<F>, DftError>>
    requires fits { FitsDft F.TWO_ADICITY (height mat) mat.width }
    requires height { height mat ≡ 2 ^ log_h }
    ensures values { IfSome result (λ answer. IfOk answer
        (λ out. IsTransform F.Valued.own F.generator mat F.ring.one out)) }
    ensures ok { IfSome result IsOk }
    ensures none { IsNone result → ¬ (IsPrepared engine.old log_h) }
{
    if !engine.is_prepared(log_h) {
        return None;
    }
    Some(transform_prepared(engine, mat, log_h))
}

/// `prepare`, and then a transform: `prepare` alone may be out of memory.
pub fn prepare_and_transform<F: TwoAdicField>(
    engine: &mut Radix2Dit<F>,
    mat: RowMajorMatrix<F>,
    log_h: usize,
) -> Result<Result<RowMajorMatrix<F>, DftError>, DftError>
    requires fits { FitsDft F.TWO_ADICITY (height mat) mat.width }
    requires height { height mat ≡ 2 ^ log_h }
    requires within { log_h ≤ F.TWO_ADICITY }
    requires size { 2 ^ log_h < 2 ^ 64 }
    ensures values { IfOk result (λ answer. IfOk answer
        (λ out. IsTransform F.Valued.own F.generator mat F.ring.one out)) }
    ensures ok { IfOk result IsOk }
    ensures refused { IfErr result WasOutOfMemory }
{
    engine.prepare(*mat.allocator(), log_h)?;
    Ok(transform_promised(engine, mat, log_h))
}

/// `prepare`, and then a transform by halves: `prepare` alone may be out of memory.
pub fn prepare_and_transform_by_halves<F: TwoAdicField>(
    engine: &mut Radix2DitParallel<F>,
    mat: RowMajorMatrix<F>,
    log_h: usize,
) -> Result<Result<BitReversedMatrixView<RowMajorMatrix<F>>, DftError>, DftError>
    requires fits { FitsDft F.TWO_ADICITY (height mat) mat.width }
    requires height { height mat ≡ 2 ^ log_h }
    requires within { log_h ≤ F.TWO_ADICITY }
    requires size { 2 ^ log_h < 2 ^ 64 }
    ensures values { IfOk result (λ answer. IfOk answer
        (λ out. IsTransform F.Valued.own F.generator mat F.ring.one (reversed_rows out.bits out.physical))) }
    ensures ok { IfOk result IsOk }
    ensures refused { IfErr result WasOutOfMemory }
{
    engine.prepare(*mat.allocator(), log_h)?;
    Ok(transform_promised(engine, mat, log_h))
}

/// `prepare`, and then a transform by tiles: `prepare` alone may be out of memory.
pub fn prepare_and_transform_by_tiles<F: TwoAdicField>(
    engine: &mut Radix2DFTSmallBatch<F>,
    mat: RowMajorMatrix<F>,
    log_h: usize,
) -> Result<Result<RowMajorMatrix<F>, DftError>, DftError>
    requires fits { FitsDft F.TWO_ADICITY (height mat) mat.width }
    requires height { height mat ≡ 2 ^ log_h }
    requires within { log_h ≤ F.TWO_ADICITY }
    requires size { 2 ^ log_h < 2 ^ 64 }
    ensures values { IfOk result (λ answer. IfOk answer
        (λ out. IsTransform F.Valued.own F.generator mat F.ring.one out)) }
    ensures ok { IfOk result IsOk }
    ensures refused { IfErr result WasOutOfMemory }
{
    engine.prepare(*mat.allocator(), log_h)?;
    Ok(transform_promised(engine, mat, log_h))
}

/// The transform of one column.
pub fn column_there<F: TwoAdicField>(
    engine: &mut Radix2Dit<F>,
    column: Vec<F>,
    log_h: usize,
) -> Result<Vec<F>, DftError>
    requires fits { FitsDft F.TWO_ADICITY (vec_len column) 1 }
    requires height { vec_len column ≡ 2 ^ log_h }
    requires prepared { IsPrepared engine.old log_h }
    ensures values { IfOk result (λ out. IsTransform F.Valued.own F.generator (col column) F.ring.one (col out)) }
    ensures ok { IsOk result }
{
    engine.dft(column)
}

/// The transform of one column on a coset.
pub fn column_on_coset<F: TwoAdicField>(
    engine: &mut Radix2Dit<F>,
    column: Vec<F>,
    log_h: usize,
    shift: F,
) -> Result<Vec<F>, DftError>
    requires fits { FitsDft F.TWO_ADICITY (vec_len column) 1 }
    requires height { vec_len column ≡ 2 ^ log_h }
    requires prepared { IsPrepared engine.old log_h }
    ensures values { IfOk result (λ out. IsTransform F.Valued.own F.generator (col column) (F.value shift) (col out)) }
    ensures ok { IsOk result }
{
    engine.coset_dft(column, shift)
}

/// The inverse of one column.
pub fn column_back<F: TwoAdicField>(
    engine: &mut Radix2Dit<F>,
    column: Vec<F>,
    log_h: usize,
) -> Result<Vec<F>, DftError>
    requires fits { FitsDft F.TWO_ADICITY (vec_len column) 1 }
    requires height { vec_len column ≡ 2 ^ log_h }
    requires prepared { IsPrepared engine.old log_h }
    ensures coefficients { IfOk result (λ out. IsInterpolation F.Valued.own F.generator (col column)
        F.ring.one (col out)) }
    ensures ok { IsOk result }
{
    engine.idft(column)
}

/// The inverse of one column on a coset.
pub fn column_back_from_coset<F: TwoAdicField>(
    engine: &mut Radix2Dit<F>,
    column: Vec<F>,
    log_h: usize,
    shift: F,
) -> Result<Vec<F>, DftError>
    requires fits { FitsDft F.TWO_ADICITY (vec_len column) 1 }
    requires invertible { IsInvertible F.ring (F.value shift) }
    requires height { vec_len column ≡ 2 ^ log_h }
    requires prepared { IsPrepared engine.old log_h }
    ensures coefficients { IfOk result (λ out. IsInterpolation F.Valued.own F.generator (col column)
        (F.value shift) (col out)) }
    ensures ok { IsOk result }
{
    engine.coset_idft(column, shift)
}

/// Every call of `Radix2Dit` that answers prepares its height: here one that inverts on a coset.
pub fn prepared_by_an_inverse<F: TwoAdicField>(
    engine: &mut Radix2Dit<F>,
    mat: RowMajorMatrix<F>,
    log_h: usize,
    shift: F,
) -> Result<(), DftError>
    requires fits { FitsDft F.TWO_ADICITY (height mat) mat.width }
    requires invertible { IsInvertible F.ring (F.value shift) }
    requires height { height mat ≡ 2 ^ log_h }
    ensures prepared { IfOk result (λ _. IsPrepared engine.new log_h) }
    ensures refused { IfErr result WasOutOfMemory }
{
    engine.coset_idft_batch(mat, shift)?;
    Ok(())
}

/// A transform of any engine, at a height that it promises.
pub fn transform_promised<F: TwoAdicField, D: TwoAdicSubgroupDft<F>>(
    engine: &mut D,
    mat: RowMajorMatrix<F>,
    log_h: usize,
) -> Result<D::Evaluations, DftError>
    requires fits { FitsDft F.TWO_ADICITY (height mat) mat.width }
    requires height { height mat ≡ 2 ^ log_h }
    requires promised { D.facts.Succeeds engine.old log_h }
    ensures values { IfOk result (λ out. IsTransform F.Valued.own F.generator mat F.ring.one
        (D.Evaluations.natural out)) }
    ensures ok { IsOk result }
    ensures still { D.facts.Succeeds engine.new log_h }
{
    engine.dft_batch(mat)
}

/// One on a coset that it promises at that height.
pub fn transform_on_promised_coset<F: TwoAdicField, D: TwoAdicSubgroupDft<F>>(
    engine: &mut D,
    mat: RowMajorMatrix<F>,
    log_h: usize,
    shift: F,
) -> Result<D::Evaluations, DftError>
    requires fits { FitsDft F.TWO_ADICITY (height mat) mat.width }
    requires height { height mat ≡ 2 ^ log_h }
    requires promised { D.facts.Succeeds engine.old log_h }
    requires coset { D.facts.SucceedsOnCoset engine.old log_h shift }
    ensures values { IfOk result (λ out. IsTransform F.Valued.own F.generator mat (F.value shift)
        (D.Evaluations.natural out)) }
    ensures ok { IsOk result }
    ensures still { D.facts.SucceedsOnCoset engine.new log_h shift }
{
    engine.coset_dft_batch(mat, shift)
}

/// An extension beside a coset whose table is there, which stays.
pub fn extend_beside_a_coset<F: TwoAdicField>(
    engine: &mut Radix2DitParallel<F>,
    mat: RowMajorMatrix<F>,
    added_bits: usize,
    log_h: usize,
    shift: F,
) -> Result<BitReversedMatrixView<RowMajorMatrix<F>>, DftError>
    requires fits { FitsLde F.TWO_ADICITY (height mat) mat.width added_bits }
    requires prepared { IsCosetPrepared F.Valued.own engine.old log_h (F.value shift) }
    ensures values { IfOk result (λ out. IsExtension F.Valued.own F.generator mat added_bits F.ring.one
        (reversed_rows out.bits out.physical)) }
    ensures still { IsCosetPrepared F.Valued.own engine.new log_h (F.value shift) }
    ensures refused { IfErr result WasOutOfMemory }
{
    engine.lde_batch(mat, added_bits)
}

/// A transform on a coset whose table is there.
pub fn transform_on_known_coset<F: TwoAdicField>(
    engine: &mut Radix2DitParallel<F>,
    mat: RowMajorMatrix<F>,
    log_h: usize,
    shift: F,
) -> Result<BitReversedMatrixView<RowMajorMatrix<F>>, DftError>
    requires fits { FitsDft F.TWO_ADICITY (height mat) mat.width }
    requires height { height mat ≡ 2 ^ log_h }
    requires prepared { IsCosetPrepared F.Valued.own engine.old log_h (F.value shift) }
    ensures values { IfOk result (λ out. IsTransform F.Valued.own F.generator mat (F.value shift)
        (reversed_rows out.bits out.physical)) }
    ensures ok { IsOk result }
    ensures still { IsCosetPrepared F.Valued.own engine.new log_h (F.value shift) }
{
    engine.coset_dft_batch(mat, shift)
}

/// The first transform on a coset makes its table.
pub fn transform_on_new_coset<F: TwoAdicField>(
    engine: &mut Radix2DitParallel<F>,
    mat: RowMajorMatrix<F>,
    log_h: usize,
    shift: F,
) -> Result<(), DftError>
    requires fits { FitsDft F.TWO_ADICITY (height mat) mat.width }
    requires height { height mat ≡ 2 ^ log_h }
    ensures prepared { IfOk result (λ _. IsCosetPrepared F.Valued.own engine.new log_h (F.value shift)) }
    ensures refused { IfErr result WasOutOfMemory }
{
    engine.coset_dft_batch(mat, shift)?;
    Ok(())
}

/// An engine that was just made, after one transform: its bound is the bound on its products.
pub fn transform_by_a_new_engine<F: TwoAdicField, D: TwoAdicSubgroupDft<F> + Drop>(
    mat: RowMajorMatrix<F>,
) -> Result<(D::Evaluations, D), DftError>
    requires { FitsDft F.TWO_ADICITY (height mat) mat.width }
    ensures values { IfOk result (λ made. IsTransform F.Valued.own F.generator mat F.ring.one
        (D.Evaluations.natural made.0)) }
    ensures bound { IfOk result (λ made. AtLog (height mat)
        (λ k. D.facts.products_made made.1 ≤ D.facts.transform_products k mat.width)) }
    ensures refused { IfErr result WasOutOfMemory }
{
    let mut engine = D::default();
    let values = engine.dft_batch(mat)?;
    Ok((values, engine))
}

/// An engine that was just made, after one extension of a column: its products are within its own bound.
pub fn extend_by_a_new_engine<F: TwoAdicField, D: TwoAdicSubgroupDft<F> + Drop>(
    column: Vec<F>,
    added_bits: usize,
) -> Result<(Vec<F>, D), DftError>
    requires { FitsLde F.TWO_ADICITY (vec_len column) 1 added_bits }
    ensures values { IfOk result (λ made. IsExtension F.Valued.own F.generator (col column) added_bits F.ring.one
        (col made.0)) }
    ensures bound { IfOk result (λ made. AtLog (vec_len column)
        (λ k. D.facts.products_made made.1 ≤ D.facts.extension_products k added_bits 1)) }
    ensures refused { IfErr result WasOutOfMemory }
{
    let mut engine = D::default();
    let values = engine.lde(column, added_bits)?;
    Ok((values, engine))
}
