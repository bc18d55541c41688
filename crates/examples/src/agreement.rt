//! Two engines that answer one question, for every field and any two engines.
//!
//! Proved: they answer the same, whatever either was asked before.

ghost use Rattle.std.specs.Prelude.{◌≡◌, ◌↔◌, IfErr, IfOk, IsTrue};
ghost use Rattle.std.specs.List.{All, AllZip};
ghost use Rattle.p3_field.specs.Ring.{IsInvertible};
ghost use Rattle.p3_matrix.specs.Cosets.{values_of};
ghost use Rattle.p3_matrix.specs.Matrix.{Same};
ghost use Rattle.p3_matrix.specs.Room.{WasOutOfMemory};
ghost use Rattle.p3_matrix.specs.RowMajor.{height};
ghost use Rattle.p3_dft.specs.Engines.{IsLater};
ghost use Rattle.p3_dft.specs.Extensions.{IsExtension};
ghost use Rattle.p3_dft.specs.Jobs.{CanRun, IsAnswer};
ghost use Rattle.p3_dft.specs.Shapes.{FitsDft, FitsLde};
ghost use Rattle.p3_dft.specs.Transforms.{IsInterpolation, IsTransform};

use p3_dft::{
    DftError, Evaluations, Job, JobsStopped, RowMajorMatrix, TwoAdicField, TwoAdicSubgroupDft,
    run_jobs,
};

/// The transforms of two engines.
pub fn two_transforms<F: TwoAdicField, D: TwoAdicSubgroupDft<F>, E: TwoAdicSubgroupDft<F>>(
    one: &mut D,
    other: &mut E,
    mat: RowMajorMatrix<F>,
    shift: F,
) -> Result<(RowMajorMatrix<F>, RowMajorMatrix<F>), DftError>
    requires { FitsDft F.TWO_ADICITY (height mat) mat.width }
    ensures values { IfOk result (λ out. IsTransform F.Valued.own F.generator mat (F.value shift) out.0) }
    ensures same { IfOk result (λ out. Same (values_of F.Valued.own out.0) (values_of F.Valued.own out.1)) }
    ensures later { IsLater D.facts one.old one.new }
    ensures other_later { IsLater E.facts other.old other.new }
    ensures refused { IfErr result WasOutOfMemory }
{
    let first = one
        .coset_dft_batch(mat.try_clone()?, shift)?
        .to_row_major_matrix();
    let second = other.coset_dft_batch(mat, shift)?.to_row_major_matrix();
    Ok((first, second))
}

/// The inverses of two engines.
pub fn two_inverses<F: TwoAdicField, D: TwoAdicSubgroupDft<F>, E: TwoAdicSubgroupDft<F>>(
    one: &mut D,
    other: &mut E,
    mat: RowMajorMatrix<F>,
    shift: F,
) -> Result<(RowMajorMatrix<F>, RowMajorMatrix<F>), DftError>
    requires fits { FitsDft F.TWO_ADICITY (height mat) mat.width }
    requires invertible { IsInvertible F.ring (F.value shift) }
    ensures coefficients { IfOk result (λ out. IsInterpolation F.Valued.own F.generator mat (F.value shift) out.0) }
    ensures same { IfOk result (λ out. Same (values_of F.Valued.own out.0) (values_of F.Valued.own out.1)) }
    ensures later { IsLater D.facts one.old one.new }
    ensures other_later { IsLater E.facts other.old other.new }
    ensures refused { IfErr result WasOutOfMemory }
{
    let first = one.coset_idft_batch(mat.try_clone()?, shift)?;
    let second = other.coset_idft_batch(mat, shift)?;
    Ok((first, second))
}

/// The extensions of two engines.
pub fn two_extensions<F: TwoAdicField, D: TwoAdicSubgroupDft<F>, E: TwoAdicSubgroupDft<F>>(
    one: &mut D,
    other: &mut E,
    mat: RowMajorMatrix<F>,
    added_bits: usize,
    shift: F,
) -> Result<(D::Evaluations, E::Evaluations), DftError>
    requires { FitsLde F.TWO_ADICITY (height mat) mat.width added_bits }
    ensures values { IfOk result (λ out. IsExtension F.Valued.own F.generator mat added_bits (F.value shift)
        (D.Evaluations.natural out.0)) }
    ensures same { IfOk result (λ out.
        Same (values_of F.Valued.own (D.Evaluations.natural out.0))
        (values_of F.Valued.own (E.Evaluations.natural out.1))) }
    ensures later { IsLater D.facts one.old one.new }
    ensures other_later { IsLater E.facts other.old other.new }
    ensures refused { IfErr result WasOutOfMemory }
{
    let first = one.coset_lde_batch(mat.try_clone()?, added_bits, shift)?;
    let second = other.coset_lde_batch(mat, added_bits, shift)?;
    Ok((first, second))
}

/// The answers of two engines to one list of jobs.
pub fn two_lists_of_answers<F: TwoAdicField, D: TwoAdicSubgroupDft<F>, E: TwoAdicSubgroupDft<F>>(
    one: &mut D,
    other: &mut E,
    jobs: Vec<Job<F>>,
    again: Vec<Job<F>>,
) -> Result<(Vec<RowMajorMatrix<F>>, Vec<RowMajorMatrix<F>>), JobsStopped<F>>
    requires runnable { All (CanRun F.Valued.own F.TWO_ADICITY) jobs.items }
    requires again { again.items ≡ jobs.items }
    ensures answers { IfOk result (λ out. AllZip (IsAnswer F.Valued.own F.generator) jobs.items out.0.items) }
    ensures same { IfOk result (λ out. AllZip
        (λ a b. Same (values_of F.Valued.own a) (values_of F.Valued.own b)) out.0.items out.1.items) }
    ensures later { IsLater D.facts one.old one.new }
    ensures other_later { IsLater E.facts other.old other.new }
    ensures refused { IfErr result (λ stopped. WasOutOfMemory stopped.error) }
{
    let first = run_jobs(one, jobs)?;
    let second = run_jobs(other, again)?;
    Ok((first, second))
}

/// Whether two answers of one job are equal, whatever gave them: it is always true.
pub fn answers_are_equal<F: TwoAdicField>(
    _job: &Job<F>,
    one: RowMajorMatrix<F>,
    other: RowMajorMatrix<F>,
) -> bool
    requires runnable { CanRun F.Valued.own F.TWO_ADICITY _job.now }
    requires one { IsAnswer F.Valued.own F.generator _job.now one }
    requires other { IsAnswer F.Valued.own F.generator _job.now other }
    ensures { IsTrue result }
{
    one == other
}

/// Whether two matrices have equal values, which `==` tells.
pub fn told_equal<F: TwoAdicField>(one: &RowMajorMatrix<F>, other: &RowMajorMatrix<F>) -> bool
    ensures { IsTrue result ↔ Same (values_of F.Valued.own one.now) (values_of F.Valued.own other.now) }
{
    // Tells the prover that the rows are whole.
    let _whole = one.width();
    let _other_whole = other.width();
    one == other
}

/// The transform of a matrix, which is that of every matrix with equal values.
pub fn transform_for<F: TwoAdicField, D: TwoAdicSubgroupDft<F>>(
    engine: &mut D,
    mat: RowMajorMatrix<F>,
    like: &RowMajorMatrix<F>,
    shift: F,
) -> Result<D::Evaluations, DftError>
    requires fits { FitsDft F.TWO_ADICITY (height mat) mat.width }
    requires equal { Same (values_of F.Valued.own mat) (values_of F.Valued.own like.now) }
    ensures values { IfOk result (λ out. IsTransform F.Valued.own F.generator like.now (F.value shift)
        (D.Evaluations.natural out)) }
    ensures later { IsLater D.facts engine.old engine.new }
    ensures refused { IfErr result WasOutOfMemory }
{
    engine.coset_dft_batch(mat, shift)
}
