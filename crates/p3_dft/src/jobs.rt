//! Lists of transforms, answered one after another by one engine.

ghost use Rattle.std.specs.Prelude.{◌≡◌, ℕ, ◌+◌, ◌≤◌, ◌⊎◌, [], length, get_or, take, IfOk, IfErr, IsOk, OnOk, OnErr};
ghost use Rattle.std.specs.List.{All, AllZip};
ghost use Rattle.std.specs.Mem.{type_size};
ghost use Rattle.p3_dft.specs.Engines.{IsLater};
ghost use Rattle.p3_dft.specs.Jobs.{AreFirstAnswers, CanRun, HasMade, IsAnswer, IsPreparedFor, IsRun};
ghost use Rattle.p3_dft.specs.Jobs.{NextIsNotPromised, RanOut, entries_of, matrix_bytes};
ghost use Rattle.p3_matrix.specs.Room.{IsWithin};

use crate::traits::TwoAdicSubgroupDft;
use p3_field::TwoAdicField;
use p3_matrix::{DftError, Evaluations, RowMajorMatrix};

/// One transform, with what it is applied to. Each asks for what the call of that name asks for.
#[derive(Debug, Drop)]
pub enum Job<F> {
    /// `dft_batch`.
    Dft(RowMajorMatrix<F>),
    /// `coset_dft_batch`, with the shift.
    CosetDft(RowMajorMatrix<F>, F),
    /// `idft_batch`.
    Idft(RowMajorMatrix<F>),
    /// `coset_idft_batch`, with the shift.
    CosetIdft(RowMajorMatrix<F>, F),
    /// `lde_batch`, with the added bits.
    Lde(RowMajorMatrix<F>, usize),
    /// `coset_lde_batch`, with the added bits and the shift.
    CosetLde(RowMajorMatrix<F>, usize, F),
}

impl<F: Copy> Job<F> {
    /// A copy of the job, with entries in memory of its own. Where memory is refused, there is nothing but
    /// the error.
    pub fn try_clone(&self) -> Result<Self, DftError>
        ensures copy { IfOk result (λ job. job ≡ self.now) }
        ensures room { IfErr result (IsWithin (type_size F.row) (entries_of self.now)) }
    {
        Ok(match self {
            Job::Dft(mat) => Job::Dft(mat.try_clone()?),
            Job::CosetDft(mat, shift) => Job::CosetDft(mat.try_clone()?, *shift),
            Job::Idft(mat) => Job::Idft(mat.try_clone()?),
            Job::CosetIdft(mat, shift) => Job::CosetIdft(mat.try_clone()?, *shift),
            Job::Lde(mat, added_bits) => Job::Lde(mat.try_clone()?, *added_bits),
            Job::CosetLde(mat, added_bits, shift) => {
                Job::CosetLde(mat.try_clone()?, *added_bits, *shift)
            }
        })
    }
}

/// Jobs that stopped before the last was answered.
#[derive(Debug, Drop)]
pub struct JobsStopped<F> {
    /// Answers of the first jobs, in the order of the jobs.
    pub answers: Vec<RowMajorMatrix<F>>,
    /// Why there are no more.
    pub error: DftError,
}

impl<F: Drop> From<JobsStopped<F>> for DftError {
    ghost use Rattle.std.specs.Prelude.{◌≡◌};

    ghost from_gives = { λ stopped e. e ≡ stopped.error };

    fn from(stopped: JobsStopped<F>) -> DftError {
        let JobsStopped {
            answers: _answers,
            error,
        } = stopped;
        error
    }
}

/// Answers the jobs, each with rows in natural order, in the order of the jobs. Where memory is
/// refused, the answers of the jobs before come back with the error, and the other jobs are dropped.
///
/// Memory for the list of answers is taken first. Where that is refused there are no answers and the
/// engine is as before; else the first job without an answer is one that the engine was not promised
/// to answer. The engine serves the heights of all jobs that have an answer, as after the calls
/// themselves. The products are at most the sum of what the calls of these jobs, and of the first job
/// without an answer, may make.
pub fn run_jobs<F: TwoAdicField, D: TwoAdicSubgroupDft<F>>(
    engine: &mut D,
    jobs: Vec<Job<F>>,
) -> Result<Vec<RowMajorMatrix<F>>, JobsStopped<F>>
    requires runnable { All (CanRun F.Valued.own F.TWO_ADICITY) jobs.items }
    ensures all { IfOk result (λ answers. AllZip (IsAnswer F.Valued.own F.generator) jobs.items answers.items) }
    ensures prepares { OnOk result (All (IsPreparedFor D.facts engine.new) jobs.items) }
    ensures cost { HasMade D.facts engine.old engine.new jobs.items }
    ensures first { IfErr result (λ stopped. AreFirstAnswers F.Valued.own F.generator jobs.items stopped.answers.items) }
    ensures prepares_first { IfErr result (λ stopped. All (IsPreparedFor D.facts engine.new)
        (take (length stopped.answers.items) jobs.items)) }
    ensures cost_of_first { IfErr result (λ stopped. HasMade D.facts engine.old engine.new
        (take (length stopped.answers.items + 1) jobs.items)) }
    ensures refused { IfErr result (λ stopped. ((engine.new ≡ engine.old) × (stopped.answers.items ≡ []))
        ⊎ NextIsNotPromised D.facts engine.old jobs.items stopped.answers.items) }
    ensures later { IsLater D.facts engine.old engine.new }
    ensures room { IfErr result (λ stopped. RanOut D.facts (type_size F.row) (matrix_bytes F.row) engine.new jobs.items
        stopped.answers.items stopped.error) }
{
    let mut answers = Vec::new(*jobs.allocator());
    match answer_jobs(engine, jobs, &mut answers) {
        Ok(()) => Ok(answers),
        Err(error) => Err(JobsStopped { answers, error }),
    }
}

// Appends the answers to an empty list.
fn answer_jobs<F: TwoAdicField, D: TwoAdicSubgroupDft<F>>(
    engine: &mut D,
    jobs: Vec<Job<F>>,
    answers: &mut Vec<RowMajorMatrix<F>>,
) -> Result<(), DftError>
    requires runnable { All (CanRun F.Valued.own F.TWO_ADICITY) jobs.items }
    requires empty { answers.old.items ≡ [] }
    ensures all { OnOk result (AllZip (IsAnswer F.Valued.own F.generator) jobs.items answers.new.items) }
    ensures prepares { OnOk result (All (IsPreparedFor D.facts engine.new) jobs.items) }
    ensures cost { HasMade D.facts engine.old engine.new jobs.items }
    ensures first { OnErr result (AreFirstAnswers F.Valued.own F.generator jobs.items answers.new.items) }
    ensures prepares_first { OnErr result (All (IsPreparedFor D.facts engine.new)
        (take (length answers.new.items) jobs.items)) }
    ensures cost_of_first { OnErr result (HasMade D.facts engine.old engine.new
        (take (length answers.new.items + 1) jobs.items)) }
    ensures refused { OnErr result (((engine.new ≡ engine.old) × (answers.new.items ≡ []))
        ⊎ NextIsNotPromised D.facts engine.old jobs.items answers.new.items) }
    ensures later { IsLater D.facts engine.old engine.new }
    ensures room { IfErr result
        (RanOut D.facts (type_size F.row) (matrix_bytes F.row) engine.new jobs.items answers.new.items) }
{
    growth::reserve_exact(answers, jobs.len())?;
    for job in jobs {
        let answer = run_job(engine, job)?;
        growth::push(answers, answer)?;
    }
    Ok(())
}

// Answers one job.
fn run_job<F: TwoAdicField, D: TwoAdicSubgroupDft<F>>(
    engine: &mut D,
    job: Job<F>,
) -> Result<RowMajorMatrix<F>, DftError>
    requires runnable { CanRun F.Valued.own F.TWO_ADICITY job }
    ensures { IsRun D.facts (type_size F.row) F.Valued.own F.generator job (λ out. out) engine.old engine.new result }
{
    let values = match job {
        Job::Idft(mat) => return engine.idft_batch(mat),
        Job::CosetIdft(mat, shift) => return engine.coset_idft_batch(mat, shift),
        Job::Dft(mat) => engine.dft_batch(mat)?,
        Job::CosetDft(mat, shift) => engine.coset_dft_batch(mat, shift)?,
        Job::Lde(mat, added_bits) => engine.lde_batch(mat, added_bits)?,
        Job::CosetLde(mat, added_bits, shift) => engine.coset_lde_batch(mat, added_bits, shift)?,
    };
    Ok(values.to_row_major_matrix())
}
