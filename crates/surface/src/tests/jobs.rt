// Lists of jobs.

ghost use Rattle.std.specs.List.{All};
ghost use Rattle.p3_field.specs.Ring.{IsInvertible};
ghost use Rattle.p3_matrix.specs.RowMajor.{height};
ghost use Rattle.p3_dft.specs.Jobs.{CanRun};
ghost use Rattle.p3_dft.specs.Shapes.{FitsDft, FitsLde};

use super::{Topic, are, matrix, over_baby_bear};
use p3_dft::{
    CanonicalField, DftError, Job, JobsStopped, RowMajorMatrix, TwoAdicField, TwoAdicSubgroupDft,
    fits_dft, fits_lde, run_jobs,
};
use std::alloc::Global;
use std::process::Abort;

fn run<F: TwoAdicField, D: TwoAdicSubgroupDft<F>>(
    engine: &mut D,
    jobs: Vec<Job<F>>,
) -> Result<Vec<RowMajorMatrix<F>>, JobsStopped<F>>
    requires { All (CanRun F.Valued.own F.TWO_ADICITY) jobs.items }
{
    run_jobs(engine, jobs)
}

// What is left of a list that stopped.
fn answers_before<F>(stopped: JobsStopped<F>) -> (Vec<RowMajorMatrix<F>>, DftError) {
    let JobsStopped { answers, error } = stopped;
    (answers, error)
}

// Two numbers, which can be transformed and extended by a bit.
fn two<F: CanonicalField>(rt: &impl Abort, alloc: Global, numbers: &[u64]) -> RowMajorMatrix<F>
    ensures transform { FitsDft F.TWO_ADICITY (height result) result.width }
    ensures extension { FitsLde F.TWO_ADICITY (height result) result.width 1 }
{
    let mat: RowMajorMatrix<F> = matrix(rt, alloc, numbers, 1);
    assert!(rt; fits_dft::<F>(mat.height(), mat.width()));
    assert!(rt; fits_lde::<F>(mat.height(), mat.width(), 1));
    mat
}

// A job of each kind.
fn job<F: CanonicalField>(rt: &impl Abort, alloc: Global, kind: usize) -> Job<F>
    ensures { CanRun F.Valued.own F.TWO_ADICITY result }
{
    match kind {
        0 => Job::Dft(two(rt, alloc, &[5, 4])),
        1 => Job::CosetDft(two(rt, alloc, &[5, 4]), F::TWO),
        2 => Job::Idft(two(rt, alloc, &[9, 1])),
        3 => {
            assert!(rt; F::TWO.try_inverse().is_some());
            Job::CosetIdft(two(rt, alloc, &[13, 2013265918]), F::TWO)
        }
        4 => Job::Lde(two(rt, alloc, &[9, 1]), 1),
        _ => Job::CosetLde(two(rt, alloc, &[9, 1]), 1, F::ZERO),
    }
}

const ANSWERS: [&[u64]; 6] = [
    &[9, 1],
    &[13, 2013265918],
    &[5, 4],
    &[5, 4],
    &[9, 873820294, 1, 1139445637],
    &[5, 5, 5, 5],
];

// The list with one more job.
fn and_then<F: CanonicalField>(rt: &impl Abort, mut jobs: Vec<Job<F>>, job: Job<F>) -> Vec<Job<F>>
    requires jobs { All (CanRun F.Valued.own F.TWO_ADICITY) jobs.items }
    requires job { CanRun F.Valued.own F.TWO_ADICITY job }
    ensures { All (CanRun F.Valued.own F.TWO_ADICITY) result.items }
{
    jobs.push(job).expect(rt, "memory");
    jobs
}

fn one_of_each<F: CanonicalField>(rt: &impl Abort, alloc: Global) -> Vec<Job<F>>
    ensures { All (CanRun F.Valued.own F.TWO_ADICITY) result.items }
{
    let jobs = and_then(rt, Vec::new(alloc), job(rt, alloc, 0));
    let jobs = and_then(rt, jobs, job(rt, alloc, 1));
    let jobs = and_then(rt, jobs, job(rt, alloc, 2));
    let jobs = and_then(rt, jobs, job(rt, alloc, 3));
    let jobs = and_then(rt, jobs, job(rt, alloc, 4));
    and_then(rt, jobs, job(rt, alloc, 5))
}

// The answers, of a list that stopped too.
fn answers<F: CanonicalField, D: TwoAdicSubgroupDft<F>>(
    engine: &mut D,
    jobs: Vec<Job<F>>,
) -> Vec<RowMajorMatrix<F>>
    requires { All (CanRun F.Valued.own F.TWO_ADICITY) jobs.items }
{
    match run(engine, jobs) {
        Ok(answers) => answers,
        Err(stopped) => {
            let (answers, _error) = answers_before(stopped);
            answers
        }
    }
}

// A job of each kind, and none.
pub(crate) fn answered_on<F: CanonicalField, D: TwoAdicSubgroupDft<F>>(
    rt: &impl Abort,
    alloc: Global,
) {
    let mut engine = D::default();
    let found = answers(&mut engine, one_of_each::<F>(rt, alloc));
    assert!(rt; found.len() == ANSWERS.len());
    for (answer, numbers) in found.iter().zip(&ANSWERS) {
        are(rt, alloc, answer.values(), numbers);
    }
    assert!(rt; answers::<F, D>(&mut engine, Vec::new(alloc)).is_empty());
}

#[test]
fn each_engine_answers_jobs(rt: HostRuntime) {
    over_baby_bear(&rt, rt.alloc(), Topic::Jobs);
}
