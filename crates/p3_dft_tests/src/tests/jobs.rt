// Lists of jobs on every engine, and what stays where memory is refused within a list.

ghost use Rattle.std.specs.Prelude.{◌≡◌};
ghost use Rattle.std.specs.List.{All};
ghost use Rattle.p3_dft.specs.Jobs.{CanRun};

use super::helpers::engines::{EVERY_ENGINE, Kind, TestEngine};
use super::helpers::fitting::{extensible, invertible, transformable};
use super::helpers::matrices::matrix;
use super::helpers::own_engines::LimitedDft;
use super::{FieldName, Topic, over};
use p3_dft::{CanonicalField, DftError, Job, JobsStopped, RowMajorMatrix};
use std::alloc::Global;
use std::process::Abort;

// How many kinds of job there are, and how many jobs a list has.
const KINDS: usize = 6;

const JOBS: usize = 20;

// A job of each kind.
fn job<F: CanonicalField>(rt: &impl Abort, alloc: Global, kind: usize) -> Job<F>
    ensures { CanRun F.Valued.own F.TWO_ADICITY result }
{
    match kind % KINDS {
        0 => Job::Dft(transformable(rt, alloc, &[1, 2, 3, 4])),
        1 => Job::CosetDft(transformable(rt, alloc, &[5, 4]), F::TWO),
        2 => Job::Idft(transformable(rt, alloc, &[9, 1])),
        3 => {
            let mat = transformable(rt, alloc, &[13, 2013265918]);
            Job::CosetIdft(mat, invertible(rt, F::TWO))
        }
        4 => Job::Lde(extensible(rt, alloc, &[9, 1], 1), 1),
        _ => Job::CosetLde(extensible(rt, alloc, &[9, 1], 1), 1, F::ZERO),
    }
}

// A copy of a job.
fn copy_of<F: CanonicalField>(rt: &impl Abort, job: &Job<F>) -> Job<F>
    ensures { result ≡ job.now }
{
    job.try_clone().expect(rt, "memory")
}

// The list with one more job.
pub(crate) fn and_then<F: CanonicalField>(
    rt: &impl Abort,
    mut jobs: Vec<Job<F>>,
    job: Job<F>,
) -> Vec<Job<F>>
    requires jobs { All (CanRun F.Valued.own F.TWO_ADICITY) jobs.items }
    requires job { CanRun F.Valued.own F.TWO_ADICITY job }
    ensures { All (CanRun F.Valued.own F.TWO_ADICITY) result.items }
{
    jobs.push(job).expect(rt, "memory");
    jobs
}

// Copies of jobs of each kind in turn, beginning with one of them.
fn list_from<F: CanonicalField>(rt: &impl Abort, alloc: Global, first: usize) -> Vec<Job<F>>
    ensures { All (CanRun F.Valued.own F.TWO_ADICITY) result.items }
{
    let mut jobs = Vec::new(alloc);
    for n in 0..JOBS {
        let job = job(rt, alloc, first.wrapping_add(n));
        jobs = and_then(rt, jobs, copy_of(rt, &job));
    }
    jobs
}

// The numbers of the answer to a job of each kind.
const ANSWERS: [&[u64]; KINDS] = [
    &[10, 569722814, 2013265919, 1443543103],
    &[13, 2013265918],
    &[5, 4],
    &[5, 4],
    &[9, 873820294, 1, 1139445637],
    &[5, 5, 5, 5],
];

// Whether these answer the first of the jobs, beginning with one kind.
fn are_answers<F: CanonicalField>(
    rt: &impl Abort,
    alloc: Global,
    first: usize,
    answers: &[RowMajorMatrix<F>],
) -> bool {
    let mut right = true;
    for (n, answer) in answers.iter().enumerate() {
        let numbers = ANSWERS[first.wrapping_add(n) % KINDS];
        right = right && *answer == matrix(rt, alloc, numbers, 1);
    }
    right
}

// How many transforms it takes: an extension is an inverse and a transform.
fn transforms(kind: usize) -> usize {
    if kind % KINDS < 4 { 1 } else { 2 }
}

// How many of the jobs, beginning with one kind, so many transforms answer.
fn count_within(first: usize, transforms_left: usize) -> usize {
    let mut left = transforms_left;
    for n in 0..JOBS {
        let taken = transforms(first.wrapping_add(n));
        if left < taken {
            return n;
        }
        left -= taken;
    }
    JOBS
}

// Jobs of each kind in turn, beginning with one of them, of which so many are answered before memory is
// refused.
fn answers_in_turn<F: CanonicalField>(
    rt: &impl Abort,
    alloc: Global,
    engine: &mut TestEngine<F>,
    first: usize,
    count: usize,
) {
    let (answers, all) = match engine.run_jobs(list_from(rt, alloc, first)) {
        Ok(answers) => (answers, true),
        Err(
            JobsStopped {
                answers,
                error: DftError::OutOfMemory,
            },
        ) => (answers, false),
    };
    assert!(rt;
        answers.len() == count && all == (count == JOBS),
        "run_jobs on {}: {} answers, not {count}",
        engine.name,
        answers.len()
    );
    assert!(rt;
        are_answers(rt, alloc, first, answers.as_slice()),
        "run_jobs on {}",
        engine.name
    );
}

// Lists that begin with each kind, refused after each number of transforms.
pub(crate) fn refused_within<F: CanonicalField>(rt: &impl Abort, alloc: Global) {
    for first in 0..KINDS {
        for transforms in 0..28usize {
            let mut engine: TestEngine<F> = TestEngine {
                name: "limited",
                kind: Kind::Limited(LimitedDft::new(transforms)),
            };
            let count = count_within(first, transforms);
            answers_in_turn(rt, alloc, &mut engine, first, count);
        }
    }
}

#[test]
fn refused_jobs_leave_the_answers_before_them(rt: HostRuntime) {
    over(&rt, rt.alloc(), FieldName::BabyBear, Topic::RefusedJobs);
}

// A job on a coset, of one column.
fn coset_job<F: CanonicalField>(rt: &impl Abort, alloc: Global, numbers: &[u64], shift: F) -> Job<F>
    ensures { CanRun F.Valued.own F.TWO_ADICITY result }
{
    Job::CosetDft(transformable(rt, alloc, numbers), shift)
}

// Cosets of two heights and three shifts, one of them twice, and the subgroup in between.
fn coset_jobs<F: CanonicalField>(rt: &impl Abort, alloc: Global) -> Vec<Job<F>>
    ensures { All (CanRun F.Valued.own F.TWO_ADICITY) result.items }
{
    let jobs = and_then(rt, Vec::new(alloc), coset_job(rt, alloc, &[5, 4], F::TWO));
    let jobs = and_then(rt, jobs, coset_job(rt, alloc, &[1, 2, 3, 4], F::ZERO));
    let jobs = and_then(rt, jobs, coset_job(rt, alloc, &[5, 4], F::from_u8(3)));
    let jobs = and_then(rt, jobs, job(rt, alloc, 0));
    and_then(rt, jobs, coset_job(rt, alloc, &[5, 4], F::TWO))
}

// The numbers of their answers.
const ON_COSETS: [&[u64]; 5] = [
    &[13, 2013265918],
    &[1, 1, 1, 1],
    &[17, 2013265914],
    &[10, 569722814, 2013265919, 1443543103],
    &[13, 2013265918],
];

fn cosets_in_turn<F: CanonicalField>(rt: &impl Abort, alloc: Global, engine: &mut TestEngine<F>) {
    let Ok(answers) = engine.run_jobs(coset_jobs(rt, alloc)) else {
        panic!(rt; "memory");
    };
    assert!(rt;
        answers.len() == ON_COSETS.len(),
        "run_jobs on {}",
        engine.name
    );
    for (answer, numbers) in answers.iter().zip(ON_COSETS) {
        assert!(rt;
            *answer == matrix(rt, alloc, numbers, 1),
            "run_jobs on {}",
            engine.name
        );
    }
}

fn no_jobs<F: CanonicalField>(rt: &impl Abort, alloc: Global, engine: &mut TestEngine<F>) {
    let Ok(answers) = engine.run_jobs(Vec::new(alloc)) else {
        panic!(rt; "memory");
    };
    assert!(rt; answers.is_empty());
}

pub(crate) fn lists<F: CanonicalField>(rt: &impl Abort, alloc: Global) {
    for name in EVERY_ENGINE {
        let mut engine: TestEngine<F> = TestEngine::new(name);
        no_jobs(rt, alloc, &mut engine);
        answers_in_turn(rt, alloc, &mut engine, 0, JOBS);
        cosets_in_turn(rt, alloc, &mut engine);
    }
}

#[test]
fn jobs_are_answered_in_order(rt: HostRuntime) {
    over(&rt, rt.alloc(), FieldName::BabyBear, Topic::Lists);
}
