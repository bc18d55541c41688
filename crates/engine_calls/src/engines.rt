//! The engines by their names, and what some of them have besides the calls of all.

ghost use Rattle.std.specs.List.{All};
ghost use Rattle.p3_dft.specs.Jobs.{CanRun};

use crate::answers::{Answer, Input};
use crate::blocks::Publication;
use crate::names::{Call, EngineName};
use crate::work::{
    AnswerInSpace, AnswerTo, EngineWork, LayoutOf, MakesConsumerLate, Publish, RunJobs,
};
use p3_dft::{
    BasedVectorSpace, BlockConsumer, DftError, Job, JobsStopped, Layout, NaiveDft, Radix2Bowers,
    Radix2DFTSmallBatch, Radix2Dit, Radix2DitParallel, RowMajorMatrix, TwoAdicField,
};
use std::alloc::{AllocError, Global};

// The tile of an engine that is made with one: of a few rows.
const TILE: usize = 4;

/// An engine, whichever it is.
#[derive(Drop)]
pub enum Engine<F: TwoAdicField> {
    Naive(NaiveDft),
    Dit(Radix2Dit<F>),
    Bowers(Radix2Bowers),
    Parallel(Radix2DitParallel<F>),
    Small(Radix2DFTSmallBatch<F>),
}

// `new` or `with_tile` for height `2^log_h`.
fn made_for<F: TwoAdicField>(call: Call, alloc: Global, log_h: usize) -> Answer<F> {
    if log_h > F::TWO_ADICITY || log_h > 63 {
        return Answer::Absent;
    }
    match call {
        Call::New => made(Radix2DFTSmallBatch::new(alloc, 1 << log_h), log_h),
        _ => made(
            Radix2DFTSmallBatch::with_tile(alloc, 1 << log_h, TILE),
            log_h,
        ),
    }
}

// That it has the tables of this height, or that memory was refused.
fn made<F: TwoAdicField>(
    engine: Result<Radix2DFTSmallBatch<F>, DftError>,
    log_h: usize,
) -> Answer<F> {
    match engine {
        Ok(engine) => Answer::Holds(engine.is_prepared(log_h)),
        Err(_) => Answer::OutOfMemory,
    }
}

impl<F: TwoAdicField> Engine<F> {
    /// A new engine.
    pub fn new(name: EngineName) -> Engine<F> {
        match name {
            EngineName::Naive => Engine::Naive(NaiveDft::default()),
            EngineName::Dit => Engine::Dit(Radix2Dit::default()),
            EngineName::Bowers => Engine::Bowers(Radix2Bowers::default()),
            EngineName::Parallel => Engine::Parallel(Radix2DitParallel::default()),
            EngineName::Small => Engine::Small(Radix2DFTSmallBatch::default()),
        }
    }

    /// What comes of a work that any engine can do.
    pub fn with<W: EngineWork<F>>(&mut self, work: W) -> W::Answer
        requires { W.fits work }
    {
        match self {
            Engine::Naive(engine) => work.on(engine),
            Engine::Dit(engine) => work.on(engine),
            Engine::Bowers(engine) => work.on(engine),
            Engine::Parallel(engine) => work.on(engine),
            Engine::Small(engine) => work.on(engine),
        }
    }

    /// A clone.
    pub fn copied(&self) -> Result<Engine<F>, AllocError> {
        Ok(match self {
            Engine::Naive(engine) => Engine::Naive(engine.clone()?),
            Engine::Dit(engine) => Engine::Dit(engine.clone()?),
            Engine::Bowers(engine) => Engine::Bowers(engine.clone()?),
            Engine::Parallel(engine) => Engine::Parallel(engine.clone()?),
            Engine::Small(engine) => Engine::Small(engine.clone()?),
        })
    }

    /// Whether the tables of height `2^log_h` are there, of an engine that has tables.
    pub fn is_prepared(&self, log_h: usize) -> bool {
        match self {
            Engine::Dit(engine) => engine.is_prepared(log_h),
            Engine::Parallel(engine) => engine.is_prepared(log_h),
            Engine::Small(engine) => engine.is_prepared(log_h),
            _ => false,
        }
    }

    /// `prepare`, of an engine that has it.
    pub fn prepare(&mut self, alloc: Global, log_h: usize) -> Option<Result<(), DftError>> {
        if log_h > F::TWO_ADICITY || log_h > 63 {
            return None;
        }
        match self {
            Engine::Dit(engine) => Some(engine.prepare(alloc, log_h)),
            Engine::Parallel(engine) => Some(engine.prepare(alloc, log_h)),
            Engine::Small(engine) => Some(engine.prepare(alloc, log_h)),
            _ => None,
        }
    }

    // `prepare`, `new` or `with_tile` for height `2^log_h`.
    fn tables_answer(&mut self, call: Call, alloc: Global, log_h: usize) -> Answer<F> {
        if call == Call::Prepare {
            return match self.prepare(alloc, log_h) {
                None => Answer::Absent,
                Some(Ok(())) => Answer::Holds(self.is_prepared(log_h)),
                Some(Err(_)) => Answer::OutOfMemory,
            };
        }
        match self {
            Engine::Small(_) => made_for(call, alloc, log_h),
            _ => Answer::Absent,
        }
    }

    /// The answer to a call.
    pub fn answer(&mut self, call: Call, input: Input<F>) -> Answer<F> {
        match call {
            Call::Prepare | Call::New | Call::WithTile => {
                let alloc = *input.mat.allocator();
                let log_h = input.mat.height().trailing_zeros() as usize;
                self.tables_answer(call, alloc, log_h)
            }
            _ => self.with(AnswerTo { call, input }),
        }
    }

    /// The answer to a call over a vector space.
    pub fn answer_in_space<V: BasedVectorSpace<F> + Copy>(
        &mut self,
        call: Call,
        mat: RowMajorMatrix<V>,
        added_bits: usize,
        shift: F,
    ) -> Answer<V> {
        self.with(AnswerInSpace {
            call,
            mat,
            added_bits,
            shift,
        })
    }

    /// The answers to a list of jobs.
    pub fn run_jobs(&mut self, jobs: Vec<Job<F>>) -> Result<Vec<RowMajorMatrix<F>>, JobsStopped<F>>
        requires { All (CanRun F.Valued.own F.TWO_ADICITY) jobs.items }
    {
        self.with(RunJobs { jobs })
    }

    /// In which order the engine hands over coefficients.
    pub fn layout(&mut self) -> Layout {
        self.with(LayoutOf)
    }

    /// `coset_lde_batch_with_blocks`, with a consumer.
    pub fn publish<C: BlockConsumer<F> + Drop>(
        &mut self,
        input: Input<F>,
        consumer: C,
    ) -> Publication<F, C, C::Refusal>
    where
        C::Refusal: Drop,
    {
        self.with(Publish { input, consumer })
    }

    /// Whether `coset_lde_batch_with_blocks` makes its consumer once the coefficients were transformed.
    pub fn makes_consumer_late(&mut self, input: Input<F>) -> bool {
        self.with(MakesConsumerLate { input })
    }
}
