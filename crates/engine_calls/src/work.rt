//! What is asked of an engine, whichever it is.

ghost use Rattle.std.specs.Prelude.{⊤};
ghost use Rattle.std.specs.List.{All};
ghost use Rattle.p3_dft.specs.Jobs.{CanRun};

use crate::algebra::answer_in_space;
use crate::answers::{Answer, Input, answer_to};
use crate::blocks::{Publication, makes_consumer_late, publish};
use crate::names::Call;
use p3_dft::{
    BasedVectorSpace, BlockConsumer, Job, JobsStopped, Layout, RowMajorMatrix, TwoAdicField,
    TwoAdicSubgroupDft, run_jobs,
};

/// Something that any engine can do.
pub trait EngineWork<F: TwoAdicField> {
    /// What comes of it.
    type Answer;

    // What has to hold of it.
    ghost fits: { Self → Type 0 };

    /// Has an engine do it.
    fn on<D: TwoAdicSubgroupDft<F>>(self, engine: &mut D) -> Self::Answer
        requires { fits self };
}

/// The answer to a call that all engines have.
#[derive(Drop)]
pub struct AnswerTo<F> {
    pub call: Call,
    pub input: Input<F>,
}

impl<F: TwoAdicField> EngineWork<F> for AnswerTo<F> {
    type Answer = Answer<F>;

    ghost fits = { λ work. ⊤ };

    fn on<D: TwoAdicSubgroupDft<F>>(self, engine: &mut D) -> Answer<F> {
        let AnswerTo { call, input } = self;
        answer_to(engine, call, input)
    }
}

/// The answer to a call over a vector space.
#[derive(Drop)]
pub struct AnswerInSpace<F, V> {
    pub call: Call,
    pub mat: RowMajorMatrix<V>,
    pub added_bits: usize,
    pub shift: F,
}

impl<F: TwoAdicField, V: BasedVectorSpace<F> + Copy> EngineWork<F> for AnswerInSpace<F, V> {
    type Answer = Answer<V>;

    ghost fits = { λ work. ⊤ };

    fn on<D: TwoAdicSubgroupDft<F>>(self, engine: &mut D) -> Answer<V> {
        let AnswerInSpace {
            call,
            mat,
            added_bits,
            shift,
        } = self;
        answer_in_space(engine, call, mat, added_bits, shift)
    }
}

/// The answers to a list of jobs.
#[derive(Drop)]
pub struct RunJobs<F> {
    pub jobs: Vec<Job<F>>,
}

impl<F: TwoAdicField> EngineWork<F> for RunJobs<F> {
    type Answer = Result<Vec<RowMajorMatrix<F>>, JobsStopped<F>>;

    ghost fits = { λ work. All (CanRun F.Valued.own F.TWO_ADICITY) work.jobs.items };

    fn on<D: TwoAdicSubgroupDft<F>>(
        self,
        engine: &mut D,
    ) -> Result<Vec<RowMajorMatrix<F>>, JobsStopped<F>> {
        let RunJobs { jobs } = self;
        run_jobs(engine, jobs)
    }
}

/// `coset_lde_batch_with_blocks`, with a consumer.
#[derive(Drop)]
pub struct Publish<F, C> {
    pub input: Input<F>,
    pub consumer: C,
}

impl<F: TwoAdicField, C: BlockConsumer<F> + Drop> EngineWork<F> for Publish<F, C>
where
    C::Refusal: Drop,
{
    type Answer = Publication<F, C, C::Refusal>;

    ghost fits = { λ work. ⊤ };

    fn on<D: TwoAdicSubgroupDft<F>>(self, engine: &mut D) -> Publication<F, C, C::Refusal> {
        let Publish { input, consumer } = self;
        publish(engine, input, consumer)
    }
}

/// Whether `coset_lde_batch_with_blocks` makes its consumer once the coefficients were transformed.
#[derive(Drop)]
pub struct MakesConsumerLate<F> {
    pub input: Input<F>,
}

impl<F: TwoAdicField> EngineWork<F> for MakesConsumerLate<F> {
    type Answer = bool;

    ghost fits = { λ work. ⊤ };

    fn on<D: TwoAdicSubgroupDft<F>>(self, engine: &mut D) -> bool {
        let MakesConsumerLate { input } = self;
        makes_consumer_late(engine, input)
    }
}

/// In which order the engine hands over coefficients.
#[derive(Clone, Copy)]
pub struct LayoutOf;

impl<F: TwoAdicField> EngineWork<F> for LayoutOf {
    type Answer = Layout;

    ghost fits = { λ work. ⊤ };

    fn on<D: TwoAdicSubgroupDft<F>>(self, _engine: &mut D) -> Layout {
        D::LAYOUT
    }
}
