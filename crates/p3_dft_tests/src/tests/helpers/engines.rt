// The engines that tests are run on: those of the library, and one that owns only what an engine must. A test stops
// where one of them does not answer, and tells the call, the engine and the shape.

ghost use Rattle.std.specs.List.{All};
ghost use Rattle.p3_dft.specs.Jobs.{CanRun};

use super::own_engines::LimitedDft;
use engine_calls::answers::{Answer, Input};
use engine_calls::blocks::Publication;
use engine_calls::changes::Change;
use engine_calls::engines::Engine;
use engine_calls::names::{Call, EngineName, Method};
use engine_calls::work::{
    AnswerInSpace, AnswerTo, EngineWork, LayoutOf, MakesConsumerLate, Publish, RunJobs,
};
use p3_dft::{
    BasedVectorSpace, BlockConsumer, Job, JobsStopped, Layout, RowMajorMatrix, TwoAdicField,
};
use std::process::Abort;

#[derive(Clone, Copy)]
pub(crate) enum Name {
    Library(EngineName),
    Limited,
}

pub(crate) const EVERY_ENGINE: [Name; 6] = [
    Name::Library(EngineName::Naive),
    Name::Library(EngineName::Dit),
    Name::Library(EngineName::Bowers),
    Name::Library(EngineName::Parallel),
    Name::Library(EngineName::Small),
    Name::Limited,
];

impl Name {
    pub(crate) fn word(self) -> &'static str {
        match self {
            Name::Library(name) => name.word(),
            Name::Limited => "limited",
        }
    }

    // The order in which the engine is to hand over coefficients.
    pub(crate) fn layout(self) -> Layout {
        match self {
            Name::Library(name) => name.facts().layout,
            Name::Limited => Layout::BitReversed,
        }
    }

    // How many rows a block of an extension is to have: these in an engine that goes coset by coset, and all in others.
    pub(crate) fn block_height(self, block: usize, height: usize) -> usize {
        match self {
            Name::Library(name) if name.facts().method == Method::Cosets => block,
            _ => height,
        }
    }
}

// An engine of one of these kinds.
#[derive(Drop)]
pub(crate) enum Kind<F: TwoAdicField> {
    Library(Engine<F>),
    Limited(LimitedDft),
}

// One under test.
#[derive(Drop)]
pub(crate) struct TestEngine<F: TwoAdicField> {
    pub(crate) name: &'static str,
    pub(crate) kind: Kind<F>,
}

impl<F: TwoAdicField> TestEngine<F> {
    // A new engine.
    pub(crate) fn new(name: Name) -> Self {
        let kind = match name {
            Name::Library(name) => Kind::Library(Engine::new(name)),
            Name::Limited => Kind::Limited(LimitedDft::default()),
        };
        let name = name.word();
        TestEngine { name, kind }
    }

    // One of the library's, of this name.
    pub(crate) fn of(name: EngineName, engine: Engine<F>) -> Self {
        TestEngine {
            name: name.word(),
            kind: Kind::Library(engine),
        }
    }

    // What comes of a work that any engine can do.
    pub(crate) fn with<W: EngineWork<F>>(&mut self, work: W) -> W::Answer
        requires { W.fits work }
    {
        match &mut self.kind {
            Kind::Library(engine) => engine.with(work),
            Kind::Limited(engine) => work.on(engine),
        }
    }

    // The answer to a call.
    pub(crate) fn answer(&mut self, call: Call, input: Input<F>) -> Answer<F> {
        self.with(AnswerTo { call, input })
    }

    // The answer to a call over a vector space.
    pub(crate) fn answer_in_space<V: BasedVectorSpace<F> + Copy>(
        &mut self,
        call: Call,
        mat: RowMajorMatrix<V>,
        added_bits: usize,
        shift: F,
    ) -> Answer<V> {
        self.with(AnswerInSpace {
            call,
            mat,
            added_bits,
            shift,
        })
    }

    // The answers to jobs.
    pub(crate) fn run_jobs(
        &mut self,
        jobs: Vec<Job<F>>,
    ) -> Result<Vec<RowMajorMatrix<F>>, JobsStopped<F>>
        requires { All (CanRun F.Valued.own F.TWO_ADICITY) jobs.items }
    {
        self.with(RunJobs { jobs })
    }

    // An extension with blocks.
    pub(crate) fn publish<C: BlockConsumer<F> + Drop>(
        &mut self,
        input: Input<F>,
        consumer: C,
    ) -> Publication<F, C, C::Refusal>
    where
        C::Refusal: Drop,
    {
        self.with(Publish { input, consumer })
    }

    // Whether the consumer of one is made once the coefficients were transformed.
    pub(crate) fn makes_consumer_late(&mut self, input: Input<F>) -> bool {
        self.with(MakesConsumerLate { input })
    }

    // In which order the engine hands over coefficients.
    pub(crate) fn layout(&mut self) -> Layout {
        self.with(LayoutOf)
    }

    // A clone.
    pub(crate) fn copied(&self, rt: &impl Abort) -> Self {
        let kind = match &self.kind {
            Kind::Library(engine) => Kind::Library(engine.copied().expect(rt, "memory")),
            Kind::Limited(engine) => Kind::Limited(engine.clone().expect(rt, "memory")),
        };
        let name = self.name;
        TestEngine { name, kind }
    }
}

// A copy of a matrix, and what a call takes beside it.
pub(crate) fn input<F: TwoAdicField>(
    rt: &impl Abort,
    mat: &RowMajorMatrix<F>,
    added_bits: usize,
    shift: F,
) -> Input<F> {
    Input {
        mat: mat.try_clone().expect(rt, "memory"),
        added_bits,
        shift,
        change: Change::Nothing,
    }
}

// The rows that a call answers.
pub(crate) fn rows_of<F: TwoAdicField>(
    rt: &impl Abort,
    engine: &mut TestEngine<F>,
    call: Call,
    input: Input<F>,
) -> RowMajorMatrix<F> {
    let height = input.mat.height();
    let width = input.mat.width();
    let added_bits = input.added_bits;
    let (form, word) = (call.form(), call.word());
    match engine.answer(call, input) {
        Answer::Rows(rows) => rows,
        _ => panic!(rt;
            "{form} {word} on {}: no answer at {height} rows of {width}, {added_bits} added bits",
            engine.name
        ),
    }
}

// Stops the test unless a call answers these rows.
pub(crate) fn assert_rows_of<F: TwoAdicField>(
    rt: &impl Abort,
    engine: &mut TestEngine<F>,
    call: Call,
    input: Input<F>,
    expected: &RowMajorMatrix<F>,
) {
    let height = input.mat.height();
    let width = input.mat.width();
    let added_bits = input.added_bits;
    let (form, word) = (call.form(), call.word());
    let rows = rows_of(rt, engine, call, input);
    assert!(rt;
        rows == *expected,
        "{form} {word} on {}: wrong at {height} rows of {width}, {added_bits} added bits",
        engine.name
    );
}
