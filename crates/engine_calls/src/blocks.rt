//! The extensions with a transform or a consumer of blocks.

ghost use Rattle.std.specs.Prelude.{◌≡◌};
ghost use Rattle.p3_matrix.specs.RowMajor.{HasShapeOf, height};
ghost use Rattle.p3_dft.specs.Shapes.{FitsLde};

use crate::answers::{Answer, Input, rows};
use crate::changes::Change;
use crate::names::Call;
use p3_dft::{
    BlockConsumer, BlockLimit, BlocksStopped, Evaluations, Layout, RowMajorMatrix,
    RowMajorMatrixView, TwoAdicField, TwoAdicSubgroupDft, Unpublished, fits_lde,
};
use std::cell::Cell;
use std::convert::Infallible;

fn with_transform<F: TwoAdicField, D: TwoAdicSubgroupDft<F>>(
    engine: &mut D,
    mat: RowMajorMatrix<F>,
    added_bits: usize,
    shift: F,
    change: Change,
) -> Answer<F>
    requires { FitsLde F.TWO_ADICITY (height mat) mat.width added_bits }
{
    rows(engine.coset_lde_batch_with_transform(
        mat,
        added_bits,
        shift,
        |coefficients: RowMajorMatrix<F>, layout: Layout| -> RowMajorMatrix<F>
            ensures { HasShapeOf result coefficients }
        { change.of(coefficients, layout) },
    ))
}

fn by_parts<F: TwoAdicField, D: TwoAdicSubgroupDft<F>>(
    engine: &mut D,
    mat: RowMajorMatrix<F>,
    added_bits: usize,
    shift: F,
    change: Change,
) -> Answer<F>
    requires { FitsLde F.TWO_ADICITY (height mat) mat.width added_bits }
{
    rows(engine.coset_lde_batch_by_parts(
        mat,
        added_bits,
        shift,
        |coefficients: RowMajorMatrix<F>, layout: Layout| -> RowMajorMatrix<F>
            ensures { HasShapeOf result coefficients }
        { change.of(coefficients, layout) },
    ))
}

fn bit_reversed<F: TwoAdicField, D: TwoAdicSubgroupDft<F>>(
    engine: &mut D,
    mat: RowMajorMatrix<F>,
    added_bits: usize,
    shift: F,
    change: Change,
) -> Answer<F>
    requires { FitsLde F.TWO_ADICITY (height mat) mat.width added_bits }
{
    rows(engine.coset_lde_batch_bit_reversed(
        mat,
        added_bits,
        shift,
        |coefficients: RowMajorMatrix<F>, layout: Layout| -> RowMajorMatrix<F>
            ensures { HasShapeOf result coefficients }
        { change.of(coefficients, layout) },
    ))
}

/// How an extension with blocks ended.
#[derive(Drop)]
pub enum Publication<F, C, R> {
    /// The physical rows, and the consumer that took all blocks.
    Whole {
        rows: RowMajorMatrix<F>,
        consumer: C,
    },
    /// The consumer refused a block.
    Refused {
        consumer: C,
        refusal: R,
    },
    /// Memory was refused, and the consumer was not made.
    OutOfMemory(C),
    /// The shape does not fit.
    Absent,
}

/// `coset_lde_batch_with_blocks`, with a consumer.
pub fn publish<F: TwoAdicField, D: TwoAdicSubgroupDft<F>, C: BlockConsumer<F> + Drop>(
    engine: &mut D,
    input: Input<F>,
    consumer: C,
) -> Publication<F, C, C::Refusal>
where
    C::Refusal: Drop,
{
    let Input {
        mat,
        added_bits,
        shift,
        change,
    } = input;
    if !fits_lde::<F>(mat.height(), mat.width(), added_bits) {
        return Publication::Absent;
    }
    let answer = engine.coset_lde_batch_with_blocks(
        mat,
        added_bits,
        shift,
        |coefficients: RowMajorMatrix<F>, layout: Layout| -> RowMajorMatrix<F>
            ensures { HasShapeOf result coefficients }
        { change.of(coefficients, layout) },
        |_rows: usize| -> C
            ensures { result ≡ consumer }
        { consumer },
    );
    match answer {
        Ok((values, consumer)) => Publication::Whole {
            rows: values.bit_reverse_rows(),
            consumer,
        },
        Err(stopped) => match stopped {
            BlocksStopped::Refused { consumer, refusal } => {
                Publication::Refused { consumer, refusal }
            }
            BlocksStopped::OutOfMemory(Unpublished { make_consumer }) => {
                Publication::OutOfMemory(make_consumer(1))
            }
        },
    }
}

/// Whether that call makes its consumer once the coefficients were transformed.
pub fn makes_consumer_late<F: TwoAdicField, D: TwoAdicSubgroupDft<F>>(
    engine: &mut D,
    input: Input<F>,
) -> bool {
    let Input {
        mat,
        added_bits,
        shift,
        change: _change,
    } = input;
    if !fits_lde::<F>(mat.height(), mat.width(), added_bits) {
        return false;
    }
    let transformed = Cell::new(false);
    let late = Cell::new(false);
    let answer = engine.coset_lde_batch_with_blocks(
        mat,
        added_bits,
        shift,
        |coefficients: RowMajorMatrix<F>, _layout: Layout| -> RowMajorMatrix<F>
            ensures { HasShapeOf result coefficients }
        {
            transformed.set(true);
            coefficients
        },
        |_rows: usize| -> BlockLimit {
            late.set(transformed.get());
            BlockLimit::new(usize::MAX)
        },
    );
    answer.is_ok() && late.get()
}

/// Counts blocks in what is lent to it.
#[derive(Drop)]
pub struct Counter<'a> {
    pub blocks: &'a Cell<usize>,
}

impl<'a, F> BlockConsumer<F> for Counter<'a> {
    ghost use Rattle.std.specs.Prelude.{◌≡◌, Ok};

    type Refusal = Infallible;

    ghost step = { λ c start block answer e. answer ≡ Ok tt };

    fn consume(&mut self, start: usize, block: RowMajorMatrixView<'_, F>) -> Result<(), Infallible>
        ensures { ⟦<Counter<'a> as BlockConsumer<F>>⟧.step self.old start block.entry result self.new }
    {
        let _ = start;
        let _ = block;
        self.blocks.set(self.blocks.get().saturating_add(1));
        Ok(())
    }
}

fn with_blocks<F: TwoAdicField, D: TwoAdicSubgroupDft<F>>(
    engine: &mut D,
    mat: RowMajorMatrix<F>,
    added_bits: usize,
    shift: F,
    change: Change,
    blocks: &Cell<usize>,
) -> Answer<F>
    requires { FitsLde F.TWO_ADICITY (height mat) mat.width added_bits }
{
    let answer = engine.coset_lde_batch_with_blocks(
        mat,
        added_bits,
        shift,
        |coefficients: RowMajorMatrix<F>, layout: Layout| -> RowMajorMatrix<F>
            ensures { HasShapeOf result coefficients }
        { change.of(coefficients, layout) },
        |_rows: usize| -> Counter<'_> { Counter { blocks } },
    );
    match answer {
        Ok((values, _counter)) => Answer::Rows(values.to_row_major_matrix()),
        Err(_) => Answer::OutOfMemory,
    }
}

fn in_blocks<F: TwoAdicField, D: TwoAdicSubgroupDft<F>>(
    engine: &mut D,
    mat: RowMajorMatrix<F>,
    added_bits: usize,
    shift: F,
    blocks: &Cell<usize>,
) -> Answer<F>
    requires { FitsLde F.TWO_ADICITY (height mat) mat.width added_bits }
{
    let answer = engine.coset_lde_batch_in_blocks(
        mat,
        added_bits,
        shift,
        |_rows| Counter { blocks },
    );
    match answer {
        Ok((values, _counter)) => Answer::Rows(values.to_row_major_matrix()),
        Err(_) => Answer::OutOfMemory,
    }
}

// An answer whose blocks were counted.
fn unless_wrong_blocks<F: TwoAdicField>(answer: Answer<F>, blocks: usize) -> Answer<F> {
    let refused = match &answer {
        Answer::OutOfMemory => true,
        _ => false,
    };
    if refused == (blocks == 0) {
        answer
    } else {
        Answer::WrongBlocks
    }
}

/// An extension on a coset by one of these calls.
pub fn extension_answer<F: TwoAdicField, D: TwoAdicSubgroupDft<F>>(
    engine: &mut D,
    call: Call,
    input: Input<F>,
) -> Answer<F> {
    let Input {
        mat,
        added_bits,
        shift,
        change,
    } = input;
    if !fits_lde::<F>(mat.height(), mat.width(), added_bits) {
        return Answer::Absent;
    }
    let blocks = Cell::new(0);
    match call {
        Call::WithTransform => with_transform(engine, mat, added_bits, shift, change),
        Call::ByParts => by_parts(engine, mat, added_bits, shift, change),
        Call::BitReversed => bit_reversed(engine, mat, added_bits, shift, change),
        Call::WithBlocks => {
            let answer = with_blocks(engine, mat, added_bits, shift, change, &blocks);
            unless_wrong_blocks(answer, blocks.get())
        }
        Call::InBlocks => {
            let answer = in_blocks(engine, mat, added_bits, shift, &blocks);
            unless_wrong_blocks(answer, blocks.get())
        }
        _ => Answer::Absent,
    }
}
