// Extensions with a transform and with blocks, and consumers.

ghost use Rattle.std.specs.Prelude.{◌<◌, length};
ghost use Rattle.p3_matrix.specs.RowMajor.{height};
ghost use Rattle.p3_dft.specs.Shapes.{FitsLde};

use super::{Topic, are, is, matrix, over_baby_bear};
use p3_dft::{
    BitReversedMatrixView, BlockConsumer, BlockLimit, BlockRefused, BlocksStopped, CanonicalField,
    DftError, Evaluations, Field, Layout, Products, Recorder, RowMajorMatrix, RowMajorMatrixView,
    TwoAdicField, TwoAdicSubgroupDft, Unpublished, fits_lde, swap_rows,
};
use std::alloc::Global;
use std::cell::Cell;
use std::process::Abort;

// The extension of coefficients that were doubled.
fn doubled<F: TwoAdicField, D: TwoAdicSubgroupDft<F>>(
    dft: &mut D,
    mat: RowMajorMatrix<F>,
    added_bits: usize,
    shift: F,
) -> Result<D::Evaluations, DftError>
    requires { FitsLde F.TWO_ADICITY (height mat) mat.width added_bits }
{
    dft.coset_lde_batch_with_transform(mat, added_bits, shift, |mut coefficients, _layout| {
        coefficients.scale(F::TWO, &mut Products::new());
        coefficients
    })
}

// What a transform is told and sees: the layout, and the second entry.
fn told<F: TwoAdicField, D: TwoAdicSubgroupDft<F>>(
    dft: &mut D,
    mat: RowMajorMatrix<F>,
    added_bits: usize,
    shift: F,
    seen: &Cell<Option<(Layout, Option<F>)>>,
) -> Result<D::Evaluations, DftError>
    requires { FitsLde F.TWO_ADICITY (height mat) mat.width added_bits }
{
    dft.coset_lde_batch_with_transform(
        mat,
        added_bits,
        shift,
        |coefficients: RowMajorMatrix<F>, layout: Layout| {
            seen.set(Some((layout, coefficients.values().get(1).copied())));
            coefficients
        },
    )
}

// Published to a recorder, with coefficients as they are.
fn recorded<F: TwoAdicField, D: TwoAdicSubgroupDft<F>>(
    dft: &mut D,
    mat: RowMajorMatrix<F>,
    added_bits: usize,
    shift: F,
    recorder: Recorder<F>,
    size: &Cell<usize>,
) -> Option<(BitReversedMatrixView<RowMajorMatrix<F>>, Recorder<F>)>
    requires { FitsLde F.TWO_ADICITY (height mat) mat.width added_bits }
{
    let answer = dft.coset_lde_batch_with_blocks(
        mat,
        added_bits,
        shift,
        |coefficients, _layout| coefficients,
        |block_height| {
            size.set(block_height);
            recorder
        },
    );
    answer.ok()
}

// How a limited publication ends: how many blocks were taken, and whether one was refused.
fn limited<F: TwoAdicField, D: TwoAdicSubgroupDft<F>>(
    dft: &mut D,
    mat: RowMajorMatrix<F>,
    added_bits: usize,
    shift: F,
    limit: usize,
) -> Option<(usize, Option<BlockRefused>)>
    requires { FitsLde F.TWO_ADICITY (height mat) mat.width added_bits }
{
    let answer = dft.coset_lde_batch_with_blocks(
        mat,
        added_bits,
        shift,
        |coefficients, _layout| coefficients,
        |_block_height| BlockLimit::new(limit),
    );
    match answer {
        Ok((_values, consumer)) => Some((consumer.seen(), None)),
        Err(stopped) => match stopped {
            BlocksStopped::Refused { consumer, refusal } => Some((consumer.seen(), Some(refusal))),
            BlocksStopped::OutOfMemory(Unpublished { make_consumer }) => {
                let _maker = make_consumer;
                None
            }
        },
    }
}

// The parts of a stopped publication, by their types.
fn parts<M, C: Drop, R: Drop>(stopped: BlocksStopped<M, C, R>) -> Option<M> {
    match stopped {
        BlocksStopped::Refused {
            consumer: _consumer,
            refusal: _refusal,
        } => None,
        BlocksStopped::OutOfMemory(Unpublished { make_consumer }) => Some(make_consumer),
    }
}

// A consumer through its trait, and the library's by their names.
fn consume<F, C: BlockConsumer<F>>(
    consumer: &mut C,
    start: usize,
    block: RowMajorMatrixView<'_, F>,
) -> Result<(), C::Refusal> {
    consumer.consume(start, block)
}

fn with_room<F>(alloc: Global, blocks: usize, elements: usize) -> Result<Recorder<F>, DftError> {
    Recorder::with_room(alloc, blocks, elements)
}

fn counts<F>(recorder: &Recorder<F>) -> (usize, bool) {
    (recorder.blocks(), recorder.missed())
}

fn kept<F>(recorder: &Recorder<F>, i: usize) -> (usize, RowMajorMatrixView<'_, F>)
    requires { i < length recorder.now.blocks }
{
    (recorder.start(i), recorder.rows(i))
}

// A consumer of a user's own: the sum of all entries.
#[derive(Drop)]
struct Sum<F> {
    sum: F,
}

impl<F: Field> BlockConsumer<F> for Sum<F> {
    ghost use Rattle.std.specs.Prelude.{⊤};

    ghost step = { λ _ _ _ _ _. ⊤ };

    type Refusal = ();

    fn consume(
        &mut self,
        _start: usize,
        block: RowMajorMatrixView<'_, F>,
    ) -> Result<(), Self::Refusal>
        ensures { ⟦<Sum<F> as BlockConsumer<F>>⟧.step self.old _start block.entry result self.new }
    {
        for x in block.values() {
            self.sum = self.sum + *x;
        }
        Ok(())
    }
}

// A column of numbers that can be extended by a bit.
fn column<F: CanonicalField>(rt: &impl Abort, alloc: Global, numbers: &[u64]) -> RowMajorMatrix<F>
    ensures { FitsLde F.TWO_ADICITY (height result) result.width 1 }
{
    let mat: RowMajorMatrix<F> = matrix(rt, alloc, numbers, 1);
    assert!(rt; fits_lde::<F>(mat.height(), mat.width(), 1));
    mat
}

pub(crate) fn transformed_on<F: CanonicalField, D: TwoAdicSubgroupDft<F>>(
    rt: &impl Abort,
    alloc: Global,
) {
    let mut engine = D::default();
    let values = doubled(&mut engine, column(rt, alloc, &[9, 1]), 1, F::ONE);
    let values = values.expect(rt, "memory").to_row_major_matrix();
    are(rt, alloc, values.values(), &[18, 1747640588, 2, 265625353]);
    let seen = Cell::new(None);
    let cubic = column(rt, alloc, &[10, 569722814, 2013265919, 1443543103]);
    let _values = told(&mut engine, cubic, 1, F::ONE, &seen).expect(rt, "memory");
    let second = match D::LAYOUT {
        Layout::Natural => F::TWO,
        Layout::BitReversed => F::from_u8(3),
    };
    assert!(rt; seen.get() == Some((D::LAYOUT, Some(second))));
}

// Stops the test unless the blocks are the physical rows, each once.
fn is_partition<F: CanonicalField>(
    rt: &impl Abort,
    rows: &RowMajorMatrix<F>,
    recorder: &Recorder<F>,
    height: usize,
) {
    assert!(rt;
        height != 0
            && height <= 4
            && recorder.blocks() == rows.height() / height
            && !recorder.missed()
    );
    let mut seen = [false; 4];
    for i in 0..recorder.blocks() {
        let (start, block) = kept(recorder, i);
        assert!(rt; start < 4 && !seen[start] && start % height == 0);
        seen[start] = true;
        assert!(rt; start + height <= rows.height() && block.height() == height);
        assert!(rt; block == rows.view_rows(start, height));
    }
}

pub(crate) fn published_on<F: CanonicalField, D: TwoAdicSubgroupDft<F>>(
    rt: &impl Abort,
    alloc: Global,
) {
    let mut engine = D::default();
    let recorder = with_room(alloc, 4, 4).expect(rt, "memory");
    let height = Cell::new(0);
    let mat = column(rt, alloc, &[9, 1]);
    let Some((values, recorder)) = recorded(&mut engine, mat, 1, F::ONE, recorder, &height) else {
        panic!(rt; "memory");
    };
    is_partition(rt, values.inner(), &recorder, height.get());
    are(
        rt,
        alloc,
        values.inner().values(),
        &[9, 1, 873820294, 1139445637],
    );
}

#[test]
fn each_engine_transforms_coefficients(rt: HostRuntime) {
    over_baby_bear(&rt, rt.alloc(), Topic::Transformed);
}

#[test]
fn each_engine_publishes_its_rows(rt: HostRuntime) {
    over_baby_bear(&rt, rt.alloc(), Topic::Published);
}

// With no limit, and a limit of none.
pub(crate) fn limited_on<F: CanonicalField, D: TwoAdicSubgroupDft<F>>(
    rt: &impl Abort,
    alloc: Global,
) {
    let mut engine = D::default();
    let all = limited(&mut engine, column(rt, alloc, &[9, 1]), 1, F::ONE, 4);
    let Some((blocks, None)) = all else {
        panic!(rt; "a block was refused");
    };
    assert!(rt; blocks == 1 || blocks == 4);
    let less = limited(
        &mut engine,
        column(rt, alloc, &[9, 1]),
        1,
        F::ONE,
        blocks - 1,
    );
    let Some((taken, Some(BlockRefused { start }))) = less else {
        panic!(rt; "no block was refused");
    };
    assert!(rt; taken == blocks - 1 && start < 4);
}

#[test]
fn each_engine_stops_where_a_block_is_refused(rt: HostRuntime) {
    over_baby_bear(&rt, rt.alloc(), Topic::Limited);
}

#[test]
fn consumers_by_hand(rt: HostRuntime) {
    let alloc = rt.alloc();
    let mat = RowMajorMatrix::new_col(vec![in alloc; 1u8, 2].expect(&rt, "memory"));
    let mut limit = BlockLimit::new(1);
    assert!(rt; consume(&mut limit, 0, mat.as_view()) == Ok(()));
    assert!(rt; consume(&mut limit, 2, mat.as_view()) == Err(BlockRefused { start: 2 }));
    let mut recorder = with_room(alloc, 2, 3).expect(&rt, "memory");
    assert!(rt; consume(&mut recorder, 4, mat.as_view()) == Ok(()));
    assert!(rt; consume(&mut recorder, 0, mat.as_view()) == Ok(()));
    assert!(rt; counts(&recorder) == (1, true) && limit.seen() == 1);
}

// Of any field.
fn summed<F: CanonicalField>(rt: &impl Abort, alloc: Global) {
    let mut sum = Sum { sum: F::ZERO };
    let mat: RowMajorMatrix<F> = matrix(rt, alloc, &[1, 2, 3, 4], 2);
    assert!(rt; consume(&mut sum, 0, mat.as_view()) == Ok(()));
    is(rt, sum.sum, 10);
}

#[test]
fn consumers_of_ones_own(rt: HostRuntime) {
    summed::<p3_dft::BabyBear>(&rt, rt.alloc());
    let stopped: BlocksStopped<usize, u8, u8> = BlocksStopped::Refused {
        consumer: 1,
        refusal: 2,
    };
    assert!(rt; parts(stopped).is_none());
}
