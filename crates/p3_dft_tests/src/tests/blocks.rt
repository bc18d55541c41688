// Extensions whose blocks are published: what is lent to whom, and what is left where a consumer or
// memory stops the call.

ghost use Rattle.std.specs.Prelude.{◌≡◌, ◌<◌, Ok, length, ⊤};

use super::helpers::engines::{
    EVERY_ENGINE, Kind, Name, TestEngine, assert_rows_of, input, rows_of,
};
use super::helpers::matrices::{counting, matrix, matrix_of, sample, with_zeros};
use super::helpers::own_engines::LimitedDft;
use super::{FieldName, Topic, over};
use engine_calls::answers::Input;
use engine_calls::blocks::{Counter, Publication};
use engine_calls::changes::Change;
use engine_calls::names::{Call, EngineName, Operation};
use engine_calls::work::EngineWork;
use p3_dft::{
    BlockConsumer, BlockLimit, BlockRefused, BlocksStopped, CanonicalField, Field, Layout,
    Recorder, RowMajorMatrix, RowMajorMatrixView, TwoAdicField, TwoAdicSubgroupDft, fits_lde,
};
use std::alloc::Global;
use std::cell::Cell;
use std::process::Abort;

// Whether the rows are those of the matrix from one on.
fn has_rows_at<F: TwoAdicField>(
    mat: &RowMajorMatrix<F>,
    start: usize,
    rows: &RowMajorMatrixView<'_, F>,
) -> bool {
    let count = rows.height();
    start <= mat.height()
        && count <= mat.height() - start
        && rows.width() == mat.width()
        && mat.view_rows(start, count).values() == rows.values()
}

// Compares each block with rows of a matrix as it is lent, and counts the rows.
#[derive(Drop)]
struct Comparer<F> {
    expected: RowMajorMatrix<F>,
    equal: bool,
    rows: usize,
}

impl<F: TwoAdicField> BlockConsumer<F> for Comparer<F> {
    ghost use Rattle.std.specs.Prelude.{◌≡◌, Ok};

    type Refusal = ();

    ghost step = { λ c start block answer e. answer ≡ Ok tt };

    fn consume(&mut self, start: usize, block: RowMajorMatrixView<'_, F>) -> Result<(), ()>
        ensures { ⟦<Comparer<F> as BlockConsumer<F>>⟧.step self.old start block.entry result self.new }
    {
        self.equal = self.equal && has_rows_at(&self.expected, start, &block);
        self.rows = self.rows.saturating_add(block.height());
        Ok(())
    }
}

// Whether a block of so many rows has none in common with those that were kept before it.
fn is_apart<F: TwoAdicField>(recorder: &Recorder<F>, i: usize, height: usize) -> bool
    requires { i < length recorder.now.blocks }
{
    let start = recorder.start(i);
    let mut apart = true;
    for j in 0..i {
        apart = apart && start.abs_diff(recorder.start(j)) >= height;
    }
    apart
}

// Whether each block that is kept has so many rows, those of the matrix from its start on, and none of
// another block.
fn has_blocks_of<F: TwoAdicField>(
    mat: &RowMajorMatrix<F>,
    recorder: &Recorder<F>,
    height: usize,
) -> bool {
    let mut right = true;
    for i in 0..recorder.blocks() {
        let block = recorder.rows(i);
        right = right
            && block.height() == height
            && has_rows_at(mat, recorder.start(i), &block)
            && is_apart(recorder, i, height);
    }
    right
}

// The physical rows of an extension, and a consumer that took all of them.
fn publish_all<F: TwoAdicField, C: BlockConsumer<F> + Drop>(
    rt: &impl Abort,
    engine: &mut TestEngine<F>,
    rows: Input<F>,
    consumer: C,
) -> (RowMajorMatrix<F>, C)
where
    C::Refusal: Drop,
{
    match engine.publish(rows, consumer) {
        Publication::Whole { rows, consumer } => (rows, consumer),
        _ => panic!(rt; "with_blocks on {}: not all blocks were taken", engine.name),
    }
}

// An extension with blocks: the rows, the added bits and the shift, how many rows a block has of an engine in several
// blocks, and the numbers of the physical rows.
pub(crate) struct Worked {
    width: usize,
    rows: &'static [u64],
    added_bits: usize,
    shift: usize,
    block: usize,
    physical: &'static [u64],
}

const OVER_BABY_BEAR: [Worked; 3] = [
    Worked {
        width: 1,
        rows: &[9, 1],
        added_bits: 1,
        shift: 1,
        block: 1,
        physical: &[9, 1, 873820294, 1139445637],
    },
    // On the coset of zero each row has the constant coefficients.
    Worked {
        width: 1,
        rows: &[9, 1],
        added_bits: 1,
        shift: 0,
        block: 1,
        physical: &[5, 5, 5, 5],
    },
    Worked {
        width: 2,
        rows: &[42, 7],
        added_bits: 2,
        shift: 31,
        block: 1,
        physical: &[42, 7, 42, 7, 42, 7, 42, 7],
    },
];

const OVER_GOLDILOCKS: [Worked; 3] = [
    Worked {
        width: 1,
        rows: &[9, 1],
        added_bits: 1,
        shift: 1,
        block: 1,
        physical: &[9, 1, 1125899906842629, 18445618169507741702],
    },
    Worked {
        width: 1,
        rows: &[9, 1],
        added_bits: 1,
        shift: 0,
        block: 1,
        physical: &[5, 5, 5, 5],
    },
    Worked {
        width: 2,
        rows: &[42, 7],
        added_bits: 2,
        shift: 31,
        block: 1,
        physical: &[42, 7, 42, 7, 42, 7, 42, 7],
    },
];

// Stops the test unless as many blocks of so many rows are kept as there is room for, with their rows, and the rest are
// missed.
fn assert_recorded<F: TwoAdicField>(
    rt: &impl Abort,
    engine: &mut TestEngine<F>,
    rows: Input<F>,
    (blocks, elements): (usize, usize),
    (kept, block): (usize, usize),
) -> RowMajorMatrix<F> {
    let recorder = Recorder::with_room(*rows.mat.allocator(), blocks, elements);
    let recorder: Recorder<F> = recorder.expect(rt, "memory");
    let (physical, recorder) = publish_all(rt, engine, rows, recorder);
    let whole = kept.checked_mul(block) == Some(physical.height());
    assert!(rt;
        recorder.blocks() == kept
            && recorder.missed() != whole
            && has_blocks_of(&physical, &recorder, block),
        "with_blocks on {}: {} blocks kept, not {kept} of {block} rows",
        engine.name,
        recorder.blocks()
    );
    physical
}

// The worked extensions, with room for all blocks.
fn records_worked<F: CanonicalField>(rt: &impl Abort, alloc: Global, cases: &[Worked]) {
    for name in EVERY_ENGINE {
        let mut engine: TestEngine<F> = TestEngine::new(name);
        for case in cases {
            let rows = Input {
                mat: matrix(rt, alloc, case.rows, case.width),
                added_bits: case.added_bits,
                shift: F::from_usize(case.shift),
                change: Change::Nothing,
            };
            let expected = matrix(rt, alloc, case.physical, case.width);
            let block = name.block_height(case.block, expected.height());
            assert!(rt; block > 0);
            let kept = expected.height() / block;
            let found = assert_recorded(rt, &mut engine, rows, (4, 8), (kept, block));
            assert!(rt;
                found == expected,
                "with_blocks on {}: wrong at {kept} blocks of {block} rows of {}",
                engine.name,
                case.width
            );
        }
    }
}

// Where there is room for fewer blocks or elements, the rest are missed: of 32 blocks of four rows, and of one block.
fn records_what_has_room<F: TwoAdicField>(rt: &impl Abort, alloc: Global) {
    let mat = counting(rt, alloc, 16, 17);
    for name in EVERY_ENGINE {
        let mut engine: TestEngine<F> = TestEngine::new(name);
        let block = name.block_height(4, 128);
        assert!(rt; block > 0);
        let all = 128 / block;
        for (blocks, elements, kept) in [
            (all, 2176, all),
            (all.saturating_sub(1), 2176, all.saturating_sub(1)),
            (all, 2175, all.saturating_sub(1)),
        ] {
            let rows = input(rt, &mat, 3, F::GENERATOR);
            let _rows = assert_recorded(rt, &mut engine, rows, (blocks, elements), (kept, block));
        }
    }
}

// How many blocks were taken, and the one that was too many.
fn blocks_within<F: TwoAdicField>(
    rt: &impl Abort,
    engine: &mut TestEngine<F>,
    mat: &RowMajorMatrix<F>,
    limit: usize,
) -> (usize, Option<BlockRefused>) {
    match engine.publish(input(rt, mat, 1, F::ONE), BlockLimit::new(limit)) {
        Publication::Whole {
            rows: _rows,
            consumer,
        } => (consumer.seen(), None),
        Publication::Refused { consumer, refusal } => (consumer.seen(), Some(refusal)),
        Publication::OutOfMemory(_consumer) => panic!(rt; "with_blocks on {}: memory", engine.name),
        Publication::Absent => panic!(rt; "with_blocks on {}: no answer", engine.name),
    }
}

// No block is taken, then fewer than there are, and then all. The one block begins with the first row.
fn blocks_limited<F: CanonicalField>(rt: &impl Abort, alloc: Global) {
    let mat = matrix(rt, alloc, &[9, 1], 1);
    for name in EVERY_ENGINE {
        let mut engine: TestEngine<F> = TestEngine::new(name);
        let block = name.block_height(1, 4);
        assert!(rt; block > 0);
        let all = 4 / block;
        for limit in 0..5usize {
            let (seen, refused) = blocks_within(rt, &mut engine, &mat, limit);
            assert!(rt;
                seen == limit.min(all) && refused.is_some() == (limit < all),
                "with_blocks on {}: {seen} blocks within {limit}",
                engine.name
            );
            if all == 1 && limit == 0 {
                assert!(rt; refused == Some(BlockRefused { start: 0 }));
            }
        }
    }
}

// The consumer is made once the coefficients were transformed, of one to eight rows.
fn consumers_made_late<F: CanonicalField>(rt: &impl Abort, alloc: Global) {
    for name in EVERY_ENGINE {
        let mut engine: TestEngine<F> = TestEngine::new(name);
        for (width, added_bits) in [
            (8usize, 0usize),
            (8, 1),
            (4, 0),
            (4, 1),
            (2, 0),
            (2, 1),
            (1, 0),
            (1, 1),
        ] {
            let mat = matrix(rt, alloc, &[9, 1, 0, 0, 5, 4, 0, 7], width);
            let late = engine.makes_consumer_late(input(rt, &mat, added_bits, F::ONE));
            assert!(rt;
                late,
                "with_blocks on {}: width {width}, {added_bits} bits",
                engine.name
            );
        }
    }
}

// Without a transform: a worked extension is lent row by row as it is answered.
fn in_blocks_lent<F: CanonicalField, D: TwoAdicSubgroupDft<F>>(
    rt: &impl Abort,
    alloc: Global,
    name: &str,
    engine: &mut D,
    case: &Worked,
) {
    let mat: RowMajorMatrix<F> = matrix(rt, alloc, case.rows, case.width);
    assert!(rt; fits_lde::<F>(mat.height(), mat.width(), case.added_bits));
    let expected = matrix(rt, alloc, case.physical, case.width);
    let comparer = Comparer {
        expected: matrix(rt, alloc, case.physical, case.width),
        equal: true,
        rows: 0,
    };
    let shift = F::from_usize(case.shift);
    match engine.coset_lde_batch_in_blocks(mat, case.added_bits, shift, |_rows| comparer) {
        Ok((out, comparer)) => {
            let lent = comparer.equal && comparer.rows == expected.height();
            assert!(rt;
                lent && out.bit_reverse_rows() == expected,
                "in_blocks on {name}: other rows were answered or lent, width {}, {} added bits, shift {}",
                case.width,
                case.added_bits,
                case.shift
            );
        }
        Err(_) => panic!(rt; "in_blocks on {name}: not all blocks were taken"),
    }
}

// How many blocks were taken, and the one that was too many.
fn in_blocks_within<F: TwoAdicField, D: TwoAdicSubgroupDft<F>>(
    rt: &impl Abort,
    engine: &mut D,
    mat: RowMajorMatrix<F>,
    limit: usize,
) -> (usize, Option<BlockRefused>) {
    assert!(rt; fits_lde::<F>(mat.height(), mat.width(), 1));
    let answer = engine.coset_lde_batch_in_blocks(mat, 1, F::ONE, |_rows| BlockLimit::new(limit));
    match answer {
        Ok((_out, consumer)) => (consumer.seen(), None),
        Err(stopped) => match stopped {
            BlocksStopped::Refused { consumer, refusal } => (consumer.seen(), Some(refusal)),
            BlocksStopped::OutOfMemory(_unpublished) => panic!(rt; "in_blocks: memory"),
        },
    }
}

// The worked extensions and limits, on any engine.
fn in_blocks_on<F: CanonicalField, D: TwoAdicSubgroupDft<F>>(
    rt: &impl Abort,
    alloc: Global,
    name: Name,
    engine: &mut D,
    cases: &[Worked],
) {
    let all = 4 / name.block_height(1, 4).max(1);
    let name = name.word();
    for case in cases {
        in_blocks_lent(rt, alloc, name, engine, case);
    }
    for limit in 0..5usize {
        let mat = matrix(rt, alloc, &[9, 1], 1);
        let (seen, refused) = in_blocks_within(rt, engine, mat, limit);
        assert!(rt;
            seen == limit.min(all) && refused.is_some() == (limit < all),
            "in_blocks on {name}: {seen} blocks within {limit}, 2 rows of 1, 1 added bit"
        );
    }
}

// What `in_blocks_on` tests, as a work that `TestEngine::with` takes.
struct InBlocks<'a, R> {
    rt: &'a R,
    alloc: Global,
    name: Name,
    cases: &'a [Worked],
}

impl<'a, F: CanonicalField, R: Abort> EngineWork<F> for InBlocks<'a, R> {
    type Answer = ();

    ghost fits = { λ work. ⊤ };

    fn on<D: TwoAdicSubgroupDft<F>>(self, engine: &mut D) {
        let InBlocks {
            rt,
            alloc,
            name,
            cases,
        } = self;
        in_blocks_on::<F, D>(rt, alloc, name, engine, cases);
    }
}

pub(crate) fn published<F: CanonicalField>(rt: &impl Abort, alloc: Global, cases: &[Worked]) {
    records_worked::<F>(rt, alloc, cases);
    records_what_has_room::<F>(rt, alloc);
    blocks_limited::<F>(rt, alloc);
    consumers_made_late::<F>(rt, alloc);
    for name in EVERY_ENGINE {
        let mut engine: TestEngine<F> = TestEngine::new(name);
        engine.with(InBlocks {
            rt,
            alloc,
            name,
            cases,
        });
    }
}

#[test]
fn blocks_are_published_once_and_final(rt: HostRuntime) {
    over(
        &rt,
        rt.alloc(),
        FieldName::BabyBear,
        Topic::Published(&OVER_BABY_BEAR),
    );
    over(
        &rt,
        rt.alloc(),
        FieldName::Goldilocks,
        Topic::Published(&OVER_GOLDILOCKS),
    );
}

// The second transform is refused its memory: nothing was lent, and the consumer was not made, so that it comes back
// and takes a block. With memory the call answers.
pub(crate) fn nothing_lent<F: CanonicalField>(rt: &impl Abort, alloc: Global) {
    let mat = matrix(rt, alloc, &[9, 1], 1);
    let blocks = Cell::new(0);
    let mut engine: TestEngine<F> = TestEngine {
        name: "limited",
        kind: Kind::Limited(LimitedDft::new(1)),
    };
    let answer = engine.publish(input(rt, &mat, 1, F::ONE), Counter { blocks: &blocks });
    let Publication::OutOfMemory(mut consumer) = answer else {
        panic!(rt; "not out of memory");
    };
    assert!(rt; blocks.get() == 0);
    let one: RowMajorMatrix<F> = matrix(rt, alloc, &[9], 1);
    assert!(rt; consumer.consume(0, one.as_view()).is_ok());
    assert!(rt; blocks.get() == 1);
}

#[test]
fn nothing_is_lent_where_memory_is_refused(rt: HostRuntime) {
    over(&rt, rt.alloc(), FieldName::BabyBear, Topic::NothingLent);
    over(&rt, rt.alloc(), FieldName::Goldilocks, Topic::NothingLent);
}

// The rows in bit reversed order.
fn in_bit_reversed_order<F: TwoAdicField>(
    rt: &impl Abort,
    mat: &RowMajorMatrix<F>,
) -> RowMajorMatrix<F> {
    let height = mat.height();
    let mut entries = Vec::new(*mat.allocator());
    for i in 0..height {
        let row = reversed(i, height);
        assert!(rt; row < height);
        entries.extend_from_slice(mat.row(row)).expect(rt, "memory");
    }
    matrix_of(rt, entries, mat.width())
}

// The number whose binary digits are those of a row's number in reverse, of a power of two of rows.
fn reversed(row: usize, height: usize) -> usize {
    let unused = usize::BITS.saturating_sub(height.trailing_zeros());
    row.reverse_bits().checked_shr(unused).unwrap_or(0)
}

// The rows of an extension whose coefficients are changed, by calls of the definition without a transform.
fn changed_extension<F: TwoAdicField>(
    rt: &impl Abort,
    mat: &RowMajorMatrix<F>,
    added_bits: usize,
    shift: F,
    change: Change,
) -> RowMajorMatrix<F> {
    let mut sums = TestEngine::new(Name::Library(EngineName::Naive));
    let coefficients = input(rt, mat, 0, F::ONE);
    let coefficients = rows_of(rt, &mut sums, Call::Batch(Operation::Idft), coefficients);
    let coefficients = change.of(coefficients, Layout::Natural);
    assert!(rt; added_bits < 64);
    let count = coefficients.values().len().saturating_mul(1 << added_bits);
    let padded = input(rt, &with_zeros(rt, coefficients, count), 0, shift);
    rows_of(rt, &mut sums, Call::Batch(Operation::CosetDft), padded)
}

// At one shape: each extension with a transform that multiplies or doubles coefficients, with rows as an engine leaves
// them, in bit reversed order, and block by block as these are lent. Which row a coefficient lies in is known from the
// layout that the transform is told alone.
fn changes_at<F: TwoAdicField>(
    rt: &impl Abort,
    mat: &RowMajorMatrix<F>,
    added_bits: usize,
    shift: F,
    change: Change,
) {
    let expected = changed_extension(rt, mat, added_bits, shift, change);
    let physical = in_bit_reversed_order(rt, &expected);
    for name in EVERY_ENGINE {
        let mut engine: TestEngine<F> = TestEngine::new(name);
        for call in [
            Call::WithTransform,
            Call::ByParts,
            Call::BitReversed,
            Call::WithBlocks,
        ] {
            let mut rows = input(rt, mat, added_bits, shift);
            rows.change = change;
            assert_rows_of(rt, &mut engine, call, rows, &expected);
        }
        let mut rows = input(rt, mat, added_bits, shift);
        rows.change = change;
        let comparer = Comparer {
            expected: physical.try_clone().expect(rt, "memory"),
            equal: true,
            rows: 0,
        };
        let (out, comparer) = publish_all(rt, &mut engine, rows, comparer);
        assert!(rt;
            out == physical && comparer.equal && comparer.rows == out.height(),
            "with_blocks on {}: other rows were answered or lent at {} rows of {}, {added_bits} added bits",
            engine.name,
            mat.height(),
            mat.width()
        );
    }
}

// Heights, widths and added bits.
const SHAPES: [(usize, usize, usize); 20] = [
    (1, 3, 0),
    (1, 3, 1),
    (1, 3, 3),
    (2, 1, 0),
    (2, 1, 1),
    (2, 1, 3),
    (4, 3, 0),
    (4, 3, 1),
    (4, 3, 3),
    (16, 1, 0),
    (16, 1, 1),
    (16, 1, 3),
    (8, 9, 0),
    (8, 9, 1),
    (8, 9, 3),
    (1, 1, 0),
    (1, 3, 2),
    (2, 8, 1),
    (8, 3, 0),
    (16, 17, 3),
];

pub(crate) fn changes_over<F: TwoAdicField>(rt: &impl Abort, alloc: Global) {
    for (height, width, added_bits) in SHAPES {
        let mat = sample(rt, alloc, height, width, 7);
        changes_at(rt, &mat, added_bits, F::ZERO, Change::Weighted);
        changes_at(rt, &mat, added_bits, F::ONE, Change::Weighted);
        changes_at(rt, &mat, added_bits, F::GENERATOR, Change::Weighted);
        changes_at(rt, &mat, added_bits, F::GENERATOR, Change::Doubled);
    }
}

#[test]
fn changed_coefficients_meet_their_rows_in_each_layout(rt: HostRuntime) {
    over(&rt, rt.alloc(), FieldName::BabyBear, Topic::Changes);
    over(&rt, rt.alloc(), FieldName::Goldilocks, Topic::Changes);
}
