// How many products and sums of a matrix's entries each call makes, counted by the entries themselves. On every engine
// the products are within the bounds that are proved of the engine's own counter. No clause is of sums, and a body that
// transforms by sums alone makes no product: so they have bounds of their own, one sum and one difference for each pair
// of rows that a layer joins. What is made of a row of zeros alone that an extension adds is not counted, since those
// zeros are no entries of the matrix.

ghost use Rattle.std.specs.List.{All};
ghost use Rattle.p3_matrix.specs.RowMajor.{height};
ghost use Rattle.p3_dft.specs.Jobs.{CanRun};
ghost use Rattle.p3_dft.specs.Shapes.{FitsDft, FitsLde};

use super::algebra::elements_of;
use super::answers::by_tiles;
use super::helpers::counting_field::{InPacks, Metered, Tally};
use super::helpers::engines::{Name, TestEngine, input, rows_of};
use super::helpers::fitting::invertible;
use super::helpers::matrices::matrix_of;
use super::jobs::and_then;
use engine_calls::answers::Answer;
use engine_calls::blocks::Publication;
use engine_calls::names::{CALLS, Call, ENGINES, Method, OPERATIONS, Operation};
use p3_dft::{
    BabyBear, BasedVectorSpace, BlockLimit, CanonicalField, Coordinates, Field, Goldilocks, Job,
    PackedField, Products, RowMajorMatrix, TwoAdicField, fits_dft, fits_lde, scaled,
};
use std::alloc::Global;
use std::cell::Cell;
use std::process::Abort;

// A matrix of `2^log_h` rows, and the bits by which it is extended.
#[derive(Clone, Copy)]
struct Shape {
    log_h: usize,
    width: usize,
    added_bits: usize,
}

// How many products, and how many sums and differences.
#[derive(Clone, Copy)]
struct Work {
    products: usize,
    sums: usize,
}

impl Work {
    fn of(products: usize, sums: usize) -> Work {
        Work { products, sums }
    }

    // That of so many butterflies: each has one product, one sum and one difference.
    fn of_butterflies(count: usize) -> Work {
        Work::of(count, count.saturating_mul(2))
    }
}

// The least products of a transform, and the most work of each call.
#[derive(Clone, Copy)]
struct Bounds {
    least: usize,
    transform: Work,
    coset_transform: Work,
    inverse: Work,
    coset_inverse: Work,
    extension: Work,
    // Of `lde_batch` and `coset_lde_batch`.
    coset_extension: Work,
    extension_of_coefficients: Work,
    // Of an extension whose first block is refused.
    refused: Work,
    // Of telling whether an extension is a codeword.
    membership: Work,
}

// How much there is in all.
fn total(parts: &[Work]) -> Work {
    parts.iter().fold(
        Work::of(0, 0),
        |sum: Work, part| Work {
            products: sum.products.saturating_add(part.products),
            sums: sum.sums.saturating_add(part.sums),
        },
    )
}

// `2^log`.
fn rows(log: usize) -> usize {
    1 << log.min(63)
}

// The most work of a transform of `2^log` rows: of sums with a term for each two rows, or of butterflies.
fn most_of_transform(method: Method, log: usize, width: usize) -> Work {
    let cells = rows(log).saturating_mul(width);
    match method {
        Method::Sums => {
            let terms = cells.saturating_mul(rows(log));
            Work::of(terms, terms)
        }
        _ => Work::of_butterflies(cells.saturating_mul(log) / 2),
    }
}

// The most work before the first block of a coset is lent: the first half of its transform, of `log_h / 2` layers
// rounded up, and the others of one chunk alone, which has as many layers as its height has bits.
fn most_before_refusal(log_h: usize, width: usize) -> Work {
    let layers = log_h / 2;
    let first_half = rows(log_h).saturating_mul(log_h.saturating_sub(layers)) / 2;
    let chunk = rows(layers).saturating_mul(layers) / 2;
    Work::of_butterflies(first_half.saturating_add(chunk).saturating_mul(width))
}

// The most work of each call, by formulas.
fn bounds_at(method: Method, shape: Shape) -> Bounds {
    let Shape {
        log_h,
        width,
        added_bits,
    } = shape;
    let log = log_h.saturating_add(added_bits);
    // Each entry is multiplied once.
    let entries = Work::of(rows(log_h).saturating_mul(width), 0);
    let extended = Work::of(rows(log).saturating_mul(width), 0);
    let transform = most_of_transform(method, log_h, width);
    let larger = most_of_transform(method, log, width);
    let cosets = rows(added_bits);
    let on_cosets = most_of_transform(method, log_h, width.saturating_mul(cosets));
    let extension = match method {
        Method::Cosets => total(&[transform, entries, on_cosets]),
        Method::ShortShifts => total(&[transform, entries, entries, larger]),
        _ => total(&[transform, entries, larger, extended]),
    };
    Bounds {
        least: if method == Method::Sums {
            transform.products
        } else {
            0
        },
        transform,
        coset_transform: if method == Method::Cosets {
            transform
        } else {
            total(&[transform, entries])
        },
        inverse: total(&[transform, entries]),
        coset_inverse: total(&[transform, entries, entries]),
        extension,
        coset_extension: if method == Method::WithoutZeros {
            total(&[transform, on_cosets, extended])
        } else {
            extension
        },
        extension_of_coefficients: if method == Method::WithoutZeros {
            total(&[on_cosets, extended])
        } else {
            total(&[larger, entries])
        },
        refused: if method == Method::Cosets {
            total(&[transform, entries, most_before_refusal(log_h, width)])
        } else {
            extension
        },
        membership: total(&[larger, extended, extended]),
    }
}

// Those of eight rows of one entry, extended by one bit, worked by hand: the butterflies of eight rows are twelve,
// those of sixteen are 32, and before the first block is lent eight are done of two layers, and one of two rows. Sums
// and differences are two a butterfly: 24, 64 and 18.
fn worked_bounds(method: Method) -> Bounds {
    let parts = Bounds {
        least: 1,
        transform: Work::of(12, 24),
        coset_transform: Work::of(20, 24),
        inverse: Work::of(20, 24),
        coset_inverse: Work::of(28, 24),
        extension: Work::of(68, 88),
        coset_extension: Work::of(68, 88),
        extension_of_coefficients: Work::of(40, 64),
        refused: Work::of(68, 88),
        membership: Work::of(64, 64),
    };
    match method {
        Method::Sums => Bounds {
            least: 64,
            transform: Work::of(64, 64),
            coset_transform: Work::of(72, 64),
            inverse: Work::of(72, 64),
            coset_inverse: Work::of(80, 64),
            extension: Work::of(344, 320),
            coset_extension: Work::of(344, 320),
            extension_of_coefficients: Work::of(264, 256),
            refused: Work::of(344, 320),
            membership: Work::of(288, 256),
        },
        Method::Parts => parts,
        Method::ShortShifts => Bounds {
            extension: Work::of(60, 88),
            coset_extension: Work::of(60, 88),
            refused: Work::of(60, 88),
            ..parts
        },
        Method::Cosets => Bounds {
            coset_transform: Work::of(12, 24),
            extension: Work::of(44, 72),
            coset_extension: Work::of(44, 72),
            refused: Work::of(29, 42),
            ..parts
        },
        Method::WithoutZeros => Bounds {
            coset_extension: Work::of(52, 72),
            extension_of_coefficients: Work::of(40, 48),
            ..parts
        },
    }
}

// Where bounds are from.
#[derive(Clone, Copy)]
enum BoundsFrom {
    Formulas,
    WorkedRows,
}

impl BoundsFrom {
    fn of(self, method: Method, shape: Shape) -> Bounds {
        match self {
            BoundsFrom::Formulas => bounds_at(method, shape),
            BoundsFrom::WorkedRows => worked_bounds(method),
        }
    }
}

// The cells that count products and sums.
#[derive(Drop)]
struct Count<'a> {
    products: &'a Cell<usize>,
    sums: &'a Cell<usize>,
}

impl<'a> Count<'a> {
    // What was counted.
    fn so_far(&self) -> Work {
        Work::of(self.products.get(), self.sums.get())
    }

    fn begin(&self) {
        self.products.set(0);
        self.sums.set(0);
    }

    // Stops the test where a call made fewer or more products, or more sums, and counts anew.
    fn assert_within(
        &self,
        rt: &impl Abort,
        (form, word, engine): (&str, &str, &str),
        shape: Shape,
        (least, most): (usize, Work),
    ) {
        let Work { products, sums } = self.so_far();
        assert!(rt;
            least <= products && products <= most.products,
            "{form} {word} on {engine}: {products} products, not {least} to {}, log_h {}, width {}, added bits {}",
            most.products,
            shape.log_h,
            shape.width,
            shape.added_bits
        );
        assert!(rt;
            sums <= most.sums,
            "{form} {word} on {engine}: {sums} sums, not {} at most, log_h {}, width {}, added bits {}",
            most.sums,
            shape.log_h,
            shape.width,
            shape.added_bits
        );
        self.begin();
    }
}

// Stops the test unless a call ended as it should.
fn assert_ended(rt: &impl Abort, (word, engine): (&str, &str), shape: Shape, as_wanted: bool) {
    assert!(rt;
        as_wanted,
        "{word} on {engine}: ended otherwise, log_h {}, width {}, added bits {}",
        shape.log_h, shape.width, shape.added_bits
    );
}

impl Bounds {
    // The least products and the most work of a call, if it makes any.
    fn of(self, call: Call) -> Option<(usize, Work)> {
        match call {
            Call::Batch(operation) => Some(self.of_operation(operation, self.coset_extension)),
            Call::Vector(operation)
            | Call::AlgebraBatch(operation)
            | Call::AlgebraVector(operation) => Some(self.of_operation(operation, self.extension)),
            Call::WithTransform
            | Call::BitReversed
            | Call::WithBlocks
            | Call::InBlocks
            | Call::Encode => Some((0, self.extension)),
            Call::OfCoefficients | Call::OfCoefficientsBitReversed => {
                Some((0, self.extension_of_coefficients))
            }
            Call::IsCodeword => Some((0, self.membership)),
            _ => None,
        }
    }

    fn of_operation(self, operation: Operation, extension: Work) -> (usize, Work) {
        match operation {
            Operation::Dft => (self.least, self.transform),
            Operation::CosetDft => (0, self.coset_transform),
            Operation::Idft => (0, self.inverse),
            Operation::CosetIdft => (0, self.coset_inverse),
            Operation::Lde | Operation::CosetLde => (0, extension),
        }
    }
}

// Stops the test where an engine makes other numbers of products: each call on a matrix.
fn calls_within<F: CanonicalField>(
    rt: &impl Abort,
    count: &Count<'_>,
    engine: &mut TestEngine<F>,
    mat: &RowMajorMatrix<F>,
    (shape, bounds): (Shape, Bounds),
) {
    for call in CALLS {
        let made = call != Call::IsCodeword && (mat.width() == 1 || !call.is_of_column());
        if let (Some(limits), true) = (bounds.of(call), made) {
            let _rows = rows_of(
                rt,
                engine,
                call,
                input(rt, mat, shape.added_bits, F::GENERATOR),
            );
            count.assert_within(rt, (call.form(), call.word(), engine.name), shape, limits);
        }
    }
}

// Whether the codeword of the matrix is one.
fn codeword_within<F: CanonicalField>(
    rt: &impl Abort,
    count: &Count<'_>,
    engine: &mut TestEngine<F>,
    mat: &RowMajorMatrix<F>,
    (shape, bounds): (Shape, Bounds),
) {
    let message = input(rt, mat, shape.added_bits, F::GENERATOR);
    let word = rows_of(rt, engine, Call::Encode, message);
    count.begin();
    let answer = engine.answer(
        Call::IsCodeword,
        input(rt, &word, shape.added_bits, F::GENERATOR),
    );
    let holds = matches!(&answer, Answer::Holds(true));
    assert_ended(rt, ("is_codeword", engine.name), shape, holds);
    let names = ("alone", "is_codeword", engine.name);
    count.assert_within(rt, names, shape, (0, bounds.membership));
}

// An extension whose blocks are all taken, and one whose first block is refused: of its coset nothing more is done, and
// no other coset is begun. A later block of more than one row takes products and sums.
fn refusal_within<F: CanonicalField>(
    rt: &impl Abort,
    count: &Count<'_>,
    engine: &mut TestEngine<F>,
    mat: &RowMajorMatrix<F>,
    (shape, bounds): (Shape, Bounds),
) {
    let rows = input(rt, mat, shape.added_bits, F::ONE);
    let blocks = match engine.publish(rows, BlockLimit::new(usize::MAX)) {
        Publication::Whole {
            rows: _rows,
            consumer,
        } => consumer.seen(),
        _ => 0,
    };
    assert_ended(rt, ("with_blocks", engine.name), shape, blocks > 0);
    let whole = count.so_far();
    count.assert_within(
        rt,
        ("alone", "with_blocks", engine.name),
        shape,
        (0, bounds.extension),
    );
    let rows = input(rt, mat, shape.added_bits, F::ONE);
    let publication = engine.publish(rows, BlockLimit::new(0));
    let refused = matches!(&publication, Publication::Refused { .. });
    assert_ended(rt, ("with_blocks, refused", engine.name), shape, refused);
    let most = if blocks > 1 && shape.log_h > 1 {
        Work {
            products: bounds
                .refused
                .products
                .min(whole.products.saturating_sub(1)),
            sums: bounds.refused.sums.min(whole.sums.saturating_sub(1)),
        }
    } else {
        bounds.refused
    };
    let names = ("alone", "with_blocks, refused", engine.name);
    count.assert_within(rt, names, shape, (0, most));
}

// A matrix that can be transformed, with entries in memory of its own.
fn transformable<F: TwoAdicField>(rt: &impl Abort, mat: &RowMajorMatrix<F>) -> RowMajorMatrix<F>
    ensures { FitsDft F.TWO_ADICITY (height result) result.width }
{
    let mat = mat.try_clone().expect(rt, "memory");
    assert!(rt; fits_dft::<F>(mat.height(), mat.width()));
    mat
}

// One that can be extended.
fn extensible<F: TwoAdicField>(
    rt: &impl Abort,
    mat: &RowMajorMatrix<F>,
    added_bits: usize,
) -> RowMajorMatrix<F>
    ensures { FitsLde F.TWO_ADICITY (height result) result.width added_bits }
{
    let mat = mat.try_clone().expect(rt, "memory");
    assert!(rt; fits_lde::<F>(mat.height(), mat.width(), added_bits));
    mat
}

// A job of each kind.
fn jobs_of<F: CanonicalField>(
    rt: &impl Abort,
    mat: &RowMajorMatrix<F>,
    added_bits: usize,
) -> Vec<Job<F>>
    ensures { All (CanRun F.Valued.own F.TWO_ADICITY) result.items }
{
    let shift = invertible(rt, F::GENERATOR);
    let jobs = Vec::new(*mat.allocator());
    let jobs = and_then(rt, jobs, Job::Dft(transformable(rt, mat)));
    let jobs = and_then(rt, jobs, Job::Idft(transformable(rt, mat)));
    let jobs = and_then(rt, jobs, Job::CosetDft(transformable(rt, mat), shift));
    let jobs = and_then(rt, jobs, Job::CosetIdft(transformable(rt, mat), shift));
    let extended = extensible(rt, mat, added_bits);
    let jobs = and_then(rt, jobs, Job::Lde(extended, added_bits));
    let extended = extensible(rt, mat, added_bits);
    and_then(rt, jobs, Job::CosetLde(extended, added_bits, shift))
}

// All of them in one list.
fn jobs_within<F: CanonicalField>(
    rt: &impl Abort,
    count: &Count<'_>,
    engine: &mut TestEngine<F>,
    mat: &RowMajorMatrix<F>,
    (shape, bounds): (Shape, Bounds),
) {
    let answers = engine.run_jobs(jobs_of(rt, mat, shape.added_bits));
    assert_ended(rt, ("run_jobs", engine.name), shape, answers.is_ok());
    let most = total(&[
        bounds.transform,
        bounds.coset_transform,
        bounds.inverse,
        bounds.coset_inverse,
        bounds.extension,
        bounds.extension,
    ]);
    count.assert_within(rt, ("alone", "run_jobs", engine.name), shape, (0, most));
}

// Each call over a vector space.
fn space_within<F: CanonicalField, V: BasedVectorSpace<F> + Copy>(
    rt: &impl Abort,
    count: &Count<'_>,
    engine: &mut TestEngine<F>,
    mat: &RowMajorMatrix<V>,
    (shape, bounds): (Shape, Bounds),
) {
    for operation in OPERATIONS {
        for call in [
            Call::AlgebraBatch(operation),
            Call::AlgebraVector(operation),
        ] {
            if mat.width() == 1 || !call.is_of_column() {
                let elements = mat.try_clone().expect(rt, "memory");
                let bits = shape.added_bits;
                let answer = engine.answer_in_space::<V>(call, elements, bits, F::GENERATOR);
                let answered = matches!(&answer, Answer::Rows(_));
                assert_ended(rt, (call.word(), engine.name), shape, answered);
                let limits = bounds.of_operation(operation, bounds.extension);
                count.assert_within(rt, (call.form(), call.word(), engine.name), shape, limits);
            }
        }
    }
}

// The engines, each with its bounds: not the one by sums where its products are too many to wait for.
fn engines_and_bounds<F: TwoAdicField>(
    rt: &impl Abort,
    alloc: Global,
    from: BoundsFrom,
    shape: Shape,
) -> Vec<(TestEngine<F>, Bounds)> {
    let few = shape.log_h.saturating_add(shape.added_bits) < 7;
    let mut engines = Vec::new(alloc);
    for name in ENGINES {
        if few || name.is_fast() {
            let engine = TestEngine::new(Name::Library(name));
            let bounds = from.of(name.facts().method, shape);
            engines.push((engine, bounds)).expect(rt, "memory");
        }
    }
    for tile in [1usize, 8192] {
        let bounds = from.of(Method::WithoutZeros, shape);
        engines
            .push((by_tiles(rt, alloc, tile), bounds))
            .expect(rt, "memory");
    }
    engines
}

// Entries that are all marked.
pub(crate) fn marked<F: Metered>(
    rt: &impl Abort,
    alloc: Global,
    height: usize,
    width: usize,
    mark: F::Mark,
) -> RowMajorMatrix<F> {
    let count = height.checked_mul(width).expect(rt, "so many entries");
    let mut entries = Vec::new(alloc);
    for n in 0..count {
        entries.push(F::marked(n, mark)).expect(rt, "memory");
    }
    matrix_of(rt, entries, width)
}

// Every call over the field, at one shape.
fn over_field<F: Metered>(
    rt: &impl Abort,
    alloc: Global,
    (count, mark): (&Count<'_>, F::Mark),
    shape: Shape,
    from: BoundsFrom,
) {
    let mat = marked::<F>(rt, alloc, rows(shape.log_h), shape.width, mark);
    for (engine, bounds) in engines_and_bounds(rt, alloc, from, shape) {
        let mut engine = engine;
        calls_within(rt, count, &mut engine, &mat, (shape, bounds));
        codeword_within(rt, count, &mut engine, &mat, (shape, bounds));
        refusal_within(rt, count, &mut engine, &mat, (shape, bounds));
        jobs_within(rt, count, &mut engine, &mat, (shape, bounds));
    }
}

// Every call over a vector space.
fn over_coordinates<F: Metered, V: BasedVectorSpace<F> + Copy>(
    rt: &impl Abort,
    alloc: Global,
    (count, mark): (&Count<'_>, F::Mark),
    shape: Shape,
) {
    let elements = rows(shape.log_h).saturating_mul(shape.width);
    let coordinates = marked::<F>(rt, alloc, elements, V::DIMENSION, mark);
    let mat = elements_of::<F, V>(rt, &coordinates, shape.width);
    let of_coordinates = Shape {
        width: shape.width.saturating_mul(V::DIMENSION),
        ..shape
    };
    for (engine, bounds) in engines_and_bounds(rt, alloc, BoundsFrom::Formulas, of_coordinates) {
        let mut engine = engine;
        space_within::<F, V>(rt, count, &mut engine, &mat, (shape, bounds));
    }
}

// Every call at one shape, over the field and over both vector spaces.
fn at_shape<F, V, W>(
    rt: &impl Abort,
    alloc: Global,
    (count, mark): (&Count<'_>, F::Mark),
    (log_h, width, added_bits): (usize, usize, usize),
)
where
    F: Metered,
    V: BasedVectorSpace<F> + Copy,
    W: BasedVectorSpace<F> + Copy,
{
    let shape = Shape {
        log_h,
        width,
        added_bits,
    };
    over_field::<F>(rt, alloc, (count, mark), shape, BoundsFrom::Formulas);
    over_coordinates::<F, V>(rt, alloc, (count, mark), shape);
    over_coordinates::<F, W>(rt, alloc, (count, mark), shape);
}

// Wider rows and larger heights: the height's logarithm, the width and the bits that are added.
const LARGER_SHAPES: [(usize, usize, usize); 5] = [
    (5, 7, 1),
    (2, 100, 1),
    (8, 5, 1),
    (10, 1, 1),
    (17, 1, 1),
];

// Every call at every shape.
fn at_every_shape<F, V, W>(rt: &impl Abort, alloc: Global, (count, mark): (&Count<'_>, F::Mark))
where
    F: Metered,
    V: BasedVectorSpace<F> + Copy,
    W: BasedVectorSpace<F> + Copy,
{
    for log_h in 0..7usize {
        for width in [1usize, 3] {
            for added_bits in 0..6usize {
                at_shape::<F, V, W>(rt, alloc, (count, mark), (log_h, width, added_bits));
            }
        }
    }
    for shape in LARGER_SHAPES {
        at_shape::<F, V, W>(rt, alloc, (count, mark), shape);
    }
}

// Stops the test unless so much work was counted, and counts anew.
fn assert_seen(rt: &impl Abort, count: &Count<'_>, wanted: Work) {
    let Work { products, sums } = count.so_far();
    assert!(rt; products == wanted.products && sums == wanted.sums);
    count.begin();
}

// One product, or one sum, is counted for each that a marked element, or what came of one, has a part in: in packs one
// for each lane.
fn sees_work<F: Metered>(rt: &impl Abort, (count, mark): (&Count<'_>, F::Mark)) {
    let one = F::ONE;
    let lanes = F::Packing::WIDTH;
    let x = -(one - F::marked(2, mark)).halve() + one;
    assert_seen(rt, count, Work::of(0, 2));
    let mut products = Products::new();
    let _ = one * one + one;
    assert_seen(rt, count, Work::of(0, 0));
    let _ = one * x;
    assert_seen(rt, count, Work::of(1, 0));
    let _ = scaled(x, one, &mut products);
    assert_seen(rt, count, Work::of(1, 0));
    let pack = F::Packing::broadcast(x).scaled(one, &mut products);
    assert_seen(rt, count, Work::of(lanes, 0));
    let _ = F::Packing::broadcast(one).multiplied(pack, &mut products);
    assert_seen(rt, count, Work::of(lanes, 0));
    let _ = F::Packing::broadcast(one).add(pack).sub(pack);
    assert_seen(rt, count, Work::of(0, lanes.saturating_mul(2)));
}

// The rows that were worked, and every shape.
fn counts<F, V, W>(rt: &impl Abort, alloc: Global, count: &Count<'_>, mark: F::Mark)
where
    F: Metered,
    V: BasedVectorSpace<F> + Copy,
    W: BasedVectorSpace<F> + Copy,
{
    sees_work::<F>(rt, (count, mark));
    let shape = Shape {
        log_h: 3,
        width: 1,
        added_bits: 1,
    };
    over_field::<F>(rt, alloc, (count, mark), shape, BoundsFrom::WorkedRows);
    at_every_shape::<F, V, W>(rt, alloc, (count, mark));
}

// An element that counts, and packs of so many of it.
type Counting<'a, F, const LANES: usize> = Tally<F, InPacks<'a, LANES>>;

#[test]
fn products_stay_within_bounds_by_one_lane(rt: HostRuntime) {
    let (products, sums) = (Cell::new(0), Cell::new(0));
    let count = Count {
        products: &products,
        sums: &sums,
    };
    let mark = InPacks::of(&products, &sums);
    counts::<
        Counting<'_, BabyBear, 1>,
        Coordinates<Counting<'_, BabyBear, 1>, 1>,
        Coordinates<Counting<'_, BabyBear, 1>, 2>,
    >(&rt, rt.alloc(), &count, mark);
}

#[test]
fn products_stay_within_bounds_by_four_lanes_one_by_one(rt: HostRuntime) {
    let (products, sums) = (Cell::new(0), Cell::new(0));
    let count = Count {
        products: &products,
        sums: &sums,
    };
    let mark = InPacks::of(&products, &sums);
    counts::<
        Counting<'_, Goldilocks, 4>,
        Coordinates<Counting<'_, Goldilocks, 4>, 1>,
        Coordinates<Counting<'_, Goldilocks, 4>, 2>,
    >(&rt, rt.alloc(), &count, mark);
}

#[test]
fn products_stay_within_bounds_by_eight_lanes(rt: HostRuntime) {
    let (products, sums) = (Cell::new(0), Cell::new(0));
    let count = Count {
        products: &products,
        sums: &sums,
    };
    let mark = InPacks::of(&products, &sums);
    counts::<
        Counting<'_, BabyBear, 8>,
        Coordinates<Counting<'_, BabyBear, 8>, 1>,
        Coordinates<Counting<'_, BabyBear, 8>, 2>,
    >(&rt, rt.alloc(), &count, mark);
}
