// The calls of an engine on matrices and on columns over the field, and worked rows.

ghost use Rattle.std.specs.Prelude.{vec_len};
ghost use Rattle.p3_field.specs.Ring.{IsInvertible};
ghost use Rattle.p3_matrix.specs.RowMajor.{height};
ghost use Rattle.p3_dft.specs.Shapes.{FitsDft, FitsLde};

use super::{Topic, are, list, matrix, over_baby_bear, over_goldilocks};
use p3_dft::{
    BabyBear, BitReversedMatrixView, CanonicalField, DftError, Evaluations, Layout, NaiveDft,
    Products, Radix2Bowers, Radix2DFTSmallBatch, Radix2Dit, Radix2DitParallel, RowMajorMatrix,
    TwoAdicField, TwoAdicSubgroupDft, fits_dft, fits_lde,
};
use std::alloc::Global;
use std::process::Abort;

fn dft_batch<F: TwoAdicField, D: TwoAdicSubgroupDft<F>>(
    dft: &mut D,
    mat: RowMajorMatrix<F>,
) -> Result<D::Evaluations, DftError>
    requires { FitsDft F.TWO_ADICITY (height mat) mat.width }
{
    dft.dft_batch(mat)
}

fn coset_dft_batch<F: TwoAdicField, D: TwoAdicSubgroupDft<F>>(
    dft: &mut D,
    mat: RowMajorMatrix<F>,
    shift: F,
) -> Result<D::Evaluations, DftError>
    requires { FitsDft F.TWO_ADICITY (height mat) mat.width }
{
    dft.coset_dft_batch(mat, shift)
}

fn idft_batch<F: TwoAdicField, D: TwoAdicSubgroupDft<F>>(
    dft: &mut D,
    mat: RowMajorMatrix<F>,
) -> Result<RowMajorMatrix<F>, DftError>
    requires { FitsDft F.TWO_ADICITY (height mat) mat.width }
{
    dft.idft_batch(mat)
}

fn coset_idft_batch<F: TwoAdicField, D: TwoAdicSubgroupDft<F>>(
    dft: &mut D,
    mat: RowMajorMatrix<F>,
    shift: F,
) -> Result<RowMajorMatrix<F>, DftError>
    requires fits { FitsDft F.TWO_ADICITY (height mat) mat.width }
    requires invertible { IsInvertible F.ring (F.value shift) }
{
    dft.coset_idft_batch(mat, shift)
}

fn lde_batch<F: TwoAdicField, D: TwoAdicSubgroupDft<F>>(
    dft: &mut D,
    mat: RowMajorMatrix<F>,
    added_bits: usize,
) -> Result<D::Evaluations, DftError>
    requires { FitsLde F.TWO_ADICITY (height mat) mat.width added_bits }
{
    dft.lde_batch(mat, added_bits)
}

fn coset_lde_batch<F: TwoAdicField, D: TwoAdicSubgroupDft<F>>(
    dft: &mut D,
    mat: RowMajorMatrix<F>,
    added_bits: usize,
    shift: F,
) -> Result<D::Evaluations, DftError>
    requires { FitsLde F.TWO_ADICITY (height mat) mat.width added_bits }
{
    dft.coset_lde_batch(mat, added_bits, shift)
}

fn dft<F: TwoAdicField, D: TwoAdicSubgroupDft<F>>(
    dft: &mut D,
    vec: Vec<F>,
) -> Result<Vec<F>, DftError>
    requires { FitsDft F.TWO_ADICITY (vec_len vec) 1 }
{
    dft.dft(vec)
}

fn coset_dft<F: TwoAdicField, D: TwoAdicSubgroupDft<F>>(
    dft: &mut D,
    vec: Vec<F>,
    shift: F,
) -> Result<Vec<F>, DftError>
    requires { FitsDft F.TWO_ADICITY (vec_len vec) 1 }
{
    dft.coset_dft(vec, shift)
}

fn idft<F: TwoAdicField, D: TwoAdicSubgroupDft<F>>(
    dft: &mut D,
    vec: Vec<F>,
) -> Result<Vec<F>, DftError>
    requires { FitsDft F.TWO_ADICITY (vec_len vec) 1 }
{
    dft.idft(vec)
}

fn coset_idft<F: TwoAdicField, D: TwoAdicSubgroupDft<F>>(
    dft: &mut D,
    vec: Vec<F>,
    shift: F,
) -> Result<Vec<F>, DftError>
    requires fits { FitsDft F.TWO_ADICITY (vec_len vec) 1 }
    requires invertible { IsInvertible F.ring (F.value shift) }
{
    dft.coset_idft(vec, shift)
}

fn lde<F: TwoAdicField, D: TwoAdicSubgroupDft<F>>(
    dft: &mut D,
    vec: Vec<F>,
    added_bits: usize,
) -> Result<Vec<F>, DftError>
    requires { FitsLde F.TWO_ADICITY (vec_len vec) 1 added_bits }
{
    dft.lde(vec, added_bits)
}

fn coset_lde<F: TwoAdicField, D: TwoAdicSubgroupDft<F>>(
    dft: &mut D,
    vec: Vec<F>,
    added_bits: usize,
    shift: F,
) -> Result<Vec<F>, DftError>
    requires { FitsLde F.TWO_ADICITY (vec_len vec) 1 added_bits }
{
    dft.coset_lde(vec, added_bits, shift)
}

// What an engine owes beside its transform.

fn add_products<F: TwoAdicField, D: TwoAdicSubgroupDft<F>>(dft: &mut D, products: Products) {
    dft.add_products(products);
}

fn block_height<F: TwoAdicField, D: TwoAdicSubgroupDft<F>>(
    dft: &D,
    log_h: usize,
    added_bits: usize,
) -> Option<usize> {
    let log_out = log_h.checked_add(added_bits)?;
    if log_out > F::TWO_ADICITY || log_out > 63 {
        return None;
    }
    Some(dft.block_height(log_h, added_bits))
}

// The layout of an engine, with the type of its evaluations.

fn layout_in_rows<
    F: TwoAdicField,
    D: TwoAdicSubgroupDft<F, Evaluations = RowMajorMatrix<F>>,
>() -> Layout {
    D::LAYOUT
}

fn layout_in_view<
    F: TwoAdicField,
    D: TwoAdicSubgroupDft<F, Evaluations = BitReversedMatrixView<RowMajorMatrix<F>>>,
>() -> Layout {
    D::LAYOUT
}

fn layouts<F: TwoAdicField>() -> [Layout; 5] {
    [
        layout_in_rows::<F, NaiveDft>(),
        layout_in_rows::<F, Radix2Dit<F>>(),
        layout_in_rows::<F, Radix2Bowers>(),
        layout_in_view::<F, Radix2DitParallel<F>>(),
        layout_in_rows::<F, Radix2DFTSmallBatch<F>>(),
    ]
}

// A call of an engine.
#[derive(Clone, Copy)]
pub(crate) enum Call {
    Dft,
    CosetDft,
    Idft,
    CosetIdft,
    Lde,
    CosetLde,
}

// What is asked, of which numbers, how many to a row, with how many added bits, on which coset, and what is answered.
pub(crate) type Row = (Call, &'static [u64], usize, usize, u64, &'static [u64]);

// Rows in natural order.
fn natural<F, E: Evaluations<F>>(
    rt: &impl Abort,
    answer: Result<E, DftError>,
) -> RowMajorMatrix<F> {
    answer.expect(rt, "memory").to_row_major_matrix()
}

fn transformed<F: TwoAdicField, D: TwoAdicSubgroupDft<F>>(
    rt: &impl Abort,
    engine: &mut D,
    call: Call,
    mat: RowMajorMatrix<F>,
    shift: F,
) -> RowMajorMatrix<F> {
    assert!(rt; fits_dft::<F>(mat.height(), mat.width()));
    match call {
        Call::Dft => natural(rt, dft_batch(engine, mat)),
        Call::CosetDft => natural(rt, coset_dft_batch(engine, mat, shift)),
        Call::Idft => idft_batch(engine, mat).expect(rt, "memory"),
        _ => {
            assert!(rt; shift.try_inverse().is_some());
            coset_idft_batch(engine, mat, shift).expect(rt, "memory")
        }
    }
}

fn extended<F: TwoAdicField, D: TwoAdicSubgroupDft<F>>(
    rt: &impl Abort,
    engine: &mut D,
    call: Call,
    mat: RowMajorMatrix<F>,
    added_bits: usize,
    shift: F,
) -> RowMajorMatrix<F> {
    assert!(rt; fits_lde::<F>(mat.height(), mat.width(), added_bits));
    match call {
        Call::Lde => natural(rt, lde_batch(engine, mat, added_bits)),
        _ => natural(rt, coset_lde_batch(engine, mat, added_bits, shift)),
    }
}

fn column_transformed<F: TwoAdicField, D: TwoAdicSubgroupDft<F>>(
    rt: &impl Abort,
    engine: &mut D,
    call: Call,
    vec: Vec<F>,
    shift: F,
) -> Vec<F> {
    assert!(rt; fits_dft::<F>(vec.len(), 1));
    let answer = match call {
        Call::Dft => dft(engine, vec),
        Call::CosetDft => coset_dft(engine, vec, shift),
        Call::Idft => idft(engine, vec),
        _ => {
            assert!(rt; shift.try_inverse().is_some());
            coset_idft(engine, vec, shift)
        }
    };
    answer.expect(rt, "memory")
}

fn column_extended<F: TwoAdicField, D: TwoAdicSubgroupDft<F>>(
    rt: &impl Abort,
    engine: &mut D,
    call: Call,
    vec: Vec<F>,
    added_bits: usize,
    shift: F,
) -> Vec<F> {
    assert!(rt; fits_lde::<F>(vec.len(), 1, added_bits));
    let answer = match call {
        Call::Lde => lde(engine, vec, added_bits),
        _ => coset_lde(engine, vec, added_bits, shift),
    };
    answer.expect(rt, "memory")
}

fn extends(call: Call) -> bool {
    match call {
        Call::Lde | Call::CosetLde => true,
        _ => false,
    }
}

// The answer to a row, as a matrix.
fn matrix_answer<F: CanonicalField, D: TwoAdicSubgroupDft<F>>(
    rt: &impl Abort,
    engine: &mut D,
    call: Call,
    mat: RowMajorMatrix<F>,
    added_bits: usize,
    shift: F,
) -> RowMajorMatrix<F> {
    if extends(call) {
        extended(rt, engine, call, mat, added_bits, shift)
    } else {
        transformed(rt, engine, call, mat, shift)
    }
}

// The answer to a row, as a column.
fn column_answer<F: CanonicalField, D: TwoAdicSubgroupDft<F>>(
    rt: &impl Abort,
    engine: &mut D,
    call: Call,
    vec: Vec<F>,
    added_bits: usize,
    shift: F,
) -> Vec<F> {
    if extends(call) {
        column_extended(rt, engine, call, vec, added_bits, shift)
    } else {
        column_transformed(rt, engine, call, vec, shift)
    }
}

// Stops the test where an engine answers a row otherwise.
fn row_on<F: CanonicalField, D: TwoAdicSubgroupDft<F>>(
    rt: &impl Abort,
    alloc: Global,
    engine: &mut D,
    (call, numbers, width, added_bits, shift, answer): Row,
) {
    let shift = F::new(shift).expect(rt, "a number below the modulus");
    let mat: RowMajorMatrix<F> = matrix(rt, alloc, numbers, width);
    let found = matrix_answer(rt, engine, call, mat, added_bits, shift);
    are(rt, alloc, found.values(), answer);
    if width == 1 {
        let vec: Vec<F> = list(rt, alloc, numbers);
        let found = column_answer(rt, engine, call, vec, added_bits, shift);
        are(rt, alloc, found.as_slice(), answer);
    }
}

pub(crate) fn rows_on<F: CanonicalField, D: TwoAdicSubgroupDft<F>>(
    rt: &impl Abort,
    alloc: Global,
    rows: &[Row],
) {
    let mut engine = D::default();
    for row in rows {
        row_on(rt, alloc, &mut engine, *row);
        add_products::<F, D>(&mut engine, Products::new());
    }
}

// Each engine answers them one after another, so cosets come one after another too.
const ROWS: [Row; 20] = [
    (
        Call::Dft,
        &[5, 2, 0, 4, 3, 0],
        3,
        0,
        1,
        &[9, 5, 0, 1, 2013265920, 0],
    ),
    (
        Call::Dft,
        &[1, 2, 3, 4],
        1,
        0,
        1,
        &[10, 569722814, 2013265919, 1443543103],
    ),
    (
        Call::Idft,
        &[10, 569722814, 2013265919, 1443543103],
        1,
        0,
        1,
        &[1, 2, 3, 4],
    ),
    (Call::Idft, &[9, 1], 1, 0, 1, &[5, 4]),
    (Call::CosetDft, &[5, 4], 1, 0, 2, &[13, 2013265918]),
    (Call::CosetDft, &[5, 4], 1, 0, 3, &[17, 2013265914]),
    (Call::CosetDft, &[5, 4], 1, 0, 2, &[13, 2013265918]),
    (Call::CosetDft, &[5, 4], 1, 0, 0, &[5, 5]),
    (Call::CosetIdft, &[13, 2013265918], 1, 0, 2, &[5, 4]),
    (Call::Lde, &[9, 1], 1, 1, 1, &[9, 873820294, 1, 1139445637]),
    (Call::CosetIdft, &[9, 1], 1, 0, 2, &[5, 2]),
    (
        Call::CosetDft,
        &[5, 2, 0, 0],
        1,
        0,
        2,
        &[9, 873820294, 1, 1139445637],
    ),
    (Call::CosetLde, &[9, 1], 1, 1, 0, &[5, 5, 5, 5]),
    (Call::Dft, &[42, 7], 2, 0, 1, &[42, 7]),
    (
        Call::CosetLde,
        &[42, 7],
        2,
        2,
        31,
        &[42, 7, 42, 7, 42, 7, 42, 7],
    ),
    (
        Call::CosetLde,
        &[7, 7],
        1,
        3,
        31,
        &[7, 7, 7, 7, 7, 7, 7, 7, 7, 7, 7, 7, 7, 7, 7, 7],
    ),
    (
        Call::Dft,
        &[13, 0, 0, 0, 0, 0, 0, 0],
        1,
        0,
        1,
        &[13, 13, 13, 13, 13, 13, 13, 13],
    ),
    (
        Call::Idft,
        &[7, 7, 7, 7, 7, 7, 7, 7],
        1,
        0,
        1,
        &[7, 0, 0, 0, 0, 0, 0, 0],
    ),
    (
        Call::Dft,
        &[0, 0, 0, 0, 0, 0, 0, 0],
        1,
        0,
        1,
        &[0, 0, 0, 0, 0, 0, 0, 0],
    ),
    (Call::Dft, &[5, 4], 1, 0, 1, &[9, 1]),
];

#[test]
fn each_engine_answers_the_rows(rt: HostRuntime) {
    over_baby_bear(&rt, rt.alloc(), Topic::Rows(&ROWS));
}

const ROWS_OF_GOLDILOCKS: [Row; 1] = [(
    Call::Dft,
    &[0, 1, 0, 0],
    1,
    0,
    1,
    &[
        1,
        281474976710656,
        18446744069414584320,
        18446462594437873665,
    ],
)];

#[test]
fn each_engine_answers_the_rows_of_goldilocks(rt: HostRuntime) {
    over_goldilocks(&rt, rt.alloc(), Topic::Rows(&ROWS_OF_GOLDILOCKS));
}

// The physical rows of the engine that leaves them reversed.
fn physical<F: CanonicalField>(rt: &impl Abort, alloc: Global) {
    let mat: RowMajorMatrix<F> = matrix(rt, alloc, &[1, 2, 3, 4], 1);
    assert!(rt; fits_dft::<F>(mat.height(), mat.width()));
    let values: BitReversedMatrixView<RowMajorMatrix<F>> = Radix2DitParallel::default()
        .dft_batch(mat)
        .expect(rt, "memory");
    are(
        rt,
        alloc,
        values.inner().values(),
        &[10, 2013265919, 569722814, 1443543103],
    );
}

// The heights of blocks: the whole output, but for one engine.
fn block_heights<F: TwoAdicField>(rt: &impl Abort) {
    for log_h in 0..9usize {
        for added_bits in 0..4usize {
            let whole = Some(1usize << (log_h + added_bits));
            let some = Some(1usize << (log_h / 2));
            assert!(rt; whole_blocks::<F>(log_h, added_bits) == [whole; 4]);
            let parallel = Radix2DitParallel::<F>::default();
            assert!(rt; block_height(&parallel, log_h, added_bits) == some);
        }
    }
}

fn whole_blocks<F: TwoAdicField>(log_h: usize, added_bits: usize) -> [Option<usize>; 4] {
    [
        block_height::<F, NaiveDft>(&NaiveDft::default(), log_h, added_bits),
        block_height(&Radix2Dit::<F>::default(), log_h, added_bits),
        block_height::<F, Radix2Bowers>(&Radix2Bowers::default(), log_h, added_bits),
        block_height(&Radix2DFTSmallBatch::<F>::default(), log_h, added_bits),
    ]
}

fn as_in_the_table<F: CanonicalField>(rt: &impl Abort, alloc: Global) {
    let (natural, reversed) = (Layout::Natural, Layout::BitReversed);
    assert!(rt; layouts::<F>() == [natural, natural, reversed, reversed, natural]);
    physical::<F>(rt, alloc);
    block_heights::<F>(rt);
}

#[test]
fn engines_are_as_in_the_table(rt: HostRuntime) {
    as_in_the_table::<BabyBear>(&rt, rt.alloc());
}
