// Vector spaces, and the calls of an engine over them.

ghost use Rattle.std.specs.Prelude.{◌*◌, ◌<◌, ◌≡◌, length, vec_len};
ghost use Rattle.p3_field.specs.Ring.{IsInvertible};
ghost use Rattle.p3_matrix.specs.RowMajor.{height};
ghost use Rattle.p3_dft.specs.Shapes.{FitsDft, FitsLde};

use super::transforms::{Call, Row};
use super::{Topic, are, list, over_baby_bear};
use p3_dft::{
    BabyBear, BasedVectorSpace, CanonicalField, Coordinates, DftError, Field, RowMajorMatrix,
    TwoAdicField, TwoAdicSubgroupDft, fits_dft, fits_lde,
};
use std::alloc::Global;
use std::process::Abort;

fn dimension<F, V: BasedVectorSpace<F>>() -> usize {
    V::DIMENSION
}

fn coordinate<F, V: BasedVectorSpace<F>>(element: &V, i: usize) -> F
    requires { i < V.DIMENSION }
{
    element.coordinate(i)
}

fn from_coordinates<F, V: BasedVectorSpace<F>>(from: &[F]) -> V
    requires { length from.now ≡ V.DIMENSION }
{
    V::from_coordinates(from)
}

fn dft_algebra<F: TwoAdicField, V: BasedVectorSpace<F>, D: TwoAdicSubgroupDft<F>>(
    dft: &mut D,
    vec: Vec<V>,
) -> Result<Vec<V>, DftError>
    requires { FitsDft F.TWO_ADICITY (vec_len vec) V.DIMENSION }
{
    dft.dft_algebra(vec)
}

fn coset_dft_algebra<F: TwoAdicField, V: BasedVectorSpace<F>, D: TwoAdicSubgroupDft<F>>(
    dft: &mut D,
    vec: Vec<V>,
    shift: F,
) -> Result<Vec<V>, DftError>
    requires { FitsDft F.TWO_ADICITY (vec_len vec) V.DIMENSION }
{
    dft.coset_dft_algebra(vec, shift)
}

fn idft_algebra<F: TwoAdicField, V: BasedVectorSpace<F>, D: TwoAdicSubgroupDft<F>>(
    dft: &mut D,
    vec: Vec<V>,
) -> Result<Vec<V>, DftError>
    requires { FitsDft F.TWO_ADICITY (vec_len vec) V.DIMENSION }
{
    dft.idft_algebra(vec)
}

fn coset_idft_algebra<F: TwoAdicField, V: BasedVectorSpace<F>, D: TwoAdicSubgroupDft<F>>(
    dft: &mut D,
    vec: Vec<V>,
    shift: F,
) -> Result<Vec<V>, DftError>
    requires fits { FitsDft F.TWO_ADICITY (vec_len vec) V.DIMENSION }
    requires invertible { IsInvertible F.ring (F.value shift) }
{
    dft.coset_idft_algebra(vec, shift)
}

fn lde_algebra<F: TwoAdicField, V: BasedVectorSpace<F>, D: TwoAdicSubgroupDft<F>>(
    dft: &mut D,
    vec: Vec<V>,
    added_bits: usize,
) -> Result<Vec<V>, DftError>
    requires { FitsLde F.TWO_ADICITY (vec_len vec) V.DIMENSION added_bits }
{
    dft.lde_algebra(vec, added_bits)
}

fn coset_lde_algebra<F: TwoAdicField, V: BasedVectorSpace<F>, D: TwoAdicSubgroupDft<F>>(
    dft: &mut D,
    vec: Vec<V>,
    added_bits: usize,
    shift: F,
) -> Result<Vec<V>, DftError>
    requires { FitsLde F.TWO_ADICITY (vec_len vec) V.DIMENSION added_bits }
{
    dft.coset_lde_algebra(vec, added_bits, shift)
}

fn dft_algebra_batch<F: TwoAdicField, V: BasedVectorSpace<F>, D: TwoAdicSubgroupDft<F>>(
    dft: &mut D,
    mat: RowMajorMatrix<V>,
) -> Result<RowMajorMatrix<V>, DftError>
    requires { FitsDft F.TWO_ADICITY (height mat) (mat.width * V.DIMENSION) }
{
    dft.dft_algebra_batch(mat)
}

fn coset_dft_algebra_batch<F: TwoAdicField, V: BasedVectorSpace<F>, D: TwoAdicSubgroupDft<F>>(
    dft: &mut D,
    mat: RowMajorMatrix<V>,
    shift: F,
) -> Result<RowMajorMatrix<V>, DftError>
    requires { FitsDft F.TWO_ADICITY (height mat) (mat.width * V.DIMENSION) }
{
    dft.coset_dft_algebra_batch(mat, shift)
}

fn idft_algebra_batch<F: TwoAdicField, V: BasedVectorSpace<F>, D: TwoAdicSubgroupDft<F>>(
    dft: &mut D,
    mat: RowMajorMatrix<V>,
) -> Result<RowMajorMatrix<V>, DftError>
    requires { FitsDft F.TWO_ADICITY (height mat) (mat.width * V.DIMENSION) }
{
    dft.idft_algebra_batch(mat)
}

fn coset_idft_algebra_batch<F: TwoAdicField, V: BasedVectorSpace<F>, D: TwoAdicSubgroupDft<F>>(
    dft: &mut D,
    mat: RowMajorMatrix<V>,
    shift: F,
) -> Result<RowMajorMatrix<V>, DftError>
    requires fits { FitsDft F.TWO_ADICITY (height mat) (mat.width * V.DIMENSION) }
    requires invertible { IsInvertible F.ring (F.value shift) }
{
    dft.coset_idft_algebra_batch(mat, shift)
}

fn lde_algebra_batch<F: TwoAdicField, V: BasedVectorSpace<F>, D: TwoAdicSubgroupDft<F>>(
    dft: &mut D,
    mat: RowMajorMatrix<V>,
    added_bits: usize,
) -> Result<RowMajorMatrix<V>, DftError>
    requires { FitsLde F.TWO_ADICITY (height mat) (mat.width * V.DIMENSION) added_bits }
{
    dft.lde_algebra_batch(mat, added_bits)
}

fn coset_lde_algebra_batch<F: TwoAdicField, V: BasedVectorSpace<F>, D: TwoAdicSubgroupDft<F>>(
    dft: &mut D,
    mat: RowMajorMatrix<V>,
    added_bits: usize,
    shift: F,
) -> Result<RowMajorMatrix<V>, DftError>
    requires { FitsLde F.TWO_ADICITY (height mat) (mat.width * V.DIMENSION) added_bits }
{
    dft.coset_lde_algebra_batch(mat, added_bits, shift)
}

fn transformed<F: TwoAdicField, V: BasedVectorSpace<F> + Copy, D: TwoAdicSubgroupDft<F>>(
    rt: &impl Abort,
    engine: &mut D,
    call: Call,
    vec: Vec<V>,
    shift: F,
) -> Vec<V> {
    assert!(rt; fits_dft::<F>(vec.len(), V::DIMENSION));
    let answer = match call {
        Call::Dft => dft_algebra(engine, vec),
        Call::CosetDft => coset_dft_algebra(engine, vec, shift),
        Call::Idft => idft_algebra(engine, vec),
        _ => {
            assert!(rt; shift.try_inverse().is_some());
            coset_idft_algebra(engine, vec, shift)
        }
    };
    answer.expect(rt, "memory")
}

fn extended<F: TwoAdicField, V: BasedVectorSpace<F> + Copy, D: TwoAdicSubgroupDft<F>>(
    rt: &impl Abort,
    engine: &mut D,
    call: Call,
    vec: Vec<V>,
    added_bits: usize,
    shift: F,
) -> Vec<V> {
    assert!(rt; fits_lde::<F>(vec.len(), V::DIMENSION, added_bits));
    let answer = match call {
        Call::Lde => lde_algebra(engine, vec, added_bits),
        _ => coset_lde_algebra(engine, vec, added_bits, shift),
    };
    answer.expect(rt, "memory")
}

// The elements with these coordinates, and the coordinates of elements.
fn elements_of<F: Field, V: BasedVectorSpace<F>>(
    rt: &impl Abort,
    alloc: Global,
    coordinates: &[F],
) -> Vec<V> {
    assert!(rt; V::DIMENSION != 0);
    let mut elements = Vec::new(alloc);
    for row in coordinates.chunks_exact(V::DIMENSION) {
        assert!(rt; row.len() == V::DIMENSION);
        elements
            .push(from_coordinates::<F, V>(row))
            .expect(rt, "memory");
    }
    elements
}

fn coordinates_of<F: Field, V: BasedVectorSpace<F>>(
    rt: &impl Abort,
    alloc: Global,
    elements: &[V],
) -> Vec<F> {
    let mut entries = Vec::new(alloc);
    for element in elements {
        for t in 0..dimension::<F, V>() {
            assert!(rt; t < V::DIMENSION);
            entries.push(coordinate(element, t)).expect(rt, "memory");
        }
    }
    entries
}

fn row_on<F: CanonicalField, V: BasedVectorSpace<F> + Copy, D: TwoAdicSubgroupDft<F>>(
    rt: &impl Abort,
    alloc: Global,
    engine: &mut D,
    (call, numbers, _dimension, added_bits, shift, answer): Row,
) {
    let numbers: Vec<F> = list(rt, alloc, numbers);
    let vec: Vec<V> = elements_of(rt, alloc, numbers.as_slice());
    let shift = F::new(shift).expect(rt, "a number below the modulus");
    let found = match call {
        Call::Lde | Call::CosetLde => extended(rt, engine, call, vec, added_bits, shift),
        _ => transformed(rt, engine, call, vec, shift),
    };
    let found: Vec<F> = coordinates_of(rt, alloc, found.as_slice());
    are(rt, alloc, found.as_slice(), answer);
}

pub(crate) fn rows_on<F: CanonicalField, V: BasedVectorSpace<F> + Copy, D: TwoAdicSubgroupDft<F>>(
    rt: &impl Abort,
    alloc: Global,
    rows: &[Row],
) {
    let mut engine = D::default();
    for row in rows {
        row_on::<F, V, D>(rt, alloc, &mut engine, *row);
    }
}

// By their coordinates.
const PAIRS: [Row; 6] = [
    (Call::Dft, &[5, 1, 4, 0], 2, 0, 1, &[9, 1, 1, 1]),
    (Call::Idft, &[9, 1, 1, 1], 2, 0, 1, &[5, 1, 4, 0]),
    (
        Call::CosetDft,
        &[5, 7, 4, 0],
        2,
        0,
        2,
        &[13, 7, 2013265918, 7],
    ),
    (
        Call::CosetIdft,
        &[13, 7, 2013265918, 7],
        2,
        0,
        2,
        &[5, 7, 4, 0],
    ),
    (
        Call::Lde,
        &[9, 42, 1, 42],
        2,
        1,
        1,
        &[9, 42, 873820294, 42, 1, 42, 1139445637, 42],
    ),
    (
        Call::CosetLde,
        &[9, 7, 1, 7],
        2,
        1,
        0,
        &[5, 7, 5, 7, 5, 7, 5, 7],
    ),
];

#[test]
fn each_engine_answers_the_pairs(rt: HostRuntime) {
    over_baby_bear(&rt, rt.alloc(), Topic::Pairs(&PAIRS));
}

// A space of a user's own.
#[derive(Clone, Copy, Debug, PartialEq, Eq)]
struct Complex<F> {
    re: F,
    im: F,
}

impl<F: Field> BasedVectorSpace<F> for Complex<F> {
    ghost use Rattle.std.specs.Prelude.{[], ◌∷◌, refl};
    ghost use Rattle.std.proofs.Common.{rules};

    const DIMENSION: usize = 2;

    ghost DIMENSION = { 2 };

    ghost coordinates = { λ x. x.re ∷ x.im ∷ [] };

    fn coordinate(&self, i: usize) -> F {
        if i == 0 { self.re } else { self.im }
    }

    fn from_coordinates(from: &[F]) -> Complex<F> {
        Complex {
            re: from[0],
            im: from[1],
        }
    }

    ghost dimension_law = { λ x. refl };

    ghost coordinates_law = { λ x y same. Prim.search rules };
}

// Spaces that the library has, and one's own.
fn dimensions(rt: &impl Abort) {
    assert!(rt; dimension::<BabyBear, BabyBear>() == 1);
    assert!(rt; dimension::<BabyBear, Coordinates<BabyBear, 5>>() == 5);
    assert!(rt; dimension::<BabyBear, Complex<BabyBear>>() == 2);
}

#[test]
fn spaces_have_their_dimensions(rt: HostRuntime) {
    dimensions(&rt);
}
