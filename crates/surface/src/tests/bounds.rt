// The bounds of the traits and the derives of the types, each asked for by a function that does nothing else.

use p3_dft::{
    BabyBear, BitReversedMatrixView, BlockLimit, BlockRefused, BlocksStopped, Butterfly,
    CanonicalField, DftError, DifButterfly, DifButterflyZeros, DitButterfly, Evaluations, Field,
    Goldilocks, Job, JobsStopped, Layout, NaiveDft, Packable, PackedField, Products, Radix2Bowers,
    Radix2DFTSmallBatch, Radix2Dit, Radix2DitParallel, Recorder, ReedSolomon, RowMajorMatrix,
    ScaledDitButterfly, TwiddleFreeButterfly, TwoAdicField, TwoAdicSubgroupDft, Unpublished,
};
use std::error::Error;
use std::fmt::{Debug, Display};
use std::ops::{Add, Mul, Neg, Sub};

fn is_copy<T: Copy + Clone>() {}

fn is_eq<T: PartialEq + Eq>() {}

fn is_ord<T: PartialOrd + Ord>() {}

fn is_debug<T: Debug>() {}

fn is_error<T: Display + Error>() {}

fn is_engine<T: Default + Clone>() {}

fn has_operators<
    T: Add<T, Output = T> + Sub<T, Output = T> + Mul<T, Output = T> + Neg<Output = T>,
>() {}

// Traits.

fn field<F: Field>() {
    is_copy::<F>();
    is_eq::<F>();
    is_ord::<F>();
    has_operators::<F>();
}

fn packed<F: Field, PF: PackedField<Scalar = F>>() {
    is_copy::<PF>();
}

fn packable<F: Packable>() {
    field::<F>();
    packed::<F, F>();
    packed::<F, F::Packing>();
}

fn two_adic<F: TwoAdicField>() {
    packable::<F>();
}

fn canonical<F: CanonicalField>() {
    two_adic::<F>();
}

fn butterfly<F: Packable, B: Butterfly<F>>() {
    is_copy::<B>();
}

fn evaluations<F, E: Evaluations<F>>() {}

fn engine<F: TwoAdicField, D: TwoAdicSubgroupDft<F>>() {
    is_engine::<D>();
    evaluations::<F, D::Evaluations>();
}

// Types of any field.

fn butterflies<F: Packable>() {
    butterfly::<F, DitButterfly<F>>();
    butterfly::<F, DifButterfly<F>>();
    butterfly::<F, DifButterflyZeros<F>>();
    butterfly::<F, ScaledDitButterfly<F>>();
    butterfly::<F, TwiddleFreeButterfly>();
}

fn engines<F: TwoAdicField>() {
    engine::<F, NaiveDft>();
    engine::<F, Radix2Dit<F>>();
    engine::<F, Radix2Bowers>();
    engine::<F, Radix2DitParallel<F>>();
    engine::<F, Radix2DFTSmallBatch<F>>();
}

fn matrices<F: Field>() {
    is_eq::<RowMajorMatrix<F>>();
    is_eq::<BitReversedMatrixView<RowMajorMatrix<F>>>();
    evaluations::<F, RowMajorMatrix<F>>();
    evaluations::<F, BitReversedMatrixView<RowMajorMatrix<F>>>();
}

// Named types.

fn number<F: CanonicalField + Debug>() {
    canonical::<F>();
    butterflies::<F>();
    engines::<F>();
    matrices::<F>();
    is_debug::<F>();
}

#[test]
fn fields_have_their_bounds() {
    number::<BabyBear>();
    number::<Goldilocks>();
}

#[test]
fn small_types_have_their_derives() {
    is_copy::<Layout>();
    is_eq::<Layout>();
    is_debug::<Layout>();
    is_copy::<DftError>();
    is_eq::<DftError>();
    is_debug::<DftError>();
    is_error::<DftError>();
    is_copy::<BlockRefused>();
    is_eq::<BlockRefused>();
}

// Types by their names and parameters.
fn takes<F: TwoAdicField, D, M>(
    _code: &ReedSolomon<F, D>,
    _recorder: &Recorder<F>,
    _limit: &BlockLimit,
    _job: &Job<F>,
    _stopped: &JobsStopped<F>,
    _blocks: &BlocksStopped<M, BlockLimit, BlockRefused>,
    _unpublished: &Unpublished<M>,
    _products: &Products,
) {}
