// What some engines have besides the calls of all.

ghost use Rattle.std.specs.Prelude.{◌≡◌, ◌^◌, ◌<◌, ◌≤◌, ℕ};

use p3_dft::{
    BabyBear, DftError, NaiveDft, Radix2Bowers, Radix2DFTSmallBatch, Radix2Dit, Radix2DitParallel,
    TwoAdicField,
};
use std::alloc::{AllocError, Global};
use std::process::Abort;

// Engines by their names, of any field.
fn new_engines<F: TwoAdicField>() -> (
    NaiveDft,
    Radix2Dit<F>,
    Radix2Bowers,
    Radix2DitParallel<F>,
    Radix2DFTSmallBatch<F>,
) {
    (
        NaiveDft::default(),
        Radix2Dit::default(),
        Radix2Bowers::default(),
        Radix2DitParallel::default(),
        Radix2DFTSmallBatch::default(),
    )
}

fn copies<F: TwoAdicField>(
    naive: &NaiveDft,
    dit: &Radix2Dit<F>,
    bowers: &Radix2Bowers,
) -> Result<(NaiveDft, Radix2Dit<F>, Radix2Bowers), AllocError> {
    Ok((naive.clone()?, dit.clone()?, bowers.clone()?))
}

fn copies_of_others<F: TwoAdicField>(
    parallel: &Radix2DitParallel<F>,
    small: &Radix2DFTSmallBatch<F>,
) -> Result<(Radix2DitParallel<F>, Radix2DFTSmallBatch<F>), AllocError> {
    Ok((parallel.clone()?, small.clone()?))
}

fn prepare_dit<F: TwoAdicField>(
    dft: &mut Radix2Dit<F>,
    alloc: Global,
    log_h: usize,
) -> Result<(), DftError>
    requires within { log_h ≤ F.TWO_ADICITY }
    requires size { 2 ^ log_h < 2 ^ 64 }
{
    dft.prepare(alloc, log_h)
}

fn prepare_parallel<F: TwoAdicField>(
    dft: &mut Radix2DitParallel<F>,
    alloc: Global,
    log_h: usize,
) -> Result<(), DftError>
    requires within { log_h ≤ F.TWO_ADICITY }
    requires size { 2 ^ log_h < 2 ^ 64 }
{
    dft.prepare(alloc, log_h)
}

fn prepare_small<F: TwoAdicField>(
    dft: &mut Radix2DFTSmallBatch<F>,
    alloc: Global,
    log_h: usize,
) -> Result<(), DftError>
    requires within { log_h ≤ F.TWO_ADICITY }
    requires size { 2 ^ log_h < 2 ^ 64 }
{
    dft.prepare(alloc, log_h)
}

fn are_prepared<F: TwoAdicField>(
    dit: &Radix2Dit<F>,
    parallel: &Radix2DitParallel<F>,
    small: &Radix2DFTSmallBatch<F>,
    log_h: usize,
) -> [bool; 3] {
    [
        dit.is_prepared(log_h),
        parallel.is_prepared(log_h),
        small.is_prepared(log_h),
    ]
}

fn new<F: TwoAdicField>(alloc: Global, n: usize) -> Result<Radix2DFTSmallBatch<F>, DftError>
    requires { 2 ≤ n → (k : ℕ) × (n ≡ 2 ^ k) × (k ≤ F.TWO_ADICITY) }
{
    Radix2DFTSmallBatch::new(alloc, n)
}

fn with_tile<F: TwoAdicField>(
    alloc: Global,
    n: usize,
    tile: usize,
) -> Result<Radix2DFTSmallBatch<F>, DftError>
    requires height { 2 ≤ n → (k : ℕ) × (n ≡ 2 ^ k) × (k ≤ F.TWO_ADICITY) }
    requires nonzero { 1 ≤ tile }
    requires tile { tile ≤ 2 ^ 32 }
{
    Radix2DFTSmallBatch::with_tile(alloc, n, tile)
}

// New, prepared for eight rows, and cloned.
fn prepares<F: TwoAdicField>(rt: &impl Abort, alloc: Global) {
    let (_naive, mut dit, _bowers, mut parallel, mut small) = new_engines::<F>();
    assert!(rt; are_prepared(&dit, &parallel, &small, 0) == [true; 3]);
    assert!(rt; are_prepared(&dit, &parallel, &small, 3) == [false; 3]);
    assert!(rt; F::TWO_ADICITY >= 3);
    prepare_dit(&mut dit, alloc, 3).expect(rt, "memory");
    prepare_parallel(&mut parallel, alloc, 3).expect(rt, "memory");
    prepare_small(&mut small, alloc, 3).expect(rt, "memory");
    assert!(rt; are_prepared(&dit, &parallel, &small, 3) == [true; 3]);
    let (parallel, small) = copies_of_others(&parallel, &small).expect(rt, "memory");
    assert!(rt; are_prepared(&dit, &parallel, &small, 3) == [true, false, false]);
}

// With no tables.
fn of_no_size<F: TwoAdicField>(rt: &impl Abort, alloc: Global) {
    let none: Radix2DFTSmallBatch<F> = new(alloc, 0).expect(rt, "memory");
    let one: Radix2DFTSmallBatch<F> = with_tile(alloc, 1, 1).expect(rt, "memory");
    assert!(rt; !none.is_prepared(1) && !one.is_prepared(1));
}

fn of_any_field<F: TwoAdicField>(rt: &impl Abort, alloc: Global) {
    prepares::<F>(rt, alloc);
    of_no_size::<F>(rt, alloc);
}

#[test]
fn engines_are_prepared(rt: HostRuntime) {
    of_any_field::<BabyBear>(&rt, rt.alloc());
}
