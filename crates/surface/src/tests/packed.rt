// Packed values, and the counter of products.

ghost use Rattle.std.specs.Prelude.{◌≡◌, length};

use super::{is, list};
use p3_dft::{
    BabyBear, BabyBearX8, CanonicalField, Field, Goldilocks, Lanes, Packable, PackedField, Products,
};
use std::alloc::Global;
use std::mem::size_of;
use std::process::Abort;

fn width<F: Field, PF: PackedField<Scalar = F>>() -> usize {
    PF::WIDTH
}

fn load<F: Field, PF: PackedField<Scalar = F>>(from: &[F]) -> PF
    requires { length from.now ≡ PF.WIDTH }
{
    PF::load(from)
}

fn store<F: Field, PF: PackedField<Scalar = F>>(x: PF, to: &mut [F])
    requires { length to.old ≡ PF.WIDTH }
{
    x.store(to);
}

fn broadcast<F: Field, PF: PackedField<Scalar = F>>(x: F) -> PF {
    PF::broadcast(x)
}

fn sums<F: Field, PF: PackedField<Scalar = F>>(x: PF, y: PF) -> (PF, PF) {
    (x.add(y), x.sub(y))
}

fn scaled<F: Field, PF: PackedField<Scalar = F>>(x: PF, t: F, products: &mut Products) -> PF {
    x.scaled(t, products)
}

// The product of two elements, which is counted.
fn product<F: Packable>(x: F, t: F, products: &mut Products) -> F {
    p3_dft::scaled(x, t, products)
}

// A field is one lane of itself, and has a packing.

fn one_lane<F: Packable>(x: F) -> F {
    broadcast::<F, F>(x)
}

fn packing<F: Packable>(x: F) -> F::Packing {
    F::Packing::broadcast(x)
}

fn packing_of_baby_bear(x: <BabyBear as Packable>::Packing) -> BabyBearX8 {
    x
}

fn packing_of_goldilocks(x: <Goldilocks as Packable>::Packing) -> Lanes<Goldilocks, 4> {
    x
}

// The scalar may be named by the packed value alone.
fn doubled<PF: PackedField>(x: PF, products: &mut Products) -> PF
where
    PF::Scalar: Field,
{
    x.scaled(PF::Scalar::TWO, products)
}

fn added(products: &mut Products, more: Products) {
    products.add(more);
}

// Each lane and two, less one, times three.
fn computes<F: CanonicalField, PF: PackedField<Scalar = F>>(
    rt: &impl Abort,
    alloc: Global,
    numbers: &[u64],
) {
    let mut products = Products::new();
    let mut elements: Vec<F> = list(rt, alloc, numbers);
    assert!(rt; elements.len() == PF::WIDTH && width::<F, PF>() == numbers.len());
    let (sum, _difference) = sums(load::<F, PF>(elements.as_slice()), broadcast(F::TWO));
    let (_sum, difference) = sums(sum, broadcast(F::ONE));
    let tripled = scaled(difference, F::from_u8(3), &mut products);
    store(tripled, elements.as_mut_slice());
    added(&mut products, Products::new());
    for (x, number) in elements.iter().zip(numbers) {
        assert!(rt; *x == F::from_u8(3) * (F::from_usize(*number as usize) + F::ONE));
    }
}

fn in_its_packings<F: CanonicalField, PF: PackedField<Scalar = F>>(
    rt: &impl Abort,
    alloc: Global,
    numbers: &[u64],
) {
    computes::<F, PF>(rt, alloc, numbers);
    computes::<F, F>(rt, alloc, &[7]);
    is(rt, one_lane(F::TWO), 2);
}

#[test]
fn lanes_compute(rt: HostRuntime) {
    let alloc = rt.alloc();
    in_its_packings::<BabyBear, BabyBearX8>(&rt, alloc, &[1, 2, 3, 4, 5, 6, 7, 2013265920]);
    in_its_packings::<Goldilocks, Lanes<Goldilocks, 4>>(&rt, alloc, &[1, 2, 3, 4]);
}

#[test]
fn the_counter_takes_no_bytes(rt: HostRuntime) {
    assert!(rt; size_of::<Products>() == 0);
}
