// Vector spaces: an element has the coordinates that it was made of.

ghost use Rattle.std.specs.Prelude.{◌≡◌, ◌≤◌, length};

use super::{FieldName, Topic, over, row};
use p3_field::{BabyBear, BasedVectorSpace, CanonicalField, Coordinates, Field};
use std::alloc::Global;
use std::process::Abort;

// The element with these coordinates has them, and is the one that has.
fn there_and_back<F: Field, V: BasedVectorSpace<F> + PartialEq>(rt: &impl Abort, numbers: &[F]) {
    assert_eq!(rt; V::DIMENSION, numbers.len());
    let element = V::from_coordinates(numbers);
    for i in 0..numbers.len() {
        assert!(rt; element.coordinate(i) == numbers[i]);
    }
    assert!(rt; element == V::from_coordinates(numbers));
}

// In one dimension.
fn in_dimension<const N: usize>(rt: &impl Abort, all: &[BabyBear])
    requires few { N ≤ 8 }
    requires all { length all.now ≡ 8 }
{
    there_and_back::<BabyBear, Coordinates<BabyBear, N>>(rt, &all[..N]);
}

#[test]
fn an_element_has_the_coordinates_it_was_made_of(rt: HostRuntime) {
    let numbers = [1u8, 2, 3, 4, 5, 6, 7, 8].map(|n: u8| -> BabyBear { BabyBear::from_u8(n) });
    in_dimension::<1>(&rt, &numbers);
    in_dimension::<2>(&rt, &numbers);
    in_dimension::<3>(&rt, &numbers);
    in_dimension::<4>(&rt, &numbers);
    in_dimension::<5>(&rt, &numbers);
    in_dimension::<6>(&rt, &numbers);
    in_dimension::<7>(&rt, &numbers);
    in_dimension::<8>(&rt, &numbers);
}

pub(crate) fn in_dimension_one<F: CanonicalField>(rt: &impl Abort, alloc: Global) {
    let two: Vec<F> = row(rt, alloc, 1, 2, 0);
    there_and_back::<F, F>(rt, two.as_slice());
}

#[test]
fn a_field_is_a_space_of_dimension_one(rt: HostRuntime) {
    for field in [
        FieldName::BabyBear,
        FieldName::KoalaBear,
        FieldName::Goldilocks,
    ] {
        over(&rt, rt.alloc(), field, Topic::OneDimension);
    }
}

#[test]
fn a_vector_is_made_of_its_coordinates(rt: HostRuntime) {
    let pair = Coordinates::new([BabyBear::ONE, BabyBear::TWO]);
    assert!(rt; pair.coordinate(0) == BabyBear::ONE);
    assert!(rt; pair.coordinate(1) == BabyBear::TWO);
}
