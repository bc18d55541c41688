//! The field of the numbers below `2^31 - 2^27 + 1`.

ghost use Rattle.std.proofs.Common.{lit<, refl};
ghost use Rattle.p3_field.specs.Fields.{baby_bear_numbers};

use crate::residue31::{Numbers, Residue31, ResiduePacking};
use crate::residue31_x8::Residue31X8;
use crate::sixteen_lanes::SixteenLanes;

/// The numbers of `BabyBear`.
#[derive(Clone, Copy, Debug)]
pub struct BabyBearNumbers;

/// An integer modulo `2^31 - 2^27 + 1`, by its number below the modulus. Packed values have eight lanes; `WideBabyBear`
/// is the same field in sixteen.
pub type BabyBear = Residue31<BabyBearNumbers>;

/// The same field in sixteen lanes: it answers the same, and is meant for rows of sixteen entries or more in programs
/// that are built for x86-64-v4.
pub type WideBabyBear = Residue31<SixteenLanes<BabyBearNumbers>>;

/// Eight elements.
pub type BabyBearX8 = Residue31X8<BabyBearNumbers>;

// The generators of the subgroups of order 1, 2, 4, .., `2^27`: each is the square of the next.
const GENERATORS: [u32; 28] = [
    1, 2013265920, 1728404513, 1592366214, 196396260, 760005850, 1721589904, 397765732, 1732600167,
    1753498361, 341742893, 1340477990, 1282623253, 298008106, 1657000625, 2009781145, 1421947380,
    1286330022, 1559589183, 1049899240, 195061667, 414040701, 570250684, 1267047229, 1003846038,
    1149491290, 975630072, 440564289,
];

impl Numbers for BabyBearNumbers {
    ghost numbers = { baby_bear_numbers };

    const MODULUS: u32 = 2013265921;

    ghost MODULUS = { baby_bear_numbers.modulus };

    const GENERATOR: u32 = 31;

    ghost GENERATOR = { baby_bear_numbers.generator.number };

    const TWO_ADICITY: usize = 27;

    ghost TWO_ADICITY = { baby_bear_numbers.two_adicity };

    ghost modulus_law = { refl };

    ghost generator_law = { refl };

    ghost two_adicity_law = { refl };

    ghost small_law = { lit< tt };

    ghost quotient_law = { lit< tt };

    fn generator_number(bits: usize) -> u32 {
        GENERATORS[bits]
    }
}

impl ResiduePacking for BabyBearNumbers {
    ghost use Rattle.std.proofs.Common.{lit≤};

    type Packing = Residue31X8<BabyBearNumbers>;

    ghost some_law = { lit≤ tt };
}
