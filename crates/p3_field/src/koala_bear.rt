//! The field of the numbers below `2^31 - 2^24 + 1`.

ghost use Rattle.std.proofs.Common.{lit<, refl};
ghost use Rattle.p3_field.specs.Fields.{koala_bear_numbers};

use crate::residue31::{Numbers, Residue31, ResiduePacking};
use crate::residue31_x8::Residue31X8;
use crate::sixteen_lanes::SixteenLanes;

/// The numbers of `KoalaBear`.
#[derive(Clone, Copy, Debug)]
pub struct KoalaBearNumbers;

/// An integer modulo `2^31 - 2^24 + 1`, by its number below the modulus. Packed values have eight lanes;
/// `WideKoalaBear` is the same field in sixteen.
pub type KoalaBear = Residue31<KoalaBearNumbers>;

/// The same field in sixteen lanes: it answers the same, and is meant for rows of sixteen entries or more in programs
/// that are built for x86-64-v4.
pub type WideKoalaBear = Residue31<SixteenLanes<KoalaBearNumbers>>;

/// Eight elements.
pub type KoalaBearX8 = Residue31X8<KoalaBearNumbers>;

// The generators of the subgroups of order 1, 2, 4, .., `2^24`: each is the square of the next.
const GENERATORS: [u32; 25] = [
    1, 2130706432, 2113994754, 1748172362, 148625052, 170455089, 1548376985, 699882112, 392596362,
    665670555, 860702919, 2000983452, 1989134074, 809067698, 1047035213, 1168510561, 1848593786,
    373019801, 1816824389, 339671193, 1364057261, 1213133211, 542991299, 1760025929, 1791270792,
];

impl Numbers for KoalaBearNumbers {
    ghost numbers = { koala_bear_numbers };

    const MODULUS: u32 = 2130706433;

    ghost MODULUS = { koala_bear_numbers.modulus };

    const GENERATOR: u32 = 3;

    ghost GENERATOR = { koala_bear_numbers.generator.number };

    const TWO_ADICITY: usize = 24;

    ghost TWO_ADICITY = { koala_bear_numbers.two_adicity };

    ghost modulus_law = { refl };

    ghost generator_law = { refl };

    ghost two_adicity_law = { refl };

    ghost small_law = { lit< tt };

    ghost quotient_law = { lit< tt };

    fn generator_number(bits: usize) -> u32 {
        GENERATORS[bits]
    }
}

impl ResiduePacking for KoalaBearNumbers {
    ghost use Rattle.std.proofs.Common.{lit≤};

    type Packing = Residue31X8<KoalaBearNumbers>;

    ghost some_law = { lit≤ tt };
}
