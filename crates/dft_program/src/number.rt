//! Numbers on the command line.

ghost use Rattle.std.specs.Prelude.{◌≡◌};
ghost use Rattle.dft_program.specs.Numbers.{number_of};

/// The number that a word is: one or more ASCII digits of a value below 2^64.
///
/// Any number of leading zeros may stand, and no sign.
#[tactic(auto, using(crate::proofs::WordNumbers::parsed, crate::proofs::WordNumbers::signed))]
pub fn number(word: &str) -> Option<u64>
    ensures { result ≡ number_of word.now }
{
    if word.starts_with('+') {
        None
    } else {
        word.parse::<u64>().ok()
    }
}
