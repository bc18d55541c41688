//! Words, by which callers name the elements of fields.

ghost use Rattle.std.specs.Prelude.{◌≡◌, ◌<◌, ◌≤◌, ◌↔◌, ℕ, length, IfErr, IfOk, IfSome, IsSome, IsTrue};
ghost use Rattle.std.specs.List.{All, AllZip};
ghost use Rattle.std.specs.Mem.{type_size};
ghost use Rattle.p3_matrix.specs.Room.{IsWithin};

use p3_dft::{CanonicalField, DftError, Field, growth};
use p3_field::{GoldilocksIn, GoldilocksPacking, Residue31, ResiduePacking};
use std::alloc::Global;

/// A field whose elements callers name by words of one size.
pub trait WordField: CanonicalField {
    /// An unsigned integer that holds each number below the modulus.
    type Word: Copy;

    // The number that a word is.
    ghost word_number: { Self.Word → ℕ };

    /// Whether the word's number is below the modulus.
    fn is_below(word: Self::Word) -> bool
        ensures { IsTrue result ↔ (word_number word < Self.ORDER_U64) };

    /// The element that the word names, or any where it names none: a choice that many words take at once.
    fn from_word(word: Self::Word) -> Self
        ensures { word_number word < Self.ORDER_U64 → word_number word ≡ Self.number (Self.value result) };

    /// The word that names the element.
    fn to_word(&self) -> Self::Word
        ensures { word_number result ≡ Self.number (Self.value self.now) };
}

impl<N: ResiduePacking> WordField for Residue31<N> {
    type Word = u32;

    ghost word_number = { λ n. n };

    fn is_below(word: u32) -> bool {
        (word as u64) < Residue31::<N>::ORDER_U64
    }

    fn from_word(word: u32) -> Residue31<N> {
        Residue31::new(word as u64).unwrap_or(<Residue31<N> as Field>::ZERO)
    }

    fn to_word(&self) -> u32 {
        self.as_canonical_u64() as u32
    }
}

impl<P: GoldilocksPacking> WordField for GoldilocksIn<P> {
    type Word = u64;

    ghost word_number = { λ n. n };

    fn is_below(word: u64) -> bool {
        word < GoldilocksIn::<P>::ORDER_U64
    }

    fn from_word(word: u64) -> GoldilocksIn<P> {
        GoldilocksIn::new(word).unwrap_or(<GoldilocksIn<P> as Field>::ZERO)
    }

    fn to_word(&self) -> u64 {
        self.as_canonical_u64()
    }
}

/// The elements that the words name, or that there is no memory for them: `None` where a word names none.
pub fn elements<F: WordField>(alloc: Global, words: &[F::Word]) -> Option<Result<Vec<F>, DftError>>
    ensures named { IsSome result ↔ All (λ word. F.word_number word < F.ORDER_U64) words.now }
    ensures elements { IfSome result (λ read. IfOk read (λ xs.
        AllZip (λ word x. F.word_number word ≡ F.number (F.value x)) words.now xs.items)) }
    ensures refused { IfSome result (λ read. IfErr read (IsWithin (type_size F.row) (length words.now))) }
{
    let mut elements = match growth::with_capacity(alloc, words.len()) {
        Ok(elements) => elements,
        Err(refused) => {
            return if are_below::<F>(words) {
                Some(Err(DftError::from(refused)))
            } else {
                None
            };
        }
    };
    // Each word is read once, and no test ends the loop, so that many are read together.
    let mut all_below = true;
    for word in words {
        all_below &= F::is_below(*word);
        elements.push_reserved(F::from_word(*word));
    }
    if all_below { Some(Ok(elements)) } else { None }
}

// Whether all words' numbers are below the modulus.
fn are_below<F: WordField>(words: &[F::Word]) -> bool
    ensures { IsTrue result ↔ All (λ word. F.word_number word < F.ORDER_U64) words.now }
{
    words.iter().all(|word| F::is_below(*word))
}

/// Writes the words that name the elements over as many.
pub fn write<F: WordField>(elements: &[F], words: &mut [F::Word])
    requires { length elements.now ≡ length words.old }
    ensures { AllZip (λ word x. F.word_number word ≡ F.number (F.value x)) words.new elements.now }
{
    for i in 0..words.len() {
        words[i] = elements[i].to_word();
    }
}
