//! Reed-Solomon codes: values of polynomials with few coefficients, on many points.

ghost use Rattle.std.specs.Prelude.{◌≡◌, ◌↔◌, ◌+◌, ◌^◌, ◌<◌, ◌≤◌, IsTrue, IfOk, IsOk};
ghost use Rattle.std.specs.Mem.{type_size};
ghost use Rattle.p3_field.specs.Ring.{IsInvertible};
ghost use Rattle.p3_matrix.specs.Matrix.{Matrix, Same};
ghost use Rattle.p3_matrix.specs.RowMajor.{height};
ghost use Rattle.p3_dft.specs.Codes.{IsCode, IsCodeword};
ghost use Rattle.p3_matrix.specs.RowNumbers.{AgreeInRows};
ghost use Rattle.p3_dft.specs.Engines.{AfterDft, AfterLde};
ghost use Rattle.p3_dft.specs.Extensions.{IsExtension};
ghost use Rattle.p3_dft.specs.Shapes.{FitsDft, FitsLde};
ghost use Rattle.p3_matrix.specs.Cosets.{values_of};

use crate::traits::TwoAdicSubgroupDft;
use p3_field::TwoAdicField;
use p3_matrix::{DftError, Evaluations, RowMajorMatrix, has_degree_below};
use std::marker::Model;

/// A Reed-Solomon code ("Polynomial Codes over Certain Finite Fields", 1960), and the engine that makes and tests its
/// words.
///
/// A codeword has `2^(log_message + added_bits)` rows. Each column has the values of one polynomial with
/// `2^log_message` coefficients on the coset `shift * K`, where K is the subgroup with as many points as
/// the word has rows, and row i belongs to the point `shift * g^i`, g being the generator of K. So
/// `2^added_bits` is the blowup, and the rate is its inverse.
///
/// Two codewords of one width that agree in `2^log_message` rows are equal, and two that are not differ
/// in more rows than were added, which no code of these sizes exceeds (the Singleton bound). That holds
/// in every ring that meets the laws of `TwoAdicField`: a difference of two points divides a power of
/// two times an invertible element, so that no prime is assumed.
#[derive(Drop)]
pub struct ReedSolomon<F: TwoAdicField, D> {
    engine: D,
    log_message: usize,
    added_bits: usize,
    shift: F,
}

impl<F: TwoAdicField, D> Model for ReedSolomon<F, D> {
    ghost use Rattle.p3_dft.specs.Codes.{Encoder, IsCode};

    ghost Value = { Encoder F D };

    ghost view = { λ e. record {
      engine = e.engine;
      code = record { log_message = e.log_message; added_bits = e.added_bits; shift = e.shift };
    } };

    ghost invariant = { λ e. IsCode F.Valued F.TWO_ADICITY
        (record { log_message = e.log_message; added_bits = e.added_bits; shift = e.shift }) };
}

/// Whether there is a code of these numbers: the field has a subgroup of order
/// `2^(log_message + added_bits)`, and a `usize` counts its points.
pub fn fits_code<F: TwoAdicField>(log_message: usize, added_bits: usize) -> bool
    ensures { IsTrue result
        ↔ ((log_message + added_bits ≤ F.TWO_ADICITY) × (2 ^ (log_message + added_bits) < 2 ^ 64)) }
{
    match log_message.checked_add(added_bits) {
        Some(log_points) => log_points <= F::TWO_ADICITY.min(63),
        None => false,
    }
}

impl<F: TwoAdicField, D> ReedSolomon<F, D> {
    /// The code of these numbers, which `fits_code` accepts, on the coset of a shift that has an inverse
    /// (`try_inverse` tells). No memory is taken, and the engine stays as it is.
    pub fn new(engine: D, log_message: usize, added_bits: usize, shift: F) -> Self
        requires within { log_message + added_bits ≤ F.TWO_ADICITY }
        requires size { 2 ^ (log_message + added_bits) < 2 ^ 64 }
        requires invertible { IsInvertible F.ring (F.value shift) }
        ensures { result ≡ record {
          engine = engine;
          code = record { log_message = log_message; added_bits = added_bits; shift = shift };
        } }
    {
        ReedSolomon {
            engine,
            log_message,
            added_bits,
            shift,
        }
    }

    /// The logarithm of the number of coefficients.
    pub fn log_message(&self) -> usize
        ensures { result ≡ self.now.code.log_message }
    {
        self.log_message
    }

    /// The logarithm of the blowup.
    pub fn added_bits(&self) -> usize
        ensures { result ≡ self.now.code.added_bits }
    {
        self.added_bits
    }

    /// The shift of the coset on which the words are values.
    pub fn shift(&self) -> F
        ensures shift { result ≡ self.now.code.shift }
        ensures code { IsCode F.Valued.own F.TWO_ADICITY self.now.code }
    {
        self.shift
    }

    /// How many rows a message has: `2^log_message`.
    pub fn message_height(&self) -> usize
        ensures { result ≡ 2 ^ self.now.code.log_message }
    {
        1 << self.log_message
    }

    /// How many points the code has, and a word rows: `2^(log_message + added_bits)`.
    pub fn word_height(&self) -> usize
        ensures height { result ≡ 2 ^ (self.now.code.log_message + self.now.code.added_bits) }
        ensures code { IsCode F.Valued.own F.TWO_ADICITY self.now.code }
    {
        1 << (self.log_message + self.added_bits)
    }

    /// The engine.
    pub fn engine(&self) -> &D
        ensures { result.now ≡ self.now.engine }
    {
        &self.engine
    }

    /// The engine, with all that it has prepared.
    pub fn into_engine(self) -> D
        ensures { result ≡ self.engine }
    {
        self.engine
    }
}

impl<F: TwoAdicField, D: TwoAdicSubgroupDft<F>> ReedSolomon<F, D> {
    /// The codeword of a message: the columns are the values of the polynomials on the subgroup of order
    /// `2^log_message`, and the word has their values on the coset. A message has `message_height` rows,
    /// and its shape is one that `fits_lde` accepts with `added_bits`.
    ///
    /// Every codeword of this width that agrees with it in `2^log_message` rows equals it.
    ///
    /// Where memory is refused, the message is dropped, and the encoder serves later calls as before.
    pub fn encode(&mut self, mat: RowMajorMatrix<F>) -> Result<RowMajorMatrix<F>, DftError>
        requires message { height mat ≡ 2 ^ self.old.code.log_message }
        requires fits { FitsLde F.TWO_ADICITY (height mat) mat.width self.old.code.added_bits }
        ensures extension { IfOk result (λ out.
            IsExtension F.Valued.own F.generator mat self.old.code.added_bits (F.value self.old.code.shift)
            out) }
        ensures codeword { IfOk result (λ out. IsCodeword F.Valued.own F.generator self.old.code
            (values_of F.Valued.own out)) }
        ensures distance { IfOk result (λ out. (other : Matrix F.Element)
            → IsCodeword F.Valued.own F.generator self.old.code other → other.width ≡ out.width
            → AgreeInRows (2 ^ self.old.code.log_message) other (values_of F.Valued.own out)
            → Same other (values_of F.Valued.own out)) }
        ensures code { self.new.code ≡ self.old.code }
        ensures engine { AfterLde D.facts (type_size F.row) self.old.engine self.new.engine result mat
            self.old.code.added_bits }
    {
        let values = self
            .engine
            .coset_lde_batch(mat, self.added_bits, self.shift)?;
        Ok(values.to_row_major_matrix())
    }

    /// Whether a word is a codeword: the coefficients of the polynomials with these values are zero from
    /// the `2^log_message`-th on. The word has `word_height` rows, and its shape is one that `fits_dft`
    /// accepts.
    ///
    /// The word is copied. Where memory is refused, the encoder serves later calls as before.
    pub fn is_codeword(&mut self, word: &RowMajorMatrix<F>) -> Result<bool, DftError>
        requires points { height word.now ≡ 2 ^ (self.old.code.log_message + self.old.code.added_bits) }
        requires fits { FitsDft F.TWO_ADICITY (height word.now) word.now.width }
        ensures exact { IfOk result (λ told.
            IsTrue told ↔ IsCodeword F.Valued.own F.generator self.old.code (values_of F.Valued.own word.now)) }
        ensures code { self.new.code ≡ self.old.code }
        ensures engine { AfterDft D.facts (type_size F.row) self.old.engine self.new.engine result word.now 2 }
    {
        let message_height = self.message_height();
        // Tells the prover that the rows are whole.
        let _width = word.width();
        let coefficients = self.engine.coset_idft_batch(word.try_clone()?, self.shift)?;
        Ok(has_degree_below(&coefficients, message_height))
    }
}
