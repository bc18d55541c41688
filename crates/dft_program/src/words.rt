//! The words of the command line.

ghost use Rattle.std.specs.Prelude.{◌≡◌, ◌++◌, ◌+◌, ◌*◌, ◌<◌, ◌⊎◌, ℕ, List, length, map, option_map, vec_len, IfOk, OnErr};
ghost use Rattle.std.specs.String.{string_bytes};
ghost use Rattle.std.specs.Vec.{vec_items};
ghost use Rattle.std.specs.Io.{WritesAtMost};
ghost use Rattle.dft_program.specs.Refusals.{RefusedWithin};
ghost use Rattle.dft_program.specs.Words.{RefusedReading, Told, ToldAll, text_of_word, told_at, told_by, too_short_with};

use p3_dft::{Refused, growth};
use std::alloc::Global;
use std::env::FillError;

/// A command line: the program's own name at place 0, and words behind it.
///
/// Contracts see what its answers reported.
pub trait CommandLine {
    // Of each place that was asked for: the word there, or that there is none.
    ghost told: { Self → List Told };

    // How many bytes the longest buffer had that was too short for a word.
    ghost too_short: { Self → ℕ };

    /// Copies the word at this place to the start of `buf`, and answers how many bytes it has.
    fn word(&mut self, place: usize, buf: &mut [u8]) -> Result<usize, FillError>
        ensures bound { WritesAtMost result buf.new }
        ensures told { told self.new ≡ told self.old ++ told_by place result buf.new }
        ensures too_short { too_short self.new ≡ too_short_with (too_short self.old) result buf.new };
}

/// The texts of all words after the program's name, which is never read.
///
/// A word that is no UTF-8 has the empty text, which is no name and no number either.
pub fn words_after_name<L: CommandLine>(alloc: Global, line: &mut L) -> Result<Vec<String>, Refused>
    ensures all { IfOk result (λ texts. (words : List (List ℕ)) × ToldAll (L.told line.old) (L.told line.new) words
        × (map string_bytes texts.items ≡ map text_of_word words)) }
    ensures memory { OnErr result (RefusedReading (L.told line.old) (L.told line.new) (L.too_short line.new)) }
{
    let mut texts = Vec::new(alloc);
    let mut buffer = Vec::new(alloc);
    growth::resize(&mut buffer, 256, 0)?;
    while let Some(word) = word_at(alloc, line, 1 + texts.as_slice().len(), &mut buffer)? {
        growth::push(&mut texts, text_of_word(alloc, word))?;
    }
    Ok(texts)
}

// The text of a word, for which no memory is asked for.
fn text_of_word(alloc: Global, word: Vec<u8>) -> String
    ensures { string_bytes result ≡ text_of_word word.items }
{
    String::from_utf8(word).unwrap_or(String::new(alloc))
}

// The word at this place, if there is one. The buffer grows until the word has room in it.
fn word_at<L: CommandLine>(
    alloc: Global,
    line: &mut L,
    place: usize,
    buffer: &mut Vec<u8>,
) -> Result<Option<Vec<u8>>, Refused>
    requires { 0 < vec_len buffer.old }
    ensures room { 0 < vec_len buffer.new }
    ensures word { IfOk result (λ word. L.told line.new ≡ L.told line.old ++ told_at place (option_map vec_items word)) }
    ensures refused { OnErr result (((L.told line.new ≡ L.told line.old) × RefusedWithin (2 * L.too_short line.new))
        ⊎ ((word : List ℕ) × (L.told line.new ≡ L.told line.old ++ told_at place (Some word))
        × RefusedWithin (length word))) }
{
    loop {
        match line.word(place, buffer.as_mut_slice()) {
            Ok(count) => return Ok(Some(growth::from_slice(alloc, &buffer[..count])?)),
            Err(FillError::NotPresent) => return Ok(None),
            Err(FillError::TooLong) => {
                let room = 2 * buffer.as_slice().len();
                growth::resize(buffer, room, 0)?;
            }
        }
    }
}
