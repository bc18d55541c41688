//! Places that bytes are written to, as contracts see them.

ghost use Rattle.std.specs.Prelude.{◌≡◌, ◌<◌, ◌+◌, ℕ, List, [], length, OnOk, OnErr};
ghost use Rattle.std.specs.Io.{WritesAtMost};
ghost use Rattle.dft_program.specs.Sinks.{Calls, Took, TookStartOf, taken, write_failures, flush_failures};

use std::io;
use std::io::ErrorKind;

/// A place that bytes are written to.
///
/// Contracts see the bytes that it took and those that it holds, and count the calls that failed: a
/// `write` or a `flush` that answers `Err`, and a `write` of at least one byte that takes none.
pub trait Sink {
    // What is known of the calls on it.
    ghost calls: { Self → Calls };

    /// Takes as many of the first bytes of `buf` as it answers, and none where it answers `Err`.
    fn write(&mut self, buf: &[u8]) -> io::Result<usize>
        ensures bound { WritesAtMost result buf.now }
        ensures bytes { Took (calls self.old) (calls self.new) (taken result buf.now) }
        ensures failures { (calls self.new).failures ≡ (calls self.old).failures + write_failures result buf.now };

    /// Passes on what it holds back.
    fn flush(&mut self) -> io::Result<()>
        ensures bytes { Took (calls self.old) (calls self.new) [] }
        ensures failures { (calls self.new).failures ≡ (calls self.old).failures + flush_failures result };
}

/// Writes a whole text, in as many calls as the sink wants, and flushes it once.
///
/// The first call that fails ends it. An empty slice is never written.
pub fn write_text<W: Sink>(out: &mut W, text: &[u8]) -> io::Result<()>
    ensures all { OnOk result (Took (W.calls out.old) (W.calls out.new) text.now) }
    ensures start { OnErr result (TookStartOf (W.calls out.old) (W.calls out.new) text.now) }
    ensures no_failure { OnOk result ((W.calls out.new).failures ≡ (W.calls out.old).failures) }
    ensures failure { OnErr result ((W.calls out.old).failures < (W.calls out.new).failures) }
{
    let mut rest = text;
    while !rest.is_empty() {
        let count = out.write(rest)?;
        if count == 0 {
            return Err(io::Error::from(ErrorKind::WriteZero));
        }
        rest = &rest[count..];
    }
    out.flush()
}
