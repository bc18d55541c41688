//! A sink over any of std's writers.

ghost use Rattle.std.specs.Prelude.{◌≡◌, []};

use crate::account::Account;
use crate::sink::Sink;
use std::io;
use std::io::Write;
use std::marker::Model;

/// One of std's writers, as a sink.
///
/// Its bytes are those that the writer's answers reported that it took, since it was put in here. Of a
/// file or a terminal no contract says what it holds; of a writer that says it, as a `Vec`, they are
/// what it holds more than before.
#[derive(Drop)]
pub struct Counted<W: Write> {
    writer: W,
    account: Account,
}

impl<W: Write> Model for Counted<W> {
    ghost use Rattle.std.specs.Prelude.{sum_by};
    ghost use Rattle.std.specs.List.{flat_map};
    ghost use Rattle.dft_program.specs.Sinks.{Calls};

    ghost Value = { Calls };

    ghost view = { λ c. record {
      bytes = flat_map (λ call. call.bytes) c.account.calls;
      contents = W.contents c.writer;
      failures = sum_by (λ call. call.failures) c.account.calls;
    } };
}

impl<W: Write> Counted<W> {
    /// Nothing is taken yet, and no call failed.
    pub fn new(writer: W) -> Counted<W>
        ensures { result ≡ record { bytes = []; contents = W.contents writer; failures = 0 } }
    {
        Counted {
            writer,
            account: Account::new(),
        }
    }

    /// The writer, with all that it took.
    pub fn into_writer(self) -> W
        ensures { W.contents result ≡ self.contents }
    {
        let Counted { writer, account: _ } = self;
        writer
    }
}

impl<W: Write> Sink for Counted<W> {
    ghost calls = { λ calls. calls };

    fn write(&mut self, buf: &[u8]) -> io::Result<usize> {
        let answer = self.writer.write(buf);
        self.account = match &answer {
            Ok(0) if !buf.is_empty() => Account::with(&self.account, &0, &[], &1),
            Ok(count) => Account::with(&self.account, &0, &buf[..*count], &0),
            Err(_) => Account::with(&self.account, &0, &[], &1),
        };
        answer
    }

    fn flush(&mut self) -> io::Result<()> {
        let answer = self.writer.flush();
        self.account = match &answer {
            Ok(()) => Account::with(&self.account, &0, &[], &0),
            Err(_) => Account::with(&self.account, &0, &[], &1),
        };
        answer
    }
}
