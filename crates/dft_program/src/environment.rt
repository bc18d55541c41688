//! A command line over one of std's environments.

ghost use Rattle.std.specs.Prelude.{◌≡◌, []};

use crate::account::Account;
use crate::words::CommandLine;
use std::env::FillError;
use std::marker::Model;
use std::rt::Env;

/// One of std's environments, as a command line.
///
/// No contract says what an environment holds, so here ends what is proved: that its account has what
/// the environment reported is seen by reading `word`, which passes on the place and the buffer.
#[derive(Drop)]
pub struct Environment<E: Env> {
    env: E,
    account: Account,
    // The buffers that were too short.
    too_short: Account,
}

impl<E: Env> Model for Environment<E> {
    ghost use Rattle.std.specs.Prelude.{map};
    ghost use Rattle.dft_program.specs.Accounts.{most_bytes};
    ghost use Rattle.dft_program.specs.Words.{Heard, told_of};

    ghost Value = { Heard };

    ghost view = { λ e. record {
      told = map told_of e.account.calls;
      too_short = most_bytes e.too_short.calls;
    } };
}

impl<E: Env> Environment<E> {
    /// Nothing was asked for yet.
    pub fn new(env: E) -> Environment<E>
        ensures { result ≡ record { told = []; too_short = 0 } }
    {
        Environment {
            env,
            account: Account::new(),
            too_short: Account::new(),
        }
    }
}

impl<E: Env> CommandLine for Environment<E> {
    ghost told = { λ heard. heard.told };

    ghost too_short = { λ heard. heard.too_short };

    fn word(&mut self, place: usize, buf: &mut [u8]) -> Result<usize, FillError> {
        let answer = self.env.arg(place, buf);
        match answer {
            Ok(count) => {
                self.account = Account::with(&self.account, &place, &buf[..count], &0);
            }
            Err(FillError::NotPresent) => {
                self.account = Account::with(&self.account, &place, &[], &1);
            }
            Err(FillError::TooLong) => {
                self.too_short = Account::with(&self.too_short, &place, buf, &1);
            }
        }
        answer
    }
}
