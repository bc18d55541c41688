// What contracts alone know of calls on something outside: where each was made for a place (a writer has none: 0), the
// bytes that went over, and 1 where it failed. It takes no bytes, and its functions do nothing at run time.

ghost use Rattle.std.specs.Prelude.{◌≡◌, ◌++◌, ◌∷◌, List, []};
ghost use Rattle.std.specs.Borrow.{ftrue};
ghost use Rattle.dft_program.specs.Accounts.{Call};

use std::marker::Model;

#[derive(Drop)]
pub struct Account {
    pub ghost calls: { List Call },
}

impl Model for Account {
    ghost also_owns = { λ _. ftrue };
}

impl Account {
    pub(crate) fn new() -> Account
        ensures { result.calls ≡ [] }
    {
        Account {}
    }

    pub(crate) fn with(
        _before: &Account,
        _place: &usize,
        _bytes: &[u8],
        _failures: &usize,
    ) -> Account
        ensures { result.calls ≡ _before.now.calls
            ++ record { place = _place.now; bytes = _bytes.now; failures = _failures.now } ∷ [] }
    {
        Account {}
    }
}
