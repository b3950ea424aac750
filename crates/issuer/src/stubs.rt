//! Stubs: a drawn number in hand. A stub cannot be copied, and is let go only when it is spent.
ghost use Rattle.std.specs.Prelude.{◌≡◌, true, false};

// A rule of the project: `drop` demands that the stub was spent, so the mark stands beside the number. With no `Drop` at
// all a stub could not fall either, but no contract would say why.
pub struct Stub {
    number: u16,
    spent: bool,
}

impl Stub {
    // Only an issuer gives stubs out, and only an issuer spends them.
    pub(super) fn drawn(number: u16) -> Stub
        ensures { result ≡ record { number = number; spent = false } }
    {
        Stub {
            number,
            spent: false,
        }
    }

    // The number of the ticket that the stub is for.
    pub fn number(&self) -> u16
        ensures { result ≡ self.now.number }
    {
        self.number
    }

    // Ends the stub.
    pub(super) fn spend(mut self) {
        self.spent = true;
    }
}

// A stub that is let go unspent is refused by the check of the program that does so.
impl Drop for Stub {
    fn drop(self)
        requires { self.spent ≡ true }
    {
        let Stub {
            number: _,
            spent: _,
        } = self;
    }
}
