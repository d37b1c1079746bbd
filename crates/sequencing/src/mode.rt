ghost use Rattle.std.specs.Prelude.{◌≡◌};
ghost use Rattle.sequencing.specs.Modes.{declares as declares_of};

// How a transaction declares a table. Not an Option of two modes: the letters of a declaration name all three alike.
#[derive(Clone, Copy, PartialEq, Eq, Debug)]
pub enum Mode {
    None,
    Read,
    Write,
}

impl Mode {
    pub fn declares(self) -> bool
        ensures { result ≡ declares_of self }
    {
        match self {
            Mode::None => false,
            Mode::Read | Mode::Write => true,
        }
    }
}
