ghost use Rattle.std.specs.Prelude.{◌≡◌};
ghost use Rattle.catalogue.specs.Refusals.{told};
ghost use Rattle.client.specs.Declarations.{nothing_declared, mode_for, add_reply, add_after};

use catalogue::refusal::Refusal;
use catalogue::table::Table;
use sequencing::mode::Mode;

// How a client is going to use a table.
#[derive(Clone, Copy)]
pub enum Access {
    Read,
    Write,
}

// A declaration as far as it is gathered. A begin uses it up, so that no table can be added afterwards.
#[derive(Drop)]
pub struct Declaration {
    modes: [Mode; 8],
}

impl From<Access> for Mode {
    ghost from_gives = { λ access mode. mode ≡ mode_for access };

    fn from(access: Access) -> Mode {
        match access {
            Access::Read => Mode::Read,
            Access::Write => Mode::Write,
        }
    }
}

impl Declaration {
    pub fn new() -> Declaration
        ensures { result.modes ≡ nothing_declared }
    {
        Declaration {
            modes: [Mode::None; 8],
        }
    }

    pub fn add(&mut self, table: u32, access: Access) -> Result<(), Refusal>
        ensures answer { told result ≡ add_reply self.old.modes table }
        ensures after { self.new.modes ≡ add_after self.old.modes table access }
    {
        let table = Table::new(table)?;
        if self.modes[table.index()].declares() {
            return Err(Refusal::TableRepeated);
        }
        self.modes[table.index()] = access.into();
        Ok(())
    }

    pub(crate) fn modes(&self) -> [Mode; 8]
        ensures { result ≡ self.now.modes }
    {
        self.modes
    }
}
