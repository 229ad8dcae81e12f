// A board: its peripherals, and how many clocks have passed.
ghost use Rattle.std.specs.Prelude.{◌≡◌};
ghost use Rattle.peripheral.specs.Bus.{write_at, kept};
ghost use Rattle.peripheral.specs.Model as model;
ghost use Rattle.relay.specs.Actions.{address_of, alias_of, state_after};

use crate::job::{Action, Register};
use peripheral::{Fault, Peripheral};
use registers::{Alias, Lanes};

#[derive(Drop)]
pub struct Rig<P> {
    board: P,
    cycle: u64,
}

// What came of an action that was not refused.
#[derive(Clone, Copy)]
pub enum Outcome {
    Done,
    Word(u32),
    // How long the board had said that nothing would happen, and what the clocks raised: bit k for ID 8 + k.
    Raised { quiet: u32, mask: u16 },
}

impl Register {
    fn address(self) -> u32
        ensures { result ≡ address_of self }
    {
        match self {
            Register::Port => 0x1B00_1000,
            Register::Latch => 0x1B00_1010,
            Register::Dir => 0x1B00_1020,
            Register::Cnr => 0x1B00_1030,
            Register::Cnf => 0x1B00_1040,
            Register::CnState => 0x1B00_1050,
            Register::IntStatus => 0x1B00_10F0,
            Register::Lamps => 0x1B00_8000,
            Register::At(addr) => addr,
        }
    }

    // Where one of its aliases stands.
    fn at_alias(self, alias: Alias) -> u32
        ensures { result ≡ alias_of self alias }
    {
        match alias {
            Alias::Main => self.address(),
            Alias::Set => self.address() | 0x4,
            Alias::Clear => self.address() | 0x8,
            Alias::Invert => self.address() | 0xC,
        }
    }
}

impl<P: Peripheral> Rig<P> {
    pub(crate) fn new(board: P) -> Rig<P>
        ensures { (result.board ≡ board) × (result.cycle ≡ 0) }
    {
        Rig { board, cycle: 0 }
    }

    pub(crate) fn cycle(&self) -> u64
        ensures { result ≡ self.now.cycle }
    {
        self.cycle
    }

    // Makes an action, and says what came of it.
    pub(crate) fn perform(&mut self, action: Action) -> Result<Outcome, Fault>
        ensures same { P.Peripheral.model self.new.board ≡ P.Peripheral.model self.old.board }
        ensures after { P.Peripheral.state self.new.board ≡ state_after (P.Peripheral.model self.old.board) (P.Peripheral.state self.old.board) action }
    {
        match action {
            Action::For(_) => Ok(Outcome::Done),
            Action::Write(register, alias, value) => {
                self.board
                    .write(register.at_alias(alias), value, Lanes::all())?;
                Ok(Outcome::Done)
            }
            Action::Read(register) => self.board.read(register.address()).map(Outcome::Word),
            Action::Feed(input, value) => {
                self.board.feed(input, value);
                Ok(Outcome::Done)
            }
            Action::Advance(clocks) => Ok(self.advance(clocks)),
            Action::Reset => {
                self.board.reset();
                Ok(Outcome::Done)
            }
        }
    }

    fn advance(&mut self, clocks: u32) -> Outcome
        ensures same { P.Peripheral.model self.new.board ≡ P.Peripheral.model self.old.board }
        ensures after { P.Peripheral.state self.new.board ≡ model.clocks (P.Peripheral.model self.old.board) clocks (P.Peripheral.state self.old.board) }
    {
        let quiet = self.board.quiet();
        let mask = self.board.advance(clocks);
        self.cycle = self.cycle.saturating_add(u64::from(clocks));
        Outcome::Raised { quiet, mask }
    }
}
