// Blocks of registers: where they stand, and what an access to one does.
ghost use Rattle.std.specs.Prelude.{◌≡◌, ℕ, Bool, IfErr, Option};
ghost use Rattle.faults.specs.Faults.{told};
ghost use Rattle.registers.specs.Address.{word_address};
ghost use Rattle.registers.specs.Aliases.{alias_number};
ghost use Rattle.peripheral.specs.Bus as spec;
ghost use Rattle.peripheral.specs.Bus.{done, left};
ghost use Rattle.peripheral.specs.Block.{read_register, written_register};

use crate::bus::located;
use faults::Fault;
use registers::{Alias, Lanes, Write, word_address};

// The registers of a block: which addresses of words are the block's, and which register stands at each.
pub trait RegisterMap: Copy {
    ghost owned: { ℕ → Bool };

    ghost found: { ℕ → Option Self };

    fn owns(word: u32) -> bool
        ensures { result ≡ owned word };

    fn at(word: u32) -> Option<Self>
        ensures { result ≡ found word };

    // Whether an access to an address is the block's.
    fn claims(addr: u32) -> bool
        ensures { result ≡ owned (word_address addr) }
    {
        Self::owns(word_address(addr))
    }

    // The register that an access reaches, or why there is none.
    fn find(addr: u32) -> Result<Self, Fault>
        ensures { told result ≡ spec.located addr (owned (word_address addr)) (found (word_address addr)) }
    {
        located(addr, Self::claims(addr), Self::at(word_address(addr)))
    }
}

// What has such registers: the word that each shows, and what a write makes of it. An access to the bus follows.
pub trait RegisterBlock {
    type Register: RegisterMap;

    // what the registers hold
    type Content;

    ghost content: { Self → Self.Content };

    ghost word_of: { Self.Content → Self.Register → ℕ };

    // after a write by an alias, of a value, under a lane mask
    ghost after_write: { Self.Content → ℕ → ℕ → ℕ → Self.Register → Self.Content };

    fn word(&self, register: Self::Register) -> u32
        ensures { result ≡ word_of (content self.now) register };

    fn put(&mut self, register: Self::Register, write: Write)
        ensures { content self.new ≡ after_write (content self.old) (alias_number write.alias) write.value write.lanes.mask register };

    fn read_at(&self, addr: u32) -> Result<u32, Fault>
        ensures { told result ≡ read_register Self.Register.found Self.Register.owned word_of (content self.now) addr }
    {
        let register = Self::Register::find(addr)?;
        Ok(Alias::at(word_address(addr)).read(self.word(register)))
    }

    // A refused write leaves all as it is.
    fn write_at(&mut self, addr: u32, value: u32, lanes: Lanes) -> Result<(), Fault>
        ensures after { content self.new ≡ left (content self.old) (written_register Self.Register.found Self.Register.owned after_write (content self.old) addr value lanes.mask) }
        ensures refused { IfErr result (λ _. self.new ≡ self.old) }
        ensures value { told result ≡ done (written_register Self.Register.found Self.Register.owned after_write (content self.old) addr value lanes.mask) }
    {
        let register = Self::Register::find(addr)?;
        self.put(register, Write::at(word_address(addr), value, lanes));
        Ok(())
    }
}
