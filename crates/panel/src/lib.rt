// The lamps of a front panel: one register over a word that the host lends and shows. Small on purpose: new
// peripherals follow its pattern.
#![tactic(auto)]

ghost use Rattle.std.specs.Prelude.{◌≡◌, [], refl};
ghost use Rattle.panel.specs.Lamps.{owns, register_at, word_of, after_write, encode, panel_model, panel_keeps};

use peripheral::{Fault, Peripheral, RegisterBlock, RegisterMap, fill};
use registers::{Lanes, Write};

// One bit for each of 32 lamps.
#[derive(Drop)]
pub struct Panel<'a> {
    lamps: &'a mut u32,
}

// The panel has one register, at offset 0.
#[derive(Clone, Copy)]
pub enum Register {
    Lamps,
}

impl<'a> Panel<'a> {
    // A panel that shows what the word holds.
    pub fn new(lamps: &'a mut u32) -> Panel<'a>
        ensures { result.lamps ≡ lamps.entry }
    {
        Panel { lamps }
    }
}

impl RegisterMap for Register {
    ghost owned = { owns };

    ghost found = { register_at };

    fn owns(word: u32) -> bool {
        matches!(word, 0x1B00_8000..=0x1B00_8FFF)
    }

    fn at(word: u32) -> Option<Register> {
        (word / 16 % 256 == 0).then_some(Register::Lamps)
    }
}

impl<'a> RegisterBlock for Panel<'a> {
    type Register = Register;

    type Content = u32;

    ghost content = { λ x. x.lamps.now };

    ghost word_of = { word_of };

    ghost after_write = { after_write };

    fn word(&self, _register: Register) -> u32 {
        *self.lamps
    }

    fn put(&mut self, _register: Register, write: Write) {
        *self.lamps = write.apply(*self.lamps);
    }
}

impl<'a> Peripheral for Panel<'a> {
    ghost model = { λ _. panel_model };

    ghost state = { λ x. encode x.lamps.now };

    ghost spare = { λ _. [] };

    ghost calm = { λ _. 4294967295 };

    ghost keeps = { λ _. panel_keeps };

    ghost sized = { λ _. refl };

    fn claims(&self, addr: u32) -> bool {
        Register::claims(addr)
    }

    fn read(&self, addr: u32) -> Result<u32, Fault> {
        self.read_at(addr)
    }

    fn write(&mut self, addr: u32, value: u32, lanes: Lanes) -> Result<(), Fault> {
        self.write_at(addr, value, lanes)
    }

    fn has_input(&self, _input: u32) -> bool {
        false
    }

    fn feed(&mut self, _input: u32, _value: u32) {}

    #[tactic(auto, using(peripheral::proofs::Steps::still_steps, peripheral::proofs::Steps::still_union))]
    fn advance(&mut self, _n: u32) -> u16 {
        0
    }

    #[tactic(auto, using(peripheral::proofs::Steps::still_steps))]
    fn quiet(&self) -> u32 {
        u32::MAX
    }

    fn outputs(&self, into: &mut [u32]) -> usize {
        fill(into, &[*self.lamps])
    }

    fn reset(&mut self) {
        *self.lamps = 0;
    }
}
