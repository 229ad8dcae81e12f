// RAM over bytes that the host lends.
#![tactic(auto)]

ghost use Rattle.std.specs.Prelude.{◌≡◌, ◌+◌, ◌<◌, length, Some};
ghost use Rattle.registers.specs.Address.{word_address};
ghost use Rattle.peripheral.specs.Bus as bus;
ghost use Rattle.peripheral.specs.Bus.{told, write_at, done, kept};
ghost use Rattle.ram.specs.Memory as memory;
ghost use Rattle.ram.specs.Memory.{owns, offset, word_at, stored};
ghost use Rattle.ram.specs.Rules.{model_over, state_over, spare_over, keeps_over, sized_over};
ghost use Rattle.ram.specs.Law.{Stores, ReadsBack};

use peripheral::{Fault, Peripheral, fill, located};
use registers::{Lanes, word_address};

// The address of the first byte.
const BASE: u32 = 0x1000_0000;

// At most so many bytes are used.
const CAPACITY: usize = 65_536;

// The lent bytes. The first of them are used: whole words, as many as there is room for.
#[derive(Drop)]
pub struct Ram<'a> {
    bytes: &'a mut [u8],
}

// The word from a place on.
fn load(bytes: &[u8], at: usize) -> u32
    requires { at + 3 < length bytes.now }
    ensures { result ≡ word_at bytes.now at }
{
    u32::from_le_bytes([bytes[at], bytes[at + 1], bytes[at + 2], bytes[at + 3]])
}

// Puts the bytes of a word whose lanes are on.
#[tactic(auto, using(crate::proofs::Laid::stored_on, crate::proofs::Laid::stored_off, crate::proofs::Laid::byte_is))]
fn store(bytes: &mut [u8], at: usize, value: u32, lanes: Lanes)
    requires { at + 3 < length bytes.old }
    ensures { bytes.new ≡ stored bytes.old at value lanes.mask 4 }
{
    let mask = lanes.mask();
    for (k, byte) in value.to_le_bytes().iter().enumerate() {
        if (mask >> k) % 2 == 1 {
            bytes[at + k] = *byte;
        }
    }
}

impl<'a> Ram<'a> {
    // RAM that holds what the bytes hold.
    pub fn new(bytes: &'a mut [u8]) -> Ram<'a>
        ensures { result.bytes ≡ bytes.entry }
    {
        Ram { bytes }
    }

    // How many of the bytes are used.
    fn used(&self) -> usize
        ensures { result ≡ memory.used (length self.now.bytes.now) }
    {
        let len = self.bytes.len();
        (len - len % 4).min(CAPACITY)
    }

    // Whether the word at an address is among the used bytes.
    fn owns(&self, word: u32) -> bool
        ensures { result ≡ owns (memory.used (length self.now.bytes.now)) word }
    {
        let end = BASE + self.used() as u32;
        word >= BASE && word < end
    }

    // Where the word at an address stands. Every claimed address has one; below BASE none is claimed, and the offset is
    // not used.
    fn find(&self, addr: u32) -> Result<usize, Fault>
        ensures { told result ≡ bus.located addr (owns (memory.used (length self.now.bytes.now)) (word_address addr)) (Some (offset (word_address addr))) }
    {
        let word = word_address(addr);
        let offset = word.saturating_sub(BASE) as usize;
        located(addr, self.owns(word), Some(offset))
    }
}

impl<'a> Peripheral for Ram<'a> {
    ghost model = { λ x. model_over x.bytes.now };

    ghost state = { λ x. state_over x.bytes.now };

    ghost spare = { λ x. spare_over x.bytes.now };

    ghost calm = { λ _. 4294967295 };

    ghost keeps = { λ x. keeps_over x.bytes.now };

    ghost sized = { λ x. sized_over x.bytes.now };

    fn claims(&self, addr: u32) -> bool {
        self.owns(word_address(addr))
    }

    fn read(&self, addr: u32) -> Result<u32, Fault> {
        let at = self.find(addr)?;
        Ok(load(self.bytes, at))
    }

    #[tactic(auto, using(crate::proofs::Laid::stored_state, crate::proofs::Laid::stores, crate::proofs::Laid::reads_back))]
    fn write(&mut self, addr: u32, value: u32, lanes: Lanes) -> Result<(), Fault>
        ensures same { model_over self.new.bytes.now ≡ model_over self.old.bytes.now }
        ensures spare { spare_over self.new.bytes.now ≡ spare_over self.old.bytes.now }
        ensures after { state_over self.new.bytes.now ≡ kept (state_over self.old.bytes.now) (write_at (model_over self.old.bytes.now) (state_over self.old.bytes.now) addr value lanes.mask) }
        ensures value { told result ≡ done (write_at (model_over self.old.bytes.now) (state_over self.old.bytes.now) addr value lanes.mask) }
        ensures stores { Stores self.old.bytes.now addr value lanes.mask self.new.bytes.now }
        ensures back { ReadsBack (told result) addr value lanes.mask self.new.bytes.now }
    {
        let at = self.find(addr)?;
        store(self.bytes, at, value, lanes);
        Ok(())
    }

    fn has_input(&self, _input: u32) -> bool {
        false
    }

    fn feed(&mut self, _input: u32, _value: u32) {}

    #[tactic(auto, using(peripheral::proofs::Steps::still_steps, peripheral::proofs::Steps::still_union))]
    fn advance(&mut self, _n: u32) -> u16 {
        0
    }

    #[tactic(auto, using(peripheral::proofs::Steps::still_steps))]
    fn quiet(&self) -> u32 {
        u32::MAX
    }

    fn outputs(&self, into: &mut [u32]) -> usize {
        fill(into, &[])
    }

    fn reset(&mut self) {}
}
