// What a write to a register brings.
ghost use Rattle.std.specs.Prelude.{◌≡◌, bit_and};
ghost use Rattle.registers.specs.Aliases.{alias_number, alias_at};
ghost use Rattle.registers.specs.Bits.{lane_bits};
ghost use Rattle.registers.specs.Writes.{written, cleared, EachBit, written_bit, cleared_bit};

use crate::aliases::Alias;
use crate::lanes::Lanes;

// A write: by which of the register's addresses it came, its value, and the bytes that it may change.
#[derive(Clone, Copy, PartialEq, Eq, Debug)]
pub struct Write {
    pub alias: Alias,
    pub value: u32,
    pub lanes: Lanes,
}

impl Write {
    // A write of a value to an address.
    pub fn at(addr: u32, value: u32, lanes: Lanes) -> Write
        ensures alias { alias_number result.alias ≡ alias_at addr }
        ensures value { result.value ≡ value }
        ensures lanes { result.lanes ≡ lanes }
    {
        Write {
            alias: Alias::at(addr),
            value,
            lanes,
        }
    }

    // The word of a register after it.
    pub fn apply(self, word: u32) -> u32
        ensures value { result ≡ written (alias_number self.alias) word self.value (lane_bits self.lanes.mask) }
        ensures each { EachBit (written_bit (alias_number self.alias)) word self.value (lane_bits self.lanes.mask) result }
    {
        self.alias.write(word, self.value, self.lanes.bits())
    }

    // The same where only the named bits are there.
    pub fn apply_to(self, word: u32, named: u32) -> u32
        ensures value { result ≡ written (alias_number self.alias) word self.value (bit_and (lane_bits self.lanes.mask) named) }
        ensures each { EachBit (written_bit (alias_number self.alias)) word self.value (bit_and (lane_bits self.lanes.mask) named) result }
    {
        self.alias
            .write(word, self.value, self.lanes.bits() & named)
    }

    // The same where software can clear the bits and never set them.
    pub fn clear(self, word: u32) -> u32
        ensures value { result ≡ cleared (alias_number self.alias) word self.value (lane_bits self.lanes.mask) }
        ensures each { EachBit (cleared_bit (alias_number self.alias)) word self.value (lane_bits self.lanes.mask) result }
    {
        self.alias.clear(word, self.value, self.lanes.bits())
    }
}
