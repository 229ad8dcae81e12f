// How a word on the bus reaches the bits of a register: one set of rules for every register of the chip.
#![tactic(auto)]

ghost use Rattle.std.specs.Prelude.{◌≡◌};
ghost use Rattle.registers.specs.Address.{word_address};

mod aliases;
mod lanes;
mod writes;

pub use aliases::Alias;
pub use lanes::Lanes;
pub use writes::Write;

// The address of the word that an access reaches: the bus clears the two lowest bits.
pub fn word_address(addr: u32) -> u32
    ensures { result ≡ word_address addr }
{
    addr - addr % 4
}
