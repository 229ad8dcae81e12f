// The four addresses of a register.
ghost use Rattle.std.specs.Prelude.{◌≡◌};
ghost use Rattle.registers.specs.Aliases.{alias_number, alias_at};
ghost use Rattle.registers.specs.Bits as spec;
ghost use Rattle.registers.specs.Writes.{written, cleared, shown, EachBit, written_bit, cleared_bit};

// Which of a register's four addresses an access names. The main address takes and shows the whole word.
// The other three act on the bits that are 1 in the value, and read as 0.
#[derive(Clone, Copy, PartialEq, Eq, Debug)]
pub enum Alias {
    Main,
    Set,
    Clear,
    Invert,
}

// The word without some bits.
#[tactic(auto, using(crate::proofs::Digits::complement))]
fn without(word: u32, bits: u32) -> u32
    ensures { result ≡ spec.without word bits }
{
    word & !bits
}

impl Alias {
    // The alias at an address: by its last hexadecimal digit 0 is main, 4 SET, 8 CLEAR and C INVERT.
    pub fn at(addr: u32) -> Alias
        ensures { alias_number result ≡ alias_at addr }
    {
        match addr / 4 % 4 {
            0 => Alias::Main,
            1 => Alias::Set,
            2 => Alias::Clear,
            _ => Alias::Invert,
        }
    }

    // The word of a register after a write of a value, which may change the bits of the mask and no others.
    #[tactic(auto, using(crate::proofs::Accesses::by_written))]
    pub fn write(self, word: u32, value: u32, mask: u32) -> u32
        ensures value { result ≡ written (alias_number self) word value mask }
        ensures each { EachBit (written_bit (alias_number self)) word value mask result }
    {
        let bits = value & mask;
        match self {
            Alias::Main => without(word, mask) | bits,
            Alias::Set => word | bits,
            Alias::Clear => without(word, bits),
            Alias::Invert => word ^ bits,
        }
    }

    // The same where software can clear the bits and never set them.
    #[tactic(auto, using(crate::proofs::Accesses::by_cleared))]
    pub fn clear(self, word: u32, value: u32, mask: u32) -> u32
        ensures value { result ≡ cleared (alias_number self) word value mask }
        ensures each { EachBit (cleared_bit (alias_number self)) word value mask result }
    {
        match self {
            Alias::Main => without(word, without(mask, value)),
            Alias::Set => word,
            Alias::Clear | Alias::Invert => without(word, value & mask),
        }
    }

    // What a read shows of a register's word.
    pub fn read(self, word: u32) -> u32
        ensures { result ≡ shown (alias_number self) word }
    {
        match self {
            Alias::Main => word,
            Alias::Set | Alias::Clear | Alias::Invert => 0,
        }
    }
}
