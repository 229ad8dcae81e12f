// What the control block shows, takes and does.
ghost use Rattle.std.specs.Prelude.{◌≡◌, ◌<◌};
ghost use Rattle.faults.specs.Faults.{told};
ghost use Rattle.registers.specs.Address.{word_address};
ghost use Rattle.registers.specs.Bits as bits;
ghost use Rattle.peripheral.specs.Bus.{done};
ghost use Rattle.board.specs.Map as addresses;
ghost use Rattle.board.specs.Control as spec;

use crate::map::Register;
use crate::state::Board;
use peripheral::{Fault, RegisterBlock, RegisterMap};
use registers::{Lanes, Write};
use serial::Bridge;

// The bits of CONTROL that are there: the control flags, INTGEN, SOCRES, CORERES and COREHLT.
const NAMED: u32 = 0xFFFF_000F;

// The bits of CONTROL that the core sees: all but INTGEN and SOCRES.
const SEEN: u32 = 0xFFFF_FFF3;

// INTGEN, as power and reset leave it.
const INTGEN: u32 = 8;

// The clock's frequency in hertz.
const FREQUENCY: u32 = 25_000_000;

fn bit(k: u32, word: u32) -> bool
    requires { k < 32 }
    ensures { result ≡ bits.bit k word }
{
    (word >> k) % 2 == 1
}

impl RegisterBlock for Board {
    type Register = Register;

    type Content = Board;

    ghost content = { λ b. b };

    ghost word_of = { spec.content_of };

    ghost after_write = { spec.after_write };

    fn word(&self, register: Register) -> u32 {
        match register {
            Register::Control => self.control,
            Register::IntEn => self.enable,
            Register::IntFlags => self.flags,
            Register::ClkFreq => FREQUENCY,
        }
    }

    fn put(&mut self, register: Register, write: Write) {
        match register {
            Register::Control => self.control = write.apply_to(self.control, NAMED),
            Register::IntEn => self.enable = write.apply(self.enable),
            Register::IntFlags => self.flags = write.clear(self.flags),
            Register::ClkFreq => {}
        }
    }
}

impl Board {
    // A board that was just powered.
    pub fn power() -> Board
        ensures { result ≡ spec.powered }
    {
        Board {
            cycle: 0,
            control: INTGEN,
            enable: 0,
            flags: 0,
            levels: 0,
            bridge: Bridge::new(),
        }
    }

    // Whether an address is one of the control block's.
    pub fn owns(addr: u32) -> bool
        ensures { result ≡ addresses.owns (word_address addr) }
    {
        Register::claims(addr)
    }

    pub fn read(&self, addr: u32) -> Result<u32, Fault>
        ensures { told result ≡ spec.read_control self.now addr }
    {
        self.read_at(addr)
    }

    // A refused write leaves the board as it is.
    pub fn write(&mut self, addr: u32, value: u32, lanes: Lanes) -> Result<(), Fault>
        ensures after { self.new ≡ spec.kept_board self.old (spec.write_control self.old addr value lanes.mask) }
        ensures value { told result ≡ done (spec.write_control self.old addr value lanes.mask) }
    {
        self.write_at(addr, value, lanes)
    }

    // The interrupt on offer: the lowest ID that is enabled and flagged, or 32 for none, which is how a trace tells it.
    pub fn offer(&self) -> u32
        ensures { result ≡ spec.offer self.now }
    {
        if bit(3, self.control) {
            (self.enable & self.flags).trailing_zeros()
        } else {
            32
        }
    }

    // CONTROL as the core sees it.
    pub fn core_word(&self) -> u32
        ensures { result ≡ spec.core_word self.now }
    {
        self.control & SEEN
    }

    // SOCRES: each clock is a reset while it is set.
    pub fn resets(&self) -> bool
        ensures { result ≡ spec.resets self.now }
    {
        bit(2, self.control)
    }

    // Whether a clock that raises nothing leaves all but the cycle.
    pub fn is_still(&self) -> bool
        ensures { result ≡ spec.is_still self.now }
    {
        !self.resets() && self.flags | self.triggers() == self.flags
    }

    // The flags of the triggers that are high: bits 0 to 7 are IDs 0 to 7, bits 8 to 15 are IDs 24 to 31.
    fn triggers(&self) -> u32
        ensures { result ≡ spec.triggered self.now.levels }
    {
        u32::from(self.levels % 256) | u32::from(self.levels / 256) * 0x100_0000
    }

    // Control flags, cycle and trigger levels stay.
    pub fn reset(&mut self)
        ensures { self.new ≡ spec.reset_board self.old }
    {
        self.control = INTGEN | (self.control & 0xFFFF_0000);
        self.enable = 0;
        self.flags = 0;
        self.bridge = Bridge::new();
    }

    // Sets the flags of what the peripherals raised, bit k for interrupt 8 + k, and of each trigger that is high.
    pub fn flag(&mut self, raised: u16)
        ensures { self.new ≡ spec.flagged self.old raised }
    {
        self.flags = self.flags | u32::from(raised) * 256 | self.triggers();
    }

    // Clears some of the flags.
    #[tactic(auto, using(registers::proofs::Digits::complement))]
    pub fn clear_flags(&mut self, which: u32)
        ensures { self.new ≡ spec.holding self.old self.old.control self.old.enable (bits.without self.old.flags which) }
    {
        self.flags &= !which;
    }
}
