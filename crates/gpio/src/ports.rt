// One port: 32 pins, each an input or an output.
ghost use Rattle.std.specs.Prelude.{◌≡◌, Decides};
ghost use Rattle.registers.specs.Aliases.{alias_number};
ghost use Rattle.registers.specs.Bits.{lane_bits};
ghost use Rattle.gpio.specs.Pins as spec;
ghost use Rattle.gpio.specs.Law.{SomePin};

use crate::map::PortRegister;
use registers::Write;

// The registers of a port, the word on its input, and the pins as they were at the last clock.
#[derive(Clone, Copy, Default)]
pub struct Port {
    latch: u32,
    dir: u32,
    cnr: u32,
    cnf: u32,
    cn_state: u32,
    input: u32,
    before: u32,
}

impl Port {
    pub(crate) fn new() -> Port
        ensures { result ≡ spec.fresh 0 0 }
    {
        Port::default()
    }

    pub(crate) fn latch(self) -> u32
        ensures { result ≡ self.latch }
    {
        self.latch
    }

    pub(crate) fn dir(self) -> u32
        ensures { result ≡ self.dir }
    {
        self.dir
    }

    // The state of each pin: its latch where it is an output, else its input.
    #[tactic(auto, using(registers::proofs::Digits::complement))]
    fn pins(self) -> u32
        ensures { result ≡ spec.pins self }
    {
        (self.input & !self.dir) | (self.latch & self.dir)
    }

    // The pins that rose with CNR or fell with CNF since the last clock.
    fn hits(self) -> u32
        ensures { result ≡ spec.hits self }
    {
        let pins = self.pins();
        (pins ^ self.before) & ((pins & self.cnr) | (self.before & self.cnf))
    }

    // Whether any did.
    #[tactic(auto, using(crate::proofs::Noticed::decides_pin))]
    pub(crate) fn changed(self) -> bool
        ensures value { result ≡ spec.changed self }
        ensures some { Decides (spec.changed self) (SomePin self) }
    {
        self.hits() != 0
    }

    // A bit to set where any did.
    pub(crate) fn flag(self, bit: u32) -> u32
        ensures value { result ≡ spec.flag self bit }
        ensures some { Decides (spec.changed self) (SomePin self) }
    {
        if self.changed() { bit } else { 0 }
    }

    pub(crate) fn clocked(self) -> Port
        ensures { result ≡ spec.clocked self }
    {
        Port {
            cn_state: self.cn_state | self.hits(),
            before: self.pins(),
            ..self
        }
    }

    pub(crate) fn feed(&mut self, input: u32)
        ensures { self.new ≡ spec.fed self.old input }
    {
        self.input = input;
    }

    // A reset keeps the input, and takes the pins as they then are.
    pub(crate) fn cleared(self) -> Port
        ensures { result ≡ spec.cleared self }
    {
        let port = Port {
            input: self.input,
            ..Port::new()
        };
        Port {
            before: port.pins(),
            ..port
        }
    }

    pub(crate) fn word(self, register: PortRegister) -> u32
        ensures { result ≡ spec.word self register }
    {
        match register {
            PortRegister::Pins => self.pins(),
            PortRegister::Latch => self.latch,
            PortRegister::Dir => self.dir,
            PortRegister::Cnr => self.cnr,
            PortRegister::Cnf => self.cnf,
            PortRegister::CnState => self.cn_state,
        }
    }

    // Any write to the pins acts on the latch.
    pub(crate) fn put(&mut self, register: PortRegister, write: Write)
        ensures { self.new ≡ spec.written self.old register (alias_number write.alias) write.value (lane_bits write.lanes.mask) }
    {
        match register {
            PortRegister::Pins | PortRegister::Latch => self.latch = write.apply(self.latch),
            PortRegister::Dir => self.dir = write.apply(self.dir),
            PortRegister::Cnr => self.cnr = write.apply(self.cnr),
            PortRegister::Cnf => self.cnf = write.apply(self.cnf),
            PortRegister::CnState => self.cn_state = write.clear(self.cn_state),
        }
    }
}
