// Two ports of 32 general-purpose pins each, with an interrupt where a watched pin changes.
#![tactic(auto)]

ghost use Rattle.std.specs.Prelude.{◌≡◌, replicate, refl};
ghost use Rattle.peripheral.specs.Model.{Quiet, Largest, clocks, raises};
ghost use Rattle.gpio.specs.Ports as ports;
ghost use Rattle.gpio.specs.Rules.{after_write, encode, gpio_model, model_in, spare_in, gpio_keeps};
ghost use Rattle.gpio.specs.Law.{Notices, Raises, Flags};

use map::Register;
use peripheral::{Fault, Peripheral, RegisterBlock, RegisterMap, fill};
use ports::Port;
use registers::{Lanes, Write};

mod map;
mod ports;

// What a change raises: interrupt 15, as bit 15 - 8.
const CHANGE: u16 = 0x80;

// Both ports, and INT_STATUS, in which bit i tells that a watched pin of port i changed.
#[derive(Clone, Copy)]
pub struct Gpio {
    first: Port,
    second: Port,
    int_status: u32,
}

impl Gpio {
    // Both ports with their registers and inputs at 0.
    pub fn new() -> Gpio
        ensures { encode result ≡ replicate 15 0 }
    {
        Gpio {
            first: Port::new(),
            second: Port::new(),
            int_status: 0,
        }
    }

    fn clocked(self) -> Gpio
        ensures value { result ≡ ports.clocked self }
        ensures flags { Flags self result }
    {
        Gpio {
            first: self.first.clocked(),
            second: self.second.clocked(),
            int_status: self.int_status | self.first.flag(1) | self.second.flag(2),
        }
    }

    // What the next clock raises.
    fn raised(self) -> u16
        ensures value { result ≡ ports.raised self }
        ensures raise { Raises self result }
    {
        let first = self.first.changed();
        let second = self.second.changed();
        if first || second { CHANGE } else { 0 }
    }
}

impl RegisterBlock for Gpio {
    type Register = Register;

    type Content = Gpio;

    ghost content = { λ x. x };

    ghost word_of = { ports.word };

    ghost after_write = { after_write };

    fn word(&self, register: Register) -> u32 {
        match register {
            Register::OfPort(0, register) => self.first.word(register),
            Register::OfPort(_, register) => self.second.word(register),
            Register::IntStatus => self.int_status,
        }
    }

    fn put(&mut self, register: Register, write: Write) {
        match register {
            Register::OfPort(0, register) => self.first.put(register, write),
            Register::OfPort(_, register) => self.second.put(register, write),
            Register::IntStatus => self.int_status = write.clear(self.int_status),
        }
    }
}

impl Peripheral for Gpio {
    ghost model = { model_in };

    ghost state = { encode };

    ghost spare = { spare_in };

    ghost calm = { ports.calm };

    ghost keeps = { λ _. gpio_keeps };

    ghost sized = { λ _. refl };

    fn claims(&self, addr: u32) -> bool {
        Register::claims(addr)
    }

    fn read(&self, addr: u32) -> Result<u32, Fault> {
        self.read_at(addr)
    }

    fn write(&mut self, addr: u32, value: u32, lanes: Lanes) -> Result<(), Fault> {
        self.write_at(addr, value, lanes)
    }

    fn has_input(&self, input: u32) -> bool {
        input < 2
    }

    fn feed(&mut self, input: u32, value: u32) {
        match input {
            0 => self.first.feed(value),
            1 => self.second.feed(value),
            _ => {}
        }
    }

    // The first clock notices the pins that changed; the pins then stay, so more clocks notice nothing.
    #[tactic(auto, using(crate::proofs::Noticed::notices), unfolding(peripheral::specs::Model::steps, peripheral::specs::Model::union))]
    fn advance(&mut self, n: u32) -> u16
        ensures same { model_in self.new ≡ model_in self.old }
        ensures spare { spare_in self.new ≡ spare_in self.old }
        ensures after { encode self.new ≡ clocks gpio_model n (encode self.old) }
        ensures value { result ≡ raises gpio_model n (encode self.old) }
        ensures notices { Notices self.old n self.new result }
    {
        if n == 0 {
            return 0;
        }
        let raised = self.raised();
        *self = self.clocked();
        raised
    }

    fn quiet(&self) -> u32
        ensures holds { Quiet gpio_model (encode self.now) result }
        ensures value { result ≡ ports.calm self.now }
        ensures largest { Largest gpio_model (encode self.now) result }
    {
        if self.raised() == 0 { u32::MAX } else { 0 }
    }

    fn outputs(&self, into: &mut [u32]) -> usize {
        fill(
            into,
            &[
                self.first.latch(),
                self.first.dir(),
                self.second.latch(),
                self.second.dir(),
            ],
        )
    }

    fn reset(&mut self) {
        *self = Gpio {
            first: self.first.cleared(),
            second: self.second.cleared(),
            int_status: 0,
        };
    }
}
