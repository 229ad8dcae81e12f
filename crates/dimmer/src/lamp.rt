// A lamp on output 0 of the timer unit, and how many clocks have passed.
ghost use Rattle.std.specs.Prelude.{◌≡◌, ◌<◌, ◌≤◌};
ghost use Rattle.peripheral.specs.Model as model;
ghost use Rattle.timers.specs.Rules.{state_of, timers_model};

use peripheral::{Fault, Peripheral};
use registers::Lanes;
use timers::Timers;

// A register of the unit, and the word that it is given.
#[derive(Clone, Copy)]
pub struct Setting {
    pub addr: u32,
    pub value: u32,
}

#[derive(Drop)]
pub struct Lamp {
    unit: Timers,
    cycle: u64,
    lit_clocks: u64,
}

impl Lamp {
    pub(crate) fn new() -> Lamp {
        Lamp {
            unit: Timers::new(),
            cycle: 0,
            lit_clocks: 0,
        }
    }

    pub(crate) fn configure(&mut self, settings: &[Setting]) -> Result<(), Fault> {
        for setting in settings {
            self.unit.write(setting.addr, setting.value, Lanes::all())?;
        }
        Ok(())
    }

    pub(crate) fn cycle(&self) -> u64 {
        self.cycle
    }

    // For how many clocks it was lit so far.
    pub(crate) fn lit_clocks(&self) -> u64 {
        self.lit_clocks
    }

    pub(crate) fn is_lit(&self) -> bool {
        let mut words = [0];
        self.unit.outputs(&mut words);
        words[0] % 2 == 1
    }

    // Passes at most so many clocks, at once, and stops right after one at which the lamp may switch.
    pub(crate) fn pass(&mut self, most: u32) -> u32
        ensures some { 0 < most → 0 < result }
        ensures most { result ≤ most }
        ensures after { state_of self.new.unit ≡ model.clocks timers_model result (state_of self.old.unit) }
    {
        let clocks = self.unit.quiet().saturating_add(1).min(most);
        if self.is_lit() {
            self.lit_clocks = self.lit_clocks.saturating_add(u64::from(clocks));
        }
        self.leap(clocks);
        clocks
    }

    // Passes so many clocks at once, however often the lamp switches in them. The answer has bit k where they raise
    // interrupt 8 + k.
    pub(crate) fn leap(&mut self, clocks: u32) -> u16
        ensures after { state_of self.new.unit ≡ model.clocks timers_model clocks (state_of self.old.unit) }
        ensures value { result ≡ model.raises timers_model clocks (state_of self.old.unit) }
    {
        self.cycle = self.cycle.saturating_add(u64::from(clocks));
        self.unit.advance(clocks)
    }

    pub(crate) fn read(&self, addr: u32) -> Result<u32, Fault> {
        self.unit.read(addr)
    }
}
