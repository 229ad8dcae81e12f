// What the timer unit does on clocks, and on the bus.
ghost use Rattle.std.specs.Prelude.{◌≡◌, ◌+◌, ◌*◌, ◌%◌, ◌^◌, if◌then◌else◌, map, nat_lt, replicate};
ghost use Rattle.peripheral.specs.Model.{Quiet, Largest, steps, clocks, raises};
ghost use Rattle.timers.specs.Timer as timer;
ghost use Rattle.timers.specs.Timer.{ticks_within};
ghost use Rattle.timers.specs.Unit as spec;
ghost use Rattle.timers.specs.Unit.{bank_of, passed, raise};
ghost use Rattle.timers.specs.Law.{Counts, Duty};
ghost use Rattle.timers.specs.Rules.{after_write, state_of, timers_model, model_in, spare_in, timers_keeps, sized_state};

use crate::map::Register;
use crate::pwm::Pwm;
use crate::timer::Timer;
use crate::{Bank, Timers};
use peripheral::{Fault, Peripheral, RegisterBlock, RegisterMap, fill};
use registers::{Lanes, Write};

// What a tick raises: interrupt 11, as bit 11 - 8.
const TICK: u16 = 8;

// A word of flags with one more, which becomes bit 0.
fn with_flag(word: u32, flag: bool) -> u32
    ensures { result ≡ word * 2 % 2 ^ 32 + timer.number flag }
{
    word.wrapping_mul(2) + u32::from(flag)
}

// Puts what `after` makes of each item in its place.
fn update<T: Copy, F: Fn(T) -> T>(items: &mut [T], after: F)
    requires { F.IsAlwaysCallable after }
    ensures { (h : T → T) → ((x : T) (y : T) → F.post after x y → y ≡ h x) → items.new ≡ map h items.old }
{
    for item in items.iter_mut() {
        *item = after(*item);
    }
}

// What ticks raise, where bit i tells of timer i.
fn raised(ticked: u32) -> u16
    ensures { result ≡ (if nat_lt 0 ticked then 8 else 0) }
{
    if ticked > 0 { TICK } else { 0 }
}

impl Bank {
    // The bank as a reset leaves it.
    #[tactic(auto, unfolding(crate::specs::Unit::zeroed))]
    fn new() -> Bank
        ensures { result ≡ spec.zeroed }
    {
        Bank {
            timers: [Timer::default(); 16],
            modules: [Pwm::default(); 6],
            status: 0,
        }
    }

    fn pass(&mut self, n: u32) -> u16
        ensures after { self.new ≡ passed (steps timer.clocked n) (ticks_within n) self.old }
        ensures value { result ≡ raise (ticks_within n) self.old }
    {
        let ticked = self
            .timers
            .iter()
            .rev()
            .fold(0, |word, timer| with_flag(word, timer.ticks_within(n)));
        let timers = &self.timers;
        update(&mut self.modules, |module| module.after(timers, n));
        update(&mut self.timers, |timer| timer.after(n));
        self.status |= ticked;
        raised(ticked)
    }

    // For how many clocks nothing happens: up to the next tick or edge of an output.
    fn calm(&self) -> u32
        ensures { result ≡ spec.calm self.now }
    {
        let ticks = self
            .timers
            .iter()
            .fold(u32::MAX, |clocks, timer| clocks.min(timer.calm()));
        self.modules.iter().fold(
            ticks,
            |clocks, module| clocks.min(module.calm(&self.timers)),
        )
    }

    // The output word: bit i is the level of module i.
    fn levels(&self) -> u32
        ensures { result ≡ spec.output self.now }
    {
        self.modules.iter().rev().fold(
            0,
            |word, module| with_flag(word, module.is_high(&self.timers)),
        )
    }
}

impl RegisterBlock for Bank {
    type Register = Register;

    type Content = Bank;

    ghost content = { λ u. u };

    ghost word_of = { spec.word };

    ghost after_write = { after_write };

    #[tactic(auto, unfolding(crate::specs::Unit::word))]
    fn word(&self, register: Register) -> u32 {
        match register {
            Register::OfTimer(number, register) => self.timers[number.index].word(register),
            Register::OfPwm(number, register) => self.modules[number.index].word(register),
            Register::IntStatus => self.status,
        }
    }

    #[tactic(auto, unfolding(crate::specs::Unit::written))]
    fn put(&mut self, register: Register, write: Write) {
        match register {
            Register::OfTimer(number, register) => self.timers[number.index].put(register, write),
            Register::OfPwm(number, register) => self.modules[number.index].put(register, write),
            Register::IntStatus => self.status = write.clear(self.status),
        }
    }
}

impl Timers {
    // The unit as a reset leaves it.
    #[tactic(auto, unfolding(crate::specs::Unit::zeroed, crate::specs::Rules::encode))]
    pub fn new() -> Timers
        ensures { state_of result ≡ replicate 67 0 }
    {
        Timers { bank: Bank::new() }
    }
}

impl Peripheral for Timers {
    ghost model = { model_in };

    ghost state = { state_of };

    ghost spare = { spare_in };

    ghost calm = { λ x. spec.calm (bank_of x) };

    ghost keeps = { λ _. timers_keeps };

    ghost sized = { sized_state };

    #[tactic(auto, unfolding(crate::specs::Rules::rules))]
    fn claims(&self, addr: u32) -> bool {
        Register::claims(addr)
    }

    #[tactic(auto, using(crate::proofs::Units::read_unit))]
    fn read(&self, addr: u32) -> Result<u32, Fault> {
        self.bank.read_at(addr)
    }

    #[tactic(auto, using(crate::proofs::Units::written_unit, crate::proofs::Units::written_sixteen, crate::proofs::Units::written_six), unfolding(crate::specs::Rules::rules))]
    fn write(&mut self, addr: u32, value: u32, lanes: Lanes) -> Result<(), Fault> {
        self.bank.write_at(addr, value, lanes)
    }

    #[tactic(auto, unfolding(crate::specs::Rules::rules))]
    fn has_input(&self, _input: u32) -> bool {
        false
    }

    #[tactic(auto, unfolding(crate::specs::Rules::rules))]
    fn feed(&mut self, _input: u32, _value: u32) {}

    // Each timer takes its n clocks at once, by division and remainder.
    #[tactic(auto, using(crate::proofs::Units::passed_unit, crate::proofs::Units::raised_unit, crate::proofs::Tallies::counts, crate::proofs::Waves::duty), unfolding(crate::specs::Unit::passed))]
    fn advance(&mut self, n: u32) -> u16
        ensures same { model_in self.new ≡ model_in self.old }
        ensures spare { spare_in self.new ≡ spare_in self.old }
        ensures after { state_of self.new ≡ clocks timers_model n (state_of self.old) }
        ensures value { result ≡ raises timers_model n (state_of self.old) }
        ensures counts { Counts (bank_of self.old) n (bank_of self.new) result }
        ensures duty { Duty (bank_of self.old) }
    {
        self.bank.pass(n)
    }

    #[tactic(auto, using(crate::proofs::Quieting::quiet_most))]
    fn quiet(&self) -> u32
        ensures holds { Quiet timers_model (state_of self.now) result }
        ensures value { result ≡ spec.calm (bank_of self.now) }
        ensures largest { Largest timers_model (state_of self.now) result }
    {
        self.bank.calm()
    }

    #[tactic(auto, using(crate::proofs::Units::output_unit), unfolding(crate::specs::Rules::rules))]
    fn outputs(&self, into: &mut [u32]) -> usize {
        fill(into, &[self.bank.levels()])
    }

    #[tactic(auto, unfolding(crate::specs::Rules::rules, crate::specs::Unit::zeroed))]
    fn reset(&mut self) {
        self.bank = Bank::new();
    }
}
