// The interface of a peripheral. Its model says what it does; the contracts leave nothing open but the quiet number.
ghost use Rattle.std.specs.Prelude.{◌≡◌, ℕ, min, List, ◌++◌, length, take, drop};
ghost use Rattle.faults.specs.Faults.{told};
ghost use Rattle.registers.specs.Address.{word_address};
ghost use Rattle.peripheral.specs.Model.{Model, Keeps, Quiet, clocks, raises};
ghost use Rattle.peripheral.specs.Bus.{read_at, write_at, done, kept};

use faults::Fault;
use registers::Lanes;

pub trait Peripheral {
    // the rules that it goes by
    ghost model: { Self → Model };

    // its whole state, as the model's rules have it
    ghost state: { Self → List ℕ };

    // lent memory that it holds beside its state: no call changes it
    ghost spare: { Self → List ℕ };

    // the quiet number that it answers
    ghost calm: { Self → ℕ };

    // the rules give states of the right size, and nothing out of range
    ghost keeps: { (x : Self) → Keeps (model x) };

    ghost sized: { (x : Self) → length (state x) ≡ (model x).size };

    fn claims(&self, addr: u32) -> bool
        ensures { result ≡ (model self.now).claims (word_address addr) };

    fn read(&self, addr: u32) -> Result<u32, Fault>
        ensures { told result ≡ read_at (model self.now) (state self.now) addr };

    // A refused write leaves the state as it is.
    fn write(&mut self, addr: u32, value: u32, lanes: Lanes) -> Result<(), Fault>
        ensures same { model self.new ≡ model self.old }
        ensures spare { spare self.new ≡ spare self.old }
        ensures after { state self.new ≡ kept (state self.old) (write_at (model self.old) (state self.old) addr value lanes.mask) }
        ensures value { told result ≡ done (write_at (model self.old) (state self.old) addr value lanes.mask) };

    fn has_input(&self, input: u32) -> bool
        ensures { result ≡ (model self.now).input input };

    // Puts a word on an input; nothing happens where there is no such input.
    fn feed(&mut self, input: u32, value: u32)
        ensures same { model self.new ≡ model self.old }
        ensures spare { spare self.new ≡ spare self.old }
        ensures after { state self.new ≡ (model self.old).feed (state self.old) input value };

    // One clock. The answer has bit k where it raises interrupt 8 + k.
    #[tactic(auto, using(crate::proofs::Steps::steps_one, crate::proofs::Steps::union_one))]
    fn clock(&mut self) -> u16
        ensures same { model self.new ≡ model self.old }
        ensures spare { spare self.new ≡ spare self.old }
        ensures after { state self.new ≡ (model self.old).clock (state self.old) }
        ensures value { result ≡ (model self.old).raised (state self.old) }
    {
        self.advance(1)
    }

    // n clocks at once, and all that they raise.
    fn advance(&mut self, n: u32) -> u16
        ensures same { model self.new ≡ model self.old }
        ensures spare { spare self.new ≡ spare self.old }
        ensures after { state self.new ≡ clocks (model self.old) n (state self.old) }
        ensures value { result ≡ raises (model self.old) n (state self.old) };

    // A number of clocks in which nothing is raised and no output changes. It may be smaller than it could be.
    fn quiet(&self) -> u32
        ensures holds { Quiet (model self.now) (state self.now) result }
        ensures value { result ≡ calm self.now };

    // Fills in as many of the output words as there is room for, and says how many.
    fn outputs(&self, into: &mut [u32]) -> usize
        ensures count { result ≡ min (length into.old) (model self.now).width }
        ensures words { into.new ≡ take result ((model self.now).outputs (state self.now)) ++ drop result into.old };

    fn reset(&mut self)
        ensures same { model self.new ≡ model self.old }
        ensures spare { spare self.new ≡ spare self.old }
        ensures after { state self.new ≡ (model self.old).reset (state self.old) };
}
