// Two peripherals as one.
ghost use Rattle.std.specs.Prelude.{◌≡◌, min, ◌++◌};
ghost use Rattle.peripheral.specs.Model.{Same};
ghost use Rattle.peripheral.specs.Pair.{pair};
ghost use Rattle.peripheral.specs.PairKeeps.{pair_keeps, pair_sized};

use crate::interface::Peripheral;
use faults::Fault;
use registers::Lanes;

// Two peripherals, held by value. State and outputs are the first's and then the second's. The first that claims
// an address serves it. An input goes to each side that has it; clocks and resets go to both; raises are joined.
#[derive(Drop)]
pub struct Pair<P, Q> {
    pub first: P,
    pub second: Q,
}

// The same three peripherals, nested the other way round, which makes no difference.
pub fn regroup<P: Peripheral, Q: Peripheral, R: Peripheral>(
    board: Pair<Pair<P, Q>, R>,
) -> Pair<P, Pair<Q, R>>
    ensures parts { (result.first ≡ board.first.first) × (result.second.first ≡ board.first.second) × (result.second.second ≡ board.second) }
    ensures same { Same (pair (pair (P.Peripheral.model board.first.first) (Q.Peripheral.model board.first.second)) (R.Peripheral.model board.second)) (pair (P.Peripheral.model result.first) (pair (Q.Peripheral.model result.second.first) (R.Peripheral.model result.second.second))) }
    ensures state { (P.Peripheral.state board.first.first ++ Q.Peripheral.state board.first.second) ++ R.Peripheral.state board.second ≡ P.Peripheral.state result.first ++ (Q.Peripheral.state result.second.first ++ R.Peripheral.state result.second.second) }
{
    let Pair {
        first: Pair { first, second },
        second: third,
    } = board;
    Pair {
        first,
        second: Pair {
            first: second,
            second: third,
        },
    }
}

impl<P: Peripheral, Q: Peripheral> Peripheral for Pair<P, Q> {
    ghost model = { λ x. pair (P.Peripheral.model x.first) (Q.Peripheral.model x.second) };

    ghost state = { λ x. P.Peripheral.state x.first ++ Q.Peripheral.state x.second };

    ghost spare = { λ x. P.Peripheral.spare x.first ++ Q.Peripheral.spare x.second };

    ghost calm = { λ x. min (P.Peripheral.calm x.first) (Q.Peripheral.calm x.second) };

    ghost keeps = { λ x. pair_keeps (P.Peripheral.model x.first) (Q.Peripheral.model x.second) (P.Peripheral.keeps x.first) (Q.Peripheral.keeps x.second) };

    ghost sized = { λ x. pair_sized (P.Peripheral.model x.first) (Q.Peripheral.model x.second) (P.Peripheral.state x.first) (Q.Peripheral.state x.second) (P.Peripheral.sized x.first) (Q.Peripheral.sized x.second) };

    fn claims(&self, addr: u32) -> bool {
        self.first.claims(addr) || self.second.claims(addr)
    }

    fn read(&self, addr: u32) -> Result<u32, Fault> {
        if self.first.claims(addr) {
            self.first.read(addr)
        } else {
            self.second.read(addr)
        }
    }

    #[tactic(auto, using(crate::proofs::Sides::done_first, crate::proofs::Sides::kept_first, crate::proofs::Sides::kept_second))]
    fn write(&mut self, addr: u32, value: u32, lanes: Lanes) -> Result<(), Fault> {
        if self.first.claims(addr) {
            self.first.write(addr, value, lanes)
        } else {
            self.second.write(addr, value, lanes)
        }
    }

    fn has_input(&self, input: u32) -> bool {
        self.first.has_input(input) || self.second.has_input(input)
    }

    fn feed(&mut self, input: u32, value: u32) {
        self.first.feed(input, value);
        self.second.feed(input, value);
    }

    fn advance(&mut self, n: u32) -> u16 {
        let first = self.first.advance(n);
        let second = self.second.advance(n);
        first | second
    }

    fn quiet(&self) -> u32 {
        self.first.quiet().min(self.second.quiet())
    }

    fn outputs(&self, into: &mut [u32]) -> usize {
        let count = self.first.outputs(into);
        let more = self.second.outputs(&mut into[count..]);
        count + more
    }

    fn reset(&mut self) {
        self.first.reset();
        self.second.reset();
    }
}
