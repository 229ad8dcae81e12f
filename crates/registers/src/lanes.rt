// The byte lanes of a write.
ghost use Rattle.std.specs.Prelude.{◌≡◌, ℕ, ◌/◌, ◌<◌, is_some, IfSome, nat_lt};
ghost use Rattle.registers.specs.Bits.{bit, lane_bits};

// The four byte enables of a write: bit i of the mask lets byte i of the word change, the lowest byte first.
#[derive(Clone, Copy, PartialEq, Eq, Debug)]
pub struct Lanes {
    mask: u8,
    ghost four: { mask < 16 },
}

impl Lanes {
    // The lanes of a mask; none where it names more than four.
    pub fn new(mask: u8) -> Option<Lanes>
        ensures test { is_some result ≡ nat_lt mask 16 }
        ensures value { IfSome result (λ lanes. lanes.mask ≡ mask) }
    {
        if mask < 16 {
            Some(Lanes { mask })
        } else {
            None
        }
    }

    // All four lanes: a write of a whole word.
    pub fn all() -> Lanes
        ensures { result.mask ≡ 15 }
    {
        Lanes { mask: 15 }
    }

    pub fn mask(self) -> u8
        ensures { result ≡ self.mask }
    {
        self.mask
    }

    // The bits of a word that lie in the lanes that are on.
    #[tactic(auto, using(crate::proofs::Accesses::lane_bit))]
    pub fn bits(self) -> u32
        ensures value { result ≡ lane_bits self.mask }
        ensures each { (k : ℕ) → k < 32 → bit k result ≡ bit (k / 8) self.mask }
    {
        let mask = u32::from(self.mask);
        mask % 2 * 0xFF
            + mask / 2 % 2 * 0xFF00
            + mask / 4 % 2 * 0xFF_0000
            + mask / 8 % 2 * 0xFF00_0000
    }
}
