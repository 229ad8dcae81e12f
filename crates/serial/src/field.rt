// A field of four bytes, the lowest first.
ghost use Rattle.std.specs.Prelude.{◌≡◌};
ghost use Rattle.serial.specs.Fields as spec;

// Which byte of a field arrives next.
#[derive(Clone, Copy, PartialEq, Eq, Debug)]
pub enum Place {
    First,
    Second,
    Third,
    Fourth,
}

// The bytes of a field so far, in a shift register: each byte enters at the top, so after four the word is there.
#[derive(Clone, Copy, PartialEq, Eq, Debug)]
pub struct Field {
    value: u32,
    next: Place,
}

impl Place {
    fn following(self) -> Place
        ensures { result ≡ spec.following self }
    {
        match self {
            Place::First => Place::Second,
            Place::Second => Place::Third,
            Place::Third => Place::Fourth,
            Place::Fourth => Place::First,
        }
    }
}

impl Field {
    pub(crate) fn new() -> Field
        ensures { result ≡ spec.empty_field }
    {
        Field {
            value: 0,
            next: Place::First,
        }
    }

    // Takes the next byte. With the fourth the field is whole: its word.
    pub(crate) fn take(&mut self, byte: u8) -> Option<u32>
        ensures after { self.new ≡ spec.shifted self.old byte }
        ensures whole { result ≡ spec.whole self.old byte }
    {
        let is_last = self.next == Place::Fourth;
        self.value = self.value / 256 + u32::from(byte) * 0x100_0000;
        self.next = self.next.following();
        is_last.then_some(self.value)
    }
}
