// Where the registers of the control block stand.
ghost use Rattle.board.specs.Map.{owns, register_at};

use peripheral::RegisterMap;

// The registers of the control block.
#[derive(Clone, Copy)]
pub enum Register {
    Control,
    IntEn,
    IntFlags,
    ClkFreq,
}

// The control block has 4 KiB of addresses. In them bits 11 to 4 give a register's number.
impl RegisterMap for Register {
    ghost owned = { owns };

    ghost found = { register_at };

    fn owns(word: u32) -> bool {
        matches!(word, 0x1B00_0000..=0x1B00_0FFF)
    }

    fn at(word: u32) -> Option<Register> {
        match word / 16 % 256 {
            0 => Some(Register::Control),
            1 => Some(Register::IntEn),
            2 => Some(Register::IntFlags),
            3 => Some(Register::ClkFreq),
            _ => None,
        }
    }
}
