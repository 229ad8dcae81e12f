// Examples of what the peripherals do, alone and in pairs of pairs over lent memory.
#![tactic(auto)]

ghost use Rattle.std.specs.Prelude.{◌≡◌};
ghost use Rattle.peripheral.specs.Bus.{told};
ghost use Rattle.conformance.specs.Exchange.{exchange_state, exchange_answer};

use peripheral::{Fault, Peripheral};
use registers::Lanes;

// Writes a word, and gives what stood there before. Proved once, for every peripheral and every nesting of pairs.
pub fn exchange<P: Peripheral>(board: &mut P, addr: u32, value: u32) -> Result<u32, Fault>
    ensures same { P.Peripheral.model board.new ≡ P.Peripheral.model board.old }
    ensures spare { P.Peripheral.spare board.new ≡ P.Peripheral.spare board.old }
    ensures after { P.Peripheral.state board.new ≡ exchange_state (P.Peripheral.model board.old) (P.Peripheral.state board.old) addr value }
    ensures value { told result ≡ exchange_answer (P.Peripheral.model board.old) (P.Peripheral.state board.old) addr value }
{
    let old = board.read(addr)?;
    board.write(addr, value, Lanes::all())?;
    Ok(old)
}

#[cfg(test)]
mod tests {
    use super::*;
    use gpio::Gpio;
    use panel::Panel;
    use peripheral::{Pair, regroup};
    use ram::Ram;
    use std::test::Fail;

    const LATCH: u32 = 0x1B00_1010;

    const LAMPS: u32 = 0x1B00_8000;

    const RAM: u32 = 0x1000_0000;

    // Bytes whose lane is off stay; the aliases read 0; INVERT at PORT inverts the latch, whatever the pins are.
    #[test]
    fn register_access(rt: HostRuntime) -> Result<(), Fail> {
        let Some(lanes) = Lanes::new(5) else {
            return Err(Fail::new("no lanes 5"));
        };
        let mut gpio = Gpio::new();
        gpio.write(LATCH, 0x1234_5678, lanes)?;
        assert_eq!(rt; gpio.read(LATCH + 3)?, 0x0034_0078);
        assert_eq!(rt; gpio.read(LATCH + 4)?, 0);
        gpio.feed(0, 0xFFFF_FFFF);
        assert_eq!(rt; exchange(&mut gpio, 0x1B00_100C, 0x0000_00FF)?, 0);
        assert_eq!(rt; gpio.read(LATCH)?, 0x0034_0087);
        assert_eq!(rt; gpio.read(0x1B00_1000)?, 0xFFFF_FFFF);
        Ok(())
    }

    // A clear-only bit stays on a main write of 1 and on a SET, and goes on an INVERT of 1.
    #[test]
    fn change_notification(rt: HostRuntime) -> Result<(), Fail> {
        let mut gpio = Gpio::new();
        gpio.write(0x1B00_1140, 0b10, Lanes::all())?;
        gpio.feed(1, 0b11);
        assert_eq!(rt; gpio.clock(), 0);
        gpio.feed(1, 0b00);
        assert_eq!(rt; gpio.advance(9), 0x80);
        assert_eq!(rt; gpio.read(0x1B00_1150)?, 0b10);
        assert_eq!(rt; gpio.read(0x1B00_10F0)?, 0b10);
        gpio.write(0x1B00_1150, 0b11, Lanes::all())?;
        gpio.write(0x1B00_1154, 0b01, Lanes::all())?;
        assert_eq!(rt; gpio.read(0x1B00_1150)?, 0b10);
        gpio.write(0x1B00_115C, 0b10, Lanes::all())?;
        assert_eq!(rt; gpio.read(0x1B00_1150)?, 0);
        Ok(())
    }

    // The first of two panels serves; an input goes to both GPIOs; outputs come in order, as far as there is room.
    #[test]
    fn pairs_of_pairs(rt: HostRuntime) -> Result<(), Fail> {
        let mut front = 7;
        let mut rear = 9;
        let mut board = regroup(Pair {
            first: Pair {
                first: Gpio::new(),
                second: Panel::new(&mut front),
            },
            second: Pair {
                first: Panel::new(&mut rear),
                second: Gpio::new(),
            },
        });
        assert_eq!(rt; exchange(&mut board, LAMPS, 5)?, 7);
        let mut words = [1; 6];
        assert_eq!(rt; board.outputs(&mut words), 6);
        assert_eq!(rt; words, [0, 0, 0, 0, 5, 9]);
        board.reset();
        assert_eq!(rt; front, 0);
        assert_eq!(rt; rear, 0);
        Ok(())
    }

    // Words go into the host's bytes, the lowest byte first. Of ten bytes eight are used; the spare ones stay.
    #[test]
    fn lent_bytes(rt: HostRuntime) -> Result<(), Fail> {
        let mut bytes = [0xEE; 10];
        let mut ram = Ram::new(&mut bytes);
        assert_eq!(rt; exchange(&mut ram, RAM + 4, 0x1234_5678)?, 0xEEEE_EEEE);
        assert!(rt; ram.read(RAM + 8).is_err());
        assert_eq!(rt;
            bytes,
            [0xEE, 0xEE, 0xEE, 0xEE, 0x78, 0x56, 0x34, 0x12, 0xEE, 0xEE]
        );
        Ok(())
    }
}
