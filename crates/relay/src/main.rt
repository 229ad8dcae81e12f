// Switches two relays through the GPIO, shows them on a lamp panel, and serves a change on an input pin.
#![tactic(auto)]

use gpio::Gpio;
use job::JOB;
use panel::Panel;
use peripheral::Pair;
use report::Line;
use rig::Rig;
use std::io;

mod job;
mod report;
mod rig;

fn main(rt: HostRuntime) -> io::Result<()> {
    let mut lamps = 0;
    let mut rig = Rig::new(Pair {
        first: Gpio::new(),
        second: Panel::new(&mut lamps),
    });
    for action in JOB {
        let cycle = rig.cycle();
        let outcome = rig.perform(action);
        let line = Line {
            cycle,
            action,
            outcome,
        };
        println!(rt; "{line}")?;
    }
    println!(rt; "the host's own lamp word: 0x{lamps:08X}")
}
