// Dims a lamp to 40 %: a pulse-width module lights it for 400 of the 1,000 clocks of a timer's period.
#![tactic(auto)]

use lamp::{Lamp, Setting};
use std::io;

mod lamp;

const SETTINGS: [Setting; 4] = [
    // PERIOD of timer 2
    Setting {
        addr: 0x1B00_2220,
        value: 1_000,
    },
    // NEXT_VALUE of module 0
    Setting {
        addr: 0x1B00_3020,
        value: 400,
    },
    // CONTROL of module 0: ENABLE, and timer 2
    Setting {
        addr: 0x1B00_3000,
        value: 0x102,
    },
    // CONTROL of timer 2: RUN
    Setting {
        addr: 0x1B00_2200,
        value: 1,
    },
];

// COUNT of timer 2.
const COUNT: u32 = 0x1B00_2210;

// How time is cut: uneven pieces of 6,000 clocks. Where an edge falls does not depend on them.
const STRIDES: [u32; 8] = [1, 998, 2, 512, 1_487, 3, 997, 2_000];

// Many periods, and no loop over them.
const LEAP: u32 = 4_294_967_295;

// The edges in so many clocks.
fn watch(rt: &HostRuntime, lamp: &mut Lamp, clocks: u32) -> io::Result<()> {
    let mut left = clocks;
    while left > 0 {
        let before = lamp.is_lit();
        left -= lamp.pass(left);
        let lit = lamp.is_lit();
        if lit != before {
            let cycle = lamp.cycle();
            let way = if lit { "on" } else { "off" };
            println!(rt; "  cycle {cycle}: the lamp goes {way}")?;
        }
    }
    Ok(())
}

fn leap(rt: &HostRuntime, lamp: &mut Lamp) -> io::Result<()> {
    let from = lamp.cycle();
    let mask = lamp.leap(LEAP);
    let to = lamp.cycle();
    println!(rt; "cycle {from}: {LEAP} clocks at once, to cycle {to}: raised mask 0x{mask:04X}")?;
    match lamp.read(COUNT) {
        Ok(count) => println!(rt; "cycle {to}: COUNT is {count}"),
        Err(fault) => println!(rt; "cycle {to}: refused, {fault}"),
    }
}

fn main(rt: HostRuntime) -> io::Result<()> {
    let mut lamp = Lamp::new();
    if let Err(fault) = lamp.configure(&SETTINGS) {
        return println!(rt; "refused, {fault}");
    }
    for clocks in STRIDES {
        let cycle = lamp.cycle();
        println!(rt; "cycle {cycle}: a stride of {clocks}")?;
        watch(&rt, &mut lamp, clocks)?;
    }
    let lit = lamp.lit_clocks();
    let cycle = lamp.cycle();
    println!(rt;
        "cycle {cycle}: lit for {lit} clocks; the first period is dark, since a tick loads VALUE"
    )?;
    leap(&rt, &mut lamp)
}
