// Checks CRC-32C against published values, and takes whole uploads through the serial bridge.
#![tactic(auto)]

use published::VECTORS;
use report::{Ending, Line, Outcome};
use serial::{Bridge, Step};
use std::io;
use uploads::{UPLOADS, Upload, serve};

mod published;
mod report;
mod uploads;

// Whether every vector has its published value.
fn check_vectors(rt: &HostRuntime) -> io::Result<bool> {
    let mut passed = true;
    for vector in VECTORS {
        let outcome = Outcome {
            vector,
            computed: vector.computed(),
        };
        println!(rt; "{outcome}")?;
        passed &= outcome.passes();
    }
    Ok(passed)
}

// Whether an upload gets the reply that it should.
fn check_upload(rt: &HostRuntime, upload: Upload) -> io::Result<bool> {
    let mut bridge = Bridge::new();
    let mut reply = None;
    rt.println(upload.title)?;
    for (place, byte) in upload.frame.iter().enumerate() {
        if let Some(step) = serve(&mut bridge, *byte) {
            if let Step::Reply(byte) = step {
                reply = Some(byte);
            }
            let line = Line { place, step };
            println!(rt; "{line}")?;
        }
    }
    let ending = Ending {
        upload,
        reply,
        stopped: bridge.is_stopped(),
    };
    println!(rt; "{ending}")?;
    Ok(ending.passes())
}

fn main(rt: HostRuntime) -> io::Result<()> {
    let mut passed = check_vectors(&rt)?;
    for upload in UPLOADS {
        passed &= check_upload(&rt, upload)?;
    }
    if passed {
        Ok(())
    } else {
        Err(io::ErrorKind::InvalidData.into())
    }
}
