// What peripherals share: how an access finds its register, and how output words are handed over.
ghost use Rattle.std.specs.Prelude.{◌≡◌, min, ◌++◌, length, take, drop};
ghost use Rattle.faults.specs.Faults.{told};
ghost use Rattle.peripheral.specs.Bus as spec;

use faults::{Fault, Layer, Refusal};

// The register that stands at an address, or the fault that says why there is none.
pub fn located<R: Drop>(addr: u32, claimed: bool, register: Option<R>) -> Result<R, Fault>
    ensures { told result ≡ spec.located addr claimed register }
{
    let place = u64::from(addr);
    if !claimed {
        return Err(Fault {
            refusal: Refusal::Unclaimed,
            layer: Layer::Bus,
            place,
        });
    }
    register.ok_or(Fault {
        refusal: Refusal::NoRegister,
        layer: Layer::Register,
        place,
    })
}

// Copies as many words as there is room for, and says how many.
pub fn fill(into: &mut [u32], words: &[u32]) -> usize
    ensures count { result ≡ min (length into.old) (length words.now) }
    ensures words { into.new ≡ take result words.now ++ drop result into.old }
{
    let count = into.len().min(words.len());
    into[0..count].copy_from_slice(&words[0..count]);
    count
}
