// Records, one after the other, in memory that the host lends.
#![tactic(auto)]

ghost use Rattle.std.specs.Prelude.{◌≡◌, ◌-◌, ◌<◌, ◌≤◌, ◌↔◌, [], ◌∷◌, IsTrue, min, length, take};

// The first slots hold the records so far.
#[derive(Drop)]
pub struct Log<'a, T> {
    slots: &'a mut [T],
    used: usize,
    ghost within: { used ≤ length slots.now },
}

impl<'a, T: Copy> Log<'a, T> {
    ghost use Rattle.host_log.specs.Lent.{Appends};

    // A log with no records.
    pub fn new(slots: &'a mut [T]) -> Log<'a, T>
        ensures slots { result.slots ≡ slots.entry }
        ensures used { result.used ≡ 0 }
    {
        Log { slots, used: 0 }
    }

    // A log that goes on after so many records, or after all where there are fewer slots.
    pub fn resume(slots: &'a mut [T], used: usize) -> Log<'a, T>
        ensures slots { result.slots ≡ slots.entry }
        ensures used { result.used ≡ min used (length slots.old) }
    {
        let used = used.min(slots.len());
        Log { slots, used }
    }

    // Adds a record, and says whether there was room. A full log stays as it is.
    pub fn push(&mut self, record: T) -> bool
        ensures appends { Appends self.old self.new («record» ∷ []) }
        ensures room { IsTrue result ↔ (self.old.used < length self.old.slots.now) }
    {
        if self.free() == 0 {
            return false;
        }
        self.slots[self.used] = record;
        self.used += 1;
        true
    }

    // How many records there are.
    pub fn len(&self) -> usize
        ensures { result ≡ self.now.used }
    {
        self.used
    }

    // How many more there is room for.
    pub fn free(&self) -> usize
        ensures { result ≡ length self.now.slots.now - self.now.used }
    {
        self.slots.len() - self.used
    }

    // The records so far.
    pub fn records(&self) -> &[T]
        ensures { result.now ≡ take self.now.used self.now.slots.now }
    {
        &self.slots[..self.used]
    }
}
