// What a host can see change, and the events of its changes.
ghost use Rattle.host_log.specs.Lent.{Appends};
ghost use Rattle.trace.specs.Events.{if_changed, output_events};
ghost use Rattle.trace.specs.Views.{between};

use crate::events::{Event, Kind};
use host_log::Log;

// The first 32 output words, 0 past the last one, the core word and the interrupt on offer.
#[derive(Clone, Copy)]
pub struct View {
    pub words: [u32; 32],
    pub core: u32,
    pub offer: u32,
}

// Writes an event that tells a new value, if it is not the one before.
fn note(log: &mut Log<'_, Event>, before: u32, event: Event)
    ensures { Appends log.old log.new (if_changed before event.value event) }
{
    if before != event.value {
        log.push(event);
    }
}

impl View {
    // Writes an event for each thing that differs in `after`: output words, ascending, core word, offer. The core word
    // is told as one more output word.
    pub fn record(&self, after: &View, cycle: u64, log: &mut Log<'_, Event>)
        ensures { Appends log.old log.new (between cycle self.now after.now) }
    {
        self.record_words(after, cycle, log);
        note(
            log,
            self.core,
            Event::new(cycle, Kind::Output, self.words.len() as u32, after.core),
        );
        note(
            log,
            self.offer,
            Event::new(cycle, Kind::Offer, 0, after.offer),
        );
    }

    fn record_words(&self, after: &View, cycle: u64, log: &mut Log<'_, Event>)
        ensures { Appends log.old log.new (output_events cycle 0 self.now.words after.now.words) }
    {
        for (i, (before, after)) in self.words.iter().zip(&after.words).enumerate() {
            note(
                log,
                *before,
                Event::new(cycle, Kind::Output, i as u32, *after),
            );
        }
    }
}
