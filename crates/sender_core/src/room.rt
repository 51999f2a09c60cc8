//! What the run of a trace by senders is known to do before it starts, and how much its lists are given memory for: a
//! list that has to grow is copied most times.

ghost use Rattle.std.specs.Prelude.{◌≡◌, if◌then◌else◌, min};
ghost use Rattle.sender_core.specs.Rooms.{dequeue_count, enqueue_count, events_of, is_any_close, steps_of};

use sched_core::Step;

/// What a run by senders is known to do before it starts.
#[derive(Clone, Copy)]
pub struct Expected {
    /// So many packets are accepted: all of a trace that has no close. Of one with a close it depends on the threads how
    /// many are, and none is expected.
    pub packets: usize,
    /// The trace has so many dequeues then.
    pub dequeues: usize,
}

/// For how many events and how many steps the lists of a run are given memory.
#[derive(Clone, Copy)]
pub struct Room {
    /// The events.
    pub events: usize,
    /// The steps.
    pub steps: usize,
}

impl Expected {
    /// Of a trace with these steps.
    pub fn of(steps: &[Step]) -> Expected
        ensures packets { result.packets ≡ (if is_any_close steps.now then 0 else enqueue_count steps.now) }
        ensures dequeues { result.dequeues ≡ (if is_any_close steps.now then 0 else dequeue_count steps.now) }
    {
        let (mut packets, mut dequeues) = (0, 0);
        for step in steps {
            match step {
                Step::Enqueue { .. } => packets += 1,
                Step::Dequeue { .. } => dequeues += 1,
                Step::Close { .. } => {
                    return Expected {
                        packets: 0,
                        dequeues: 0,
                    };
                }
            }
        }
        Expected { packets, dequeues }
    }

    /// All events and steps, where packets are expected. So many more packets are allowed for, since an engine and a
    /// scheduler take memory ahead.
    pub fn room(self, ahead: usize) -> Room
        ensures events { result.events ≡ events_of self.packets ahead }
        ensures steps { result.steps ≡ steps_of self.packets self.dequeues ahead }
    {
        if self.packets == 0 {
            return Room {
                events: 0,
                steps: 0,
            };
        }
        let twice = self.packets.saturating_add(ahead).saturating_mul(2);
        Room {
            // A packet is accepted, and sent or dropped. Then there is the close.
            events: twice.saturating_add(1),
            // After the last row there are a close, a dequeue for each packet that waits, and one that finds none.
            steps: self.dequeues.saturating_add(twice).saturating_add(2),
        }
    }

    /// So many acceptances are expected of a sender that has so many packets.
    pub fn acceptances(self, packets: usize) -> usize
        ensures { result ≡ min packets self.packets }
    {
        packets.min(self.packets)
    }
}
