// Tensions to times: arc after arc joins two parts, or closes a walk and is tested.
#![tactic(auto)]

ghost use Rattle.std.specs.Prelude.{◌≡◌, ◌<◌, ◌≤◌, pos, ◌+ℤ◌, ◌-ℤ◌, length};
ghost use Rattle.numbers.specs.Remainder.{IsRemainder};
ghost use Rattle.walks.specs.Place.{Given, PlacedBy, Timed, Begun, Moved, Taken, Noted};

// The most events.
const EVENTS: usize = 64;

// What is known of an event: the lowest event of its part, and its time after that one.
#[derive(Clone, Copy, Drop)]
struct Mark {
    label: u32,
    time: u32,
}

// An arc between two events, with its tension.
#[derive(Drop)]
struct Arc {
    tail: usize,
    head: usize,
    tension: i32,
}

// By how much a tail's time and the tension run past the head's time, from 0 to the period less 1.
fn excess(tail: u32, tension: i32, head: u32, period: u32) -> u32
    requires { 0 < period }
    ensures { IsRemainder ((pos tail +ℤ tension) -ℤ pos head) period result }
{
    numbers::remainder(numbers::difference(tail, head) + i64::from(tension), period)
}

// The parts that the arcs so far make of the events: a mark for each event, with a time below the period.
#[derive(Drop)]
struct Parts<'a> {
    marks: &'a mut [Mark],
    period: u32,
    ghost timed: { Timed marks.now period },
}

impl<'a> Parts<'a> {
    // Each event is a part of its own, at 0.
    fn new(marks: &'a mut [Mark], period: u32) -> Self
        requires few { length marks.old ≤ EVENTS }
        requires positive { 0 < period }
        requires most { period ≤ 3600 }
        ensures begun { Begun (length marks.old) marks.old result.marks.now }
        ensures period { result.period ≡ period }
    {
        for (event, mark) in marks.iter_mut().enumerate() {
            *mark = Mark {
                label: event as u32,
                time: 0,
            };
        }
        Parts { marks, period }
    }

    // The part labelled `from` gets the label `to`, and times that are `shift` later.
    fn relabel(&mut self, from: u32, to: u32, shift: u32)
        requires { shift < self.old.period }
        ensures moved { Moved (length self.old.marks.now) from to shift self.old.period self.old.marks.now self.new.marks.now }
        ensures period { self.new.period ≡ self.old.period }
    {
        for mark in self.marks.iter_mut() {
            if mark.label == from {
                *mark = Mark {
                    label: to,
                    time: (mark.time + shift) % self.period,
                };
            }
        }
    }

    // An arc is placed: true, or false where no times allow it together with those before it.
    fn take_arc(&mut self, arc: &Arc) -> bool
        requires tail_in { arc.now.tail < length self.old.marks.now }
        requires head_in { arc.now.head < length self.old.marks.now }
        ensures taken { Taken arc.now self.old.period self.old.marks.now self.new.marks.now result }
        ensures period { self.new.period ≡ self.old.period }
    {
        // Number by number: a mark read whole waits until both numbers that were written apart are in memory.
        let tail_label = self.marks[arc.tail].label;
        let head_label = self.marks[arc.head].label;
        let tail_time = self.marks[arc.tail].time;
        let head_time = self.marks[arc.head].time;
        let over = excess(tail_time, arc.tension, head_time, self.period);
        if tail_label == head_label {
            return over == 0;
        }
        if tail_label < head_label {
            self.relabel(head_label, tail_label, over);
            return true;
        }
        self.relabel(tail_label, head_label, (self.period - over) % self.period);
        true
    }

    // The times of the marks are written.
    fn note_times(&self, times: &mut [u32])
        requires { length times.old ≡ length self.now.marks.now }
        ensures { Noted (length times.old) self.now.marks.now times.new }
    {
        // Tried with `zip` over the two rows: the proof of what is written did not close.
        for (event, time) in times.iter_mut().enumerate() {
            *time = self.marks[event].time;
        }
    }
}

// The three rows stand apart: they are those of a network and of a caller, and walks know no network.
// The anchored timetable of arcs with these tensions; or the first arc that no times allow together with those before it, and the times stay as they were.
pub fn place_arcs(
    tail: &[u32],
    head: &[u32],
    tensions: &[i32],
    period: u32,
    times: &mut [u32],
) -> Result<(), usize>
    requires { Given tail.now head.now tensions.now period (length times.old) }
    ensures { PlacedBy tail head tensions period times result }
{
    let mut row = [Mark { label: 0, time: 0 }; EVENTS];
    let mut parts = Parts::new(&mut row[..times.len()], period);
    for k in 0..tail.len() {
        let arc = Arc {
            tail: tail[k] as usize,
            head: head[k] as usize,
            tension: tensions[k],
        };
        if !parts.take_arc(&arc) {
            return Err(k);
        }
    }
    parts.note_times(times);
    Ok(())
}
