// A well-formed network with a time for each event: the public rule at one arc, and the scans over all events and arcs.
ghost use Rattle.std.specs.Prelude.{◌≡◌, length};
ghost use Rattle.network.specs.Network.{events};

use crate::WellFormed;
use crate::rule::{first_late, raised, slack_by, turn_by};

// The times need not be a timetable: each may be late.
#[derive(Drop)]
pub struct Timed<'a> {
    pub network: WellFormed<'a>,
    pub times: &'a [u32],
    ghost long: { length times.now ≡ events network.rows },
}

#[tactic(auto, using(crate::proofs::Arcs::well_rows))]
impl<'a> Timed<'a> {
    ghost use Rattle.std.specs.Prelude.{false, ◌<◌};
    ghost use Rattle.network.specs.First.{FirstOf};
    ghost use Rattle.network.specs.Inner.{Noted};
    ghost use Rattle.network.specs.Network.{arcs};
    ghost use Rattle.numbers.specs.Row.{at};
    ghost use Rattle.network.specs.PublicRule.{Timetable, slack as slack_of, tension as tension_of, met as is_met, cost_of};
    ghost use Rattle.network.specs.Rows.{late, unmet, short_for, arc_rows_of, arc_rows_at, arc_rows_left};

    // The time of an event.
    fn time(&self, event: usize) -> u32
        requires { event < events self.now.network.rows }
        ensures { result ≡ at self.now.times.now event }
    {
        self.times[event]
    }

    // The slack of an arc.
    fn slack(&self, arc: usize) -> u32
        requires { arc < arcs self.now.network.rows }
        ensures { result ≡ slack_of self.now.network.rows self.now.times.now arc }
    {
        let rows = &self.network.rows;
        let period = self.network.arc_period(arc);
        let from = self.time(rows.tail(arc));
        let to = self.time(rows.head(arc));
        slack_by(period, rows.lower(arc), from, to)
    }

    // The tension of an arc.
    fn tension(&self, arc: usize) -> i32
        requires { arc < arcs self.now.network.rows }
        ensures { result ≡ tension_of self.now.network.rows self.now.times.now arc }
    {
        raised(self.network.rows.lower(arc), self.slack(arc))
    }

    // Is an arc met?
    fn is_met(&self, arc: usize) -> bool
        requires { arc < arcs self.now.network.rows }
        ensures { result ≡ is_met self.now.network.rows self.now.times.now arc }
    {
        self.tension(arc) <= self.network.rows.upper(arc)
    }

    // The first event whose time is not below its period.
    pub fn first_late(&self) -> Option<usize>
        ensures { FirstOf (late self.now.network.rows.periods self.now.times.now) (events self.now.network.rows) result }
    {
        first_late(self.network.rows.periods, self.times)
    }

    // The first arc in order that is not met.
    pub fn first_unmet(&self) -> Option<usize>
        ensures { FirstOf (unmet self.now.network.rows self.now.times.now) (arcs self.now.network.rows) result }
    {
        for arc in 0..self.network.rows.arcs() {
            if !self.is_met(arc) {
                return Some(arc);
            }
        }
        None
    }

    // The sum of weight times slack over all arcs.
    pub fn cost(&self) -> u64
        ensures { result ≡ cost_of self.now.network.rows self.now.times.now }
    {
        let mut sum = 0;
        for arc in 0..self.network.rows.arcs() {
            let weight = u64::from(self.network.rows.weight(arc));
            sum += weight * u64::from(self.slack(arc));
        }
        sum
    }

    // Writes each arc's tension and turn, and returns the cost: its period is worked out once for all three.
    pub fn note_arcs(&self, tensions: &mut [i32], turns: &mut [i32]) -> u64
        requires timetable { Timetable self.now.network.rows self.now.times.now }
        requires room { short_for self.now.network.rows (arc_rows_of tensions turns) ≡ false }
        ensures { Noted self.now.network.rows self.now.times.now (arc_rows_at tensions turns) (arc_rows_left tensions turns) result }
    {
        let rows = &self.network.rows;
        let mut sum = 0;
        for arc in 0..rows.arcs() {
            let period = self.network.arc_period(arc);
            let low = rows.lower(arc);
            let from = self.time(rows.tail(arc));
            let to = self.time(rows.head(arc));
            let slack = slack_by(period, low, from, to);
            tensions[arc] = raised(low, slack);
            turns[arc] = turn_by(period, low, from, to);
            let weight = u64::from(rows.weight(arc));
            sum += weight * u64::from(slack);
        }
        sum
    }
}
