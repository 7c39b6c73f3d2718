// The table of spans for the arcs of a network.
use crate::span::Span;
use crate::table::{Change, Table};

// How many rounds the closure makes at most.
const ROUNDS: u32 = 64;

impl<'a> Table<'a> {
    ghost use Rattle.std.specs.Prelude.{◌<◌};
    ghost use Rattle.closure.specs.Steps.{Step, Counted, arcs_of};

    // Narrows the span of an arc's ends by the arc: all but its run of barred times.
    fn add_arc(&mut self, arc: usize) -> Option<Change>
        requires { arc < arcs_of self.old }
        ensures { Step self.old self.new result }
    {
        let bar = self.network.bars[arc];
        let gap = bar.gap;
        let low = (bar.shift + bar.run) % gap;
        let width = gap - 1 - bar.run;
        let left = Span {
            low: low as u16,
            width: width as u16,
            gap: gap as u16,
        };
        self.narrow(bar.near as usize, bar.last as usize, left)
    }

    // Narrows by every arc, or none where nothing is left.
    fn add_arcs(&mut self) -> Option<()>
        ensures { Step self.old self.new result }
    {
        for arc in 0..self.network.bars.len() {
            self.add_arc(arc)?;
        }
        Some(())
    }

    // One round. An arc may cut off a piece now that it could not cut off a wider span, so that each round begins with the arcs.
    fn whole_round(&mut self) -> Option<Change>
        ensures { Step self.old self.new result }
    {
        self.add_arcs()?;
        self.close_round()
    }

    // Rounds until no span becomes less wide through an event: how many, or none where nothing fits.
    pub fn close(&mut self) -> Option<u32>
        ensures step { Step self.old self.new result }
        ensures some_rounds { Counted result }
    {
        for round in 1..=ROUNDS {
            if self.whole_round()? == Change::Same {
                return Some(round);
            }
        }
        Some(ROUNDS)
    }
}
