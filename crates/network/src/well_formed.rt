// A network that no line of the table refuses.
ghost use Rattle.network.specs.Table.{WellFormed as IsWellFormed};

use crate::rule::working;
use crate::{Code, Network, Refused, Timed};

// The rows of a well-formed network.
#[derive(Drop)]
pub struct WellFormed<'a> {
    pub rows: Network<'a>,
    ghost well: { IsWellFormed rows },
}

#[tactic(auto, using(crate::proofs::Arcs::well_rows))]
impl<'a> WellFormed<'a> {
    ghost use Rattle.std.specs.Prelude.{◌≡◌, ◌<◌, length};
    ghost use Rattle.network.specs.Network.{arcs};
    ghost use Rattle.network.specs.First.{FirstOf};
    ghost use Rattle.network.specs.Judged.{Given};
    ghost use Rattle.network.specs.PublicRule.{arc_period as arc_period_of};
    ghost use Rattle.network.specs.Rows.{astray};

    // Code 9 where there is not a time for each event.
    pub fn timed(self, times: &'a [u32]) -> Result<Timed<'a>, Refused>
        ensures { Given self.entry.rows times.now result }
    {
        if times.len() != self.rows.events() {
            return Err(Refused::at(Code::Room, 0));
        }
        Ok(Timed {
            network: self,
            times,
        })
    }

    // The greatest common divisor of the periods at the two ends of an arc.
    pub fn arc_period(&self, arc: usize) -> u32
        requires { arc < arcs self.now.rows }
        ensures { result ≡ arc_period_of self.now.rows arc }
    {
        self.rows.arc_period(arc)
    }

    // The first arc whose listed tension is outside its bounds, the upper being the working one.
    pub fn first_astray(&self, tensions: &[i32]) -> Option<usize>
        requires { length tensions.now ≡ arcs self.now.rows }
        ensures { FirstOf (astray self.now.rows tensions.now) (arcs self.now.rows) result }
    {
        for arc in 0..tensions.len() {
            let low = self.rows.lower(arc);
            let high = working(self.arc_period(arc), low, self.rows.upper(arc));
            if !(low..=high).contains(&tensions[arc]) {
                return Some(arc);
            }
        }
        None
    }
}
