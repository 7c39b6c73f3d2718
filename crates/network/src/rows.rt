// The six rows of a network, and what stands in them of an event and of an arc.
ghost use Rattle.std.specs.Prelude.{◌≡◌, ◌<◌, length};
ghost use Rattle.network.specs.Network.{events, arcs, period, tail, head, lower, upper, weight};
ghost use Rattle.network.specs.PublicRule.{arc_period as arc_period_of};
ghost use Rattle.network.specs.Trial.{AsksPeriod};

use std::marker::Model;

// A network as it is lent: a period for each event; for each arc its tail, head, lower and upper bound and weight.
#[derive(Drop)]
pub struct Network<'a> {
    pub periods: &'a [u32],
    pub tails: &'a [u32],
    pub heads: &'a [u32],
    pub lowers: &'a [i32],
    pub uppers: &'a [i32],
    pub weights: &'a [u32],
}

impl<'a> Model for Network<'a> {
    ghost use Rattle.network.specs.Network.{Network as Rows, net_of};

    ghost Value = { Rows };

    ghost view = { λ n. net_of n.periods n.tails n.heads n.lowers n.uppers n.weights };
}

impl<'a> Network<'a> {
    // The same rows, lent once more.
    pub fn again(&self) -> Network<'a>
        ensures { result ≡ self.now }
    {
        Network {
            periods: self.periods,
            tails: self.tails,
            heads: self.heads,
            lowers: self.lowers,
            uppers: self.uppers,
            weights: self.weights,
        }
    }

    // How many events it has.
    pub fn events(&self) -> usize
        ensures { result ≡ events self.now }
    {
        self.periods.len()
    }

    // How many arcs it has.
    pub fn arcs(&self) -> usize
        ensures { result ≡ arcs self.now }
    {
        self.tails.len()
    }

    // The period of an event.
    pub fn period(&self, event: usize) -> u32
        requires { event < events self.now }
        ensures { result ≡ period self.now event }
    {
        let periods = self.periods;
        periods[event]
    }

    // The event at which an arc starts.
    pub fn tail(&self, arc: usize) -> usize
        requires { arc < arcs self.now }
        ensures { result ≡ tail self.now arc }
    {
        let tails = self.tails;
        tails[arc] as usize
    }

    // The event at which an arc ends.
    pub fn head(&self, arc: usize) -> usize
        requires { arc < length self.now.heads }
        ensures { result ≡ head self.now arc }
    {
        let heads = self.heads;
        heads[arc] as usize
    }

    // The lower bound of an arc.
    pub fn lower(&self, arc: usize) -> i32
        requires { arc < length self.now.lowers }
        ensures { result ≡ lower self.now arc }
    {
        let lowers = self.lowers;
        lowers[arc]
    }

    // The upper bound of an arc, as it was given.
    pub fn upper(&self, arc: usize) -> i32
        requires { arc < length self.now.uppers }
        ensures { result ≡ upper self.now arc }
    {
        let uppers = self.uppers;
        uppers[arc]
    }

    // The weight of an arc.
    pub fn weight(&self, arc: usize) -> u32
        requires { arc < length self.now.weights }
        ensures { result ≡ weight self.now arc }
    {
        let weights = self.weights;
        weights[arc]
    }

    // The greatest common divisor of the periods at the two ends of an arc.
    pub fn arc_period(&self, arc: usize) -> u32
        requires { AsksPeriod self.now arc }
        ensures { result ≡ arc_period_of self.now arc }
    {
        let from = self.period(self.tail(arc));
        let to = self.period(self.head(arc));
        numbers::gcd(from, to)
    }
}
