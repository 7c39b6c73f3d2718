// The arcs of each event, threaded in their order, so that an event's arcs to earlier ones are found without looking at others.
ghost use Rattle.search.specs.Lent.{lent};
ghost use Rattle.search.specs.Threads.{Threaded};

use crate::Reduced;

// A network with its threads: the first arc of each event, and the next of each arc.
#[derive(Clone, Copy)]
pub struct ArcThreads<'a> {
    pub network: Reduced<'a>,
    pub firsts: &'a [Option<u16>],
    pub nexts: &'a [Option<u16>],
    ghost threaded: { Threaded (lent network) firsts.now nexts.now },
}

impl<'a> ArcThreads<'a> {
    ghost use Rattle.std.specs.Prelude.{◌≡◌};
    ghost use Rattle.search.specs.Threads.{ThreadAsks};

    // Threads the arcs, the last first, in two rows without a link.
    pub fn new(
        network: Reduced<'a>,
        firsts: &'a mut [Option<u16>],
        nexts: &'a mut [Option<u16>],
    ) -> ArcThreads<'a>
        requires { ThreadAsks (lent network) firsts.old nexts.old }
        ensures { result.network ≡ network.entry }
    {
        for arc in (0..network.bars.len()).rev() {
            let last = network.bars[arc].last as usize;
            nexts[arc] = firsts[last];
            firsts[last] = Some(arc as u16);
        }
        ArcThreads {
            network,
            firsts,
            nexts,
        }
    }
}
