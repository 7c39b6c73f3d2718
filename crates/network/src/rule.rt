// The public rule's numbers: slack and turn of two times, the working upper bound, and the width up to it; and what calls ask of rows alone and write in them.
ghost use Rattle.std.specs.Prelude.{◌≡◌, ◌≤◌, ◌<◌, pos, nat_abs, ◌+ℤ◌, ◌-ℤ◌, length};
ghost use Rattle.numbers.specs.Row.{at};
ghost use Rattle.network.specs.First.{FirstOf};
ghost use Rattle.network.specs.PublicRule.{slack_by, turn_by, working_by};
ghost use Rattle.network.specs.Rows.{late, other, written, short as short_of};
ghost use Rattle.network.specs.Inner.{Span, Turning};

// Head time less tail time less lower.
fn beyond(low: i32, from: u32, to: u32) -> i64
    ensures { result ≡ (pos to -ℤ pos from) -ℤ low }
{
    numbers::difference(to, from) - i64::from(low)
}

// Its remainder by g.
pub fn slack_by(g: u32, low: i32, from: u32, to: u32) -> u32
    requires { 0 < g }
    ensures { result ≡ slack_by g low from to }
{
    numbers::remainder(beyond(low, from, to), g)
}

// Tension less (head time less tail time), over g: as often as g goes into what these are beyond lower, with the other sign.
pub fn turn_by(g: u32, low: i32, from: u32, to: u32) -> i32
    requires { Turning g low from to }
    ensures { result ≡ turn_by g (low +ℤ pos (slack_by g low from to)) from to }
{
    let quotient = numbers::quotient(beyond(low, from, to), g);
    -quotient as i32
}

// The working upper bound less lower: the slack up to which an arc is met.
pub fn width(low: i32, high: i32) -> u32
    requires { Span low high }
    ensures { result ≡ nat_abs (high -ℤ low) }
{
    high.abs_diff(low)
}

// Lower plus slack.
pub fn raised(low: i32, slack: u32) -> i32
    requires { (nat_abs low ≤ 7200) × (slack < 3600) }
    ensures { result ≡ low +ℤ pos slack }
{
    low + slack as i32
}

// The working upper bound: the lesser of upper and lower plus g less 1. The upper may be any i32.
pub fn working(g: u32, low: i32, high: i32) -> i32
    requires { (0 < g) × (g ≤ 3600) × (nat_abs low ≤ 7200) }
    ensures { result ≡ working_by g low high }
{
    high.min(raised(low, g - 1))
}

// The first event whose time is not below its period.
pub fn first_late(periods: &[u32], times: &[u32]) -> Option<usize>
    requires { length times.now ≡ length periods.now }
    ensures { FirstOf (late periods.now times.now) (length periods.now) result }
{
    periods
        .iter()
        .zip(times)
        .position(|(period, time)| period <= time)
}

// The first event whose period differs from that of event 0.
pub fn first_other(periods: &[u32]) -> Option<usize>
    ensures { FirstOf (other periods.now) (length periods.now) result }
{
    let common = periods.first()?;
    periods.iter().position(|period| period != common)
}

// Has a row of tensions or of turns too few entries for m arcs?
pub fn short(tensions: usize, turns: usize, m: usize) -> bool
    ensures { result ≡ short_of tensions turns m }
{
    tensions < m || turns < m
}

// Writes each event's time.
pub fn note_times(times: &[u32], row: &mut [u32])
    requires { length times.now ≤ length row.old }
    ensures { row.new ≡ written (at times.now) (length times.now) row.old }
{
    row[..times.len()].copy_from_slice(times);
}
