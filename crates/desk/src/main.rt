// Solves network A of the scope paper and prints its timetable, its tensions with their slacks, and its cost.
#![tactic(auto)]

use network::Network;
use std::io;
use timetable::solve::solve;

const PERIODS: [u32; 3] = [60, 60, 60];

const TAIL: [u32; 3] = [0, 1, 2];

const HEAD: [u32; 3] = [1, 2, 0];

const LOWER: [i32; 3] = [10, 20, 28];

const UPPER: [i32; 3] = [15, 25, 30];

const WEIGHT: [u32; 3] = [3, 1, 2];

// Writes a line for each event: its number and its time.
fn print_times(rt: &impl Print, times: &[u32]) -> io::Result<()> {
    println!(rt; "event,time")?;
    for (event, time) in times.iter().enumerate() {
        println!(rt; "{event},{time}")?;
    }
    Ok(())
}

// Writes a line for an arc: its number, its tension, and its slack, which is the tension less the lower bound.
fn print_arc(rt: &impl Print, arc: usize, tension: i32, lower: i32) -> io::Result<()> {
    let slack = i64::from(tension) - i64::from(lower);
    println!(rt; "{arc},{tension},{slack}")
}

// Writes a line for each arc.
fn print_arcs(rt: &impl Print, tensions: &[i32], lower: &[i32]) -> io::Result<()> {
    println!(rt; "arc,tension,slack")?;
    for (arc, (tension, lower)) in tensions.iter().zip(lower).enumerate() {
        print_arc(rt, arc, *tension, *lower)?;
    }
    Ok(())
}

fn main(rt: HostRuntime) -> io::Result<()> {
    let network = Network {
        periods: &PERIODS,
        tails: &TAIL,
        heads: &HEAD,
        lowers: &LOWER,
        uppers: &UPPER,
        weights: &WEIGHT,
    };
    let mut times = [0u32; 3];
    let mut tensions = [0i32; 3];
    let mut turns = [0i32; 3];
    let cost = match solve(&network, &mut times, &mut tensions, &mut turns) {
        Ok(cost) => cost,
        Err(refused) => return println!(rt; "refused by code {}", refused.code as u32),
    };
    print_times(&rt, &times)?;
    print_arcs(&rt, &tensions, &LOWER)?;
    println!(rt; "cost")?;
    println!(rt; "{cost}")
}
