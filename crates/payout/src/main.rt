// Answers payouts from prize lines. Each line of standard input is a command; one that cannot be carried out is complained of.
#![tactic(auto)]

mod answers;
mod commands;
mod complaints;

use answers::perform;
use prizes::{Prize, Prizes, ROW_ENTRIES};
use std::io::{BufRead, BufReader};

// How many prize lines can be enabled at once.
const LINES: usize = 64;

fn main(rt: HostRuntime) -> anyhow::Result<()> {
    answer_all(&rt)
}

fn answer_all(rt: &HostRuntime) -> anyhow::Result<()> {
    let heap = rt.alloc();
    let mut records = vec![in heap; Prize::default(); LINES]?;
    let mut rows = vec![in heap; 0u16; ROW_ENTRIES * LINES]?;
    let mut structure = Prizes::new(&mut records, &mut rows);
    for (number, line) in (1u64..).zip(BufReader::new(heap, rt.stdin())?.lines(heap)) {
        let line = line?;
        match perform(&mut structure, line.as_str()) {
            Ok(None) => {}
            Ok(Some(answer)) => println!(rt; "{answer}")?,
            Err(complaint) => println!(rt; "line {number}: {complaint}")?,
        }
    }
    Ok(())
}
