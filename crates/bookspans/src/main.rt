// Reads a finished book from standard input and prints from which question to which each of its facts is alive, or the
// refusal and its place.
#![tactic(auto)]

use listing::{book_report, standard_input};
use std::io::Write;

fn main(rt: HostRuntime) -> anyhow::Result<()> {
    let bytes = standard_input(&rt)?;
    let report = book_report(rt.alloc(), &bytes)?;
    rt.stdout().write_all(report.as_bytes())?;
    Ok(())
}
