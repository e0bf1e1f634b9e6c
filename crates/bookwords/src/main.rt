// Turns a book written as text into words. Each line of standard input is `fact`, `withdrawal` or `question` and then
// the two fields in decimal; an empty line is skipped. The words go to standard output, four bytes each, least byte first.
// The records are not judged, so that refused books can be made too.
#![tactic(auto)]

use anyhow::bail;
use book::{Record, words_of_record};
use std::io::{BufRead, BufReader, Write};
use undoable::{Fact, Question};

fn main(rt: HostRuntime) -> anyhow::Result<()> {
    convert(&rt)
}

fn convert(rt: &HostRuntime) -> anyhow::Result<()> {
    let mut out = rt.stdout();
    let lines = BufReader::new(rt.alloc(), rt.stdin())?.lines(rt.alloc());
    for (number, line) in (1..u64::MAX).zip(lines) {
        let line = line?;
        if line.as_str().trim().is_empty() {
            continue;
        }
        let Some((head, second)) = line_words(line.as_str()) else {
            eprintln!(rt; "line {number} is no record")?;
            bail!("not converted");
        };
        out.write_all(&head.to_le_bytes())?;
        out.write_all(&second.to_le_bytes())?;
    }
    Ok(())
}

// The words of the record in a line, or None if it has none.
fn line_words(line: &str) -> Option<(u32, u32)> {
    let mut parts = line.split_whitespace();
    let kind = parts.next()?;
    let first = parts.next()?.parse::<u32>().ok()?;
    let second = parts.next()?.parse::<u32>().ok()?;
    if parts.next().is_some() {
        return None;
    }
    let item = record_of(kind, first, second)?;
    words_of_record(item).ok()
}

fn record_of(kind: &str, first: u32, second: u32) -> Option<Record> {
    match kind {
        "fact" => Some(Record::Fact(Fact { first, second })),
        "withdrawal" => Some(Record::Withdrawal(Fact { first, second })),
        "question" => Some(Record::Question(Question { first, second })),
        _ => None,
    }
}
