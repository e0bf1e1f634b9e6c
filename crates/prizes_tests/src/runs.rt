// A long mixed run of pushes and pops, compared with structures that are filled anew.
use crate::pairs::{line, payout};
use prizes::{Prize, Prizes};
use std::test::Fail;
use undoable::{Fact, Undoable};

// What a structure answers that is told the facts of `told` in order, and nothing else.
fn anew(told: &[Fact], v: u32) -> u32 {
    let mut records = [Prize::default(); 8];
    let mut rows = [0u16; 8008];
    let mut prizes = Prizes::new(&mut records, &mut rows);
    for fact in told {
        let _ = prizes.push(*fact);
    }
    prizes.ask(payout(v)).unwrap_or(0)
}

#[test]
fn mixed_run(rt: HostRuntime) -> Result<(), Fail> {
    let mut records = [Prize::default(); 8];
    let mut rows = [0u16; 8008];
    let mut prizes = Prizes::new(&mut records, &mut rows);
    let mut told = Vec::new(rt.alloc());
    let mut seed = 12345u32;
    for _ in 0..200 {
        seed = seed.wrapping_mul(1664525).wrapping_add(1013904223);
        let fact = line(1 + (seed >> 8) % 60, 1 + (seed >> 20) % 4);
        if (seed >> 28) % 3 == 0 {
            assert!(rt; prizes.pop().is_ok() == told.pop().is_some());
        } else if prizes.push(fact).is_ok() {
            told.push(fact)?;
        }
        assert!(rt; prizes.height() == told.len());
        let v = (seed >> 4) % 200;
        assert_eq!(rt; prizes.ask(payout(v)), Ok(anew(&told, v)));
    }
    Ok(())
}
