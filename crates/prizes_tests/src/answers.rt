// Payouts and their least numbers of prizes.
use crate::pairs::{line, payout};
use prizes::{Prize, Prizes};
use undoable::{Undoable, ask_with};

#[test]
fn two_prize_lines(rt: HostRuntime) {
    let mut records = [Prize::default(); 4];
    let mut rows = [0u16; 4004];
    let mut prizes = Prizes::new(&mut records, &mut rows);
    let _ = prizes.push(line(10, 2));
    let _ = prizes.push(line(25, 1));
    assert_eq!(rt; prizes.ask(payout(45)), Ok(3));
    assert_eq!(rt; prizes.ask(payout(30)), Ok(1001));
    assert_eq!(rt; prizes.ask(payout(0)), Ok(0));
}

#[test]
fn copies_are_not_used_more_often(rt: HostRuntime) {
    let mut records = [Prize::default(); 1];
    let mut rows = [0u16; 1001];
    let mut prizes = Prizes::new(&mut records, &mut rows);
    let _ = prizes.push(line(1, 999));
    assert_eq!(rt; prizes.ask(payout(999)), Ok(999));
    assert_eq!(rt; prizes.ask(payout(1000)), Ok(1001));
}

#[test]
fn a_trial_leaves_the_stack(rt: HostRuntime) {
    let mut records = [Prize::default(); 2];
    let mut rows = [0u16; 2002];
    let mut prizes = Prizes::new(&mut records, &mut rows);
    assert_eq!(rt; ask_with(&mut prizes, line(500, 2), payout(1000)), Some(2));
    assert_eq!(rt; ask_with(&mut prizes, line(0, 2), payout(1000)), None);
    assert_eq!(rt; prizes.height(), 0);
    assert_eq!(rt; prizes.ask(payout(1000)), Ok(1001));
}
