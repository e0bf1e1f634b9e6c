// Capacities and refusals, each of which changes nothing.
use crate::pairs::{line, payout};
use prizes::{Prize, Prizes};
use undoable::{AskRefusal, PopRefusal, PushRefusal, Question, Undoable};

#[test]
fn capacity_is_the_lesser_limit(rt: HostRuntime) {
    let mut records = [Prize::default(); 2];
    let mut rows = [0u16; 4004];
    assert_eq!(rt; Prizes::new(&mut records, &mut rows).capacity(), 2);
    let mut many = [Prize::default(); 9];
    let mut few_rows = [0u16; 3002];
    assert_eq!(rt; Prizes::new(&mut many, &mut few_rows).capacity(), 2);
}

#[test]
fn refused_pushes(rt: HostRuntime) {
    let mut records = [Prize::default(); 1];
    let mut rows = [0u16; 1001];
    let mut prizes = Prizes::new(&mut records, &mut rows);
    for bad in [line(0, 1), line(1001, 1), line(1, 0), line(1, 1001)] {
        assert_eq!(rt; prizes.push(bad), Err(PushRefusal::NotAdmitted));
    }
    assert_eq!(rt; prizes.push(line(10, 2)), Ok(()));
    assert_eq!(rt; prizes.push(line(10, 2)), Err(PushRefusal::Full));
    // A fact that is not admitted is told so on a full structure too.
    assert_eq!(rt; prizes.push(line(0, 1)), Err(PushRefusal::NotAdmitted));
    assert_eq!(rt; prizes.height(), 1);
    assert_eq!(rt; prizes.tally(), 1);
}

#[test]
fn refused_questions_and_pops(rt: HostRuntime) {
    let mut records = [Prize::default(); 1];
    let mut rows = [0u16; 1001];
    let mut prizes = Prizes::new(&mut records, &mut rows);
    assert!(rt; prizes.pop().is_err());
    assert_eq!(rt; prizes.ask(payout(1001)), Err(AskRefusal::NotAdmitted));
    assert_eq!(rt;
        prizes.ask(Question {
            first: 0,
            second: 1,
        }),
        Err(AskRefusal::NotAdmitted)
    );
    assert_eq!(rt; prizes.tally(), 0);
}

#[test]
fn refusals_have_their_numbers(rt: HostRuntime) {
    assert_eq!(rt; PushRefusal::NotAdmitted as u32, 7);
    assert_eq!(rt; PushRefusal::Full as u32, 8);
    assert_eq!(rt; PopRefusal::Empty as u32, 9);
    assert_eq!(rt; AskRefusal::NotAdmitted as u32, 10);
}
