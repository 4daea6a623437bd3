mod nested;
mod workers;

use crate::busy::Busy;
use crate::numbers::{Numbers, add};
use crate::turns::Turns;
use nested::{add_around, pass, pass_around};
use std::test::Fail;
use workers::{Worker, run_all, seat_all, unseat_all};

#[test]
fn a_seat_is_refused_within_the_turn_of_another(rt: HostRuntime) -> Result<(), Fail> {
    let Ok((turns, mut seats)) = Turns::new(rt.alloc(), Numbers::new(rt.alloc()), 2) else {
        panic!(rt; "there was no memory")
    };
    let Some(mut second) = seats.pop() else {
        panic!(rt; "there is no seat")
    };
    let Some(mut first) = seats.pop() else {
        panic!(rt; "there is no seat")
    };
    let refused = add_around(&turns, &mut first, 5, &mut second);
    assert_eq!(rt; refused, Ok(Some(Busy { seen: 1, found: 1 })));
    assert_eq!(rt; pass(&turns, &mut second), Ok(()));
    assert_eq!(rt; add(&turns, &mut second, 6), Ok(true));
    let refused = pass_around(&turns, &mut first, &mut second);
    assert_eq!(rt; refused, Ok(Some(Busy { seen: 5, found: 5 })));
    seats.push(first)?;
    seats.push(second)?;
    let numbers = turns.meet(seats);
    assert!(rt; numbers.items.as_slice() == [5, 6].as_slice());
    Ok(())
}

#[test]
fn four_threads_take_their_turns_to_the_end(rt: HostRuntime) -> Result<(), Fail> {
    let Ok((turns, seats)) = Turns::new(rt.alloc(), Numbers::new(rt.alloc()), 4) else {
        panic!(rt; "there was no memory")
    };
    let mut workers = seat_all(rt.alloc(), &turns, seats)?;
    run_all(&rt, &turns, workers.as_mut_slice());
    let seats = unseat_all(rt.alloc(), &turns, workers)?;
    let numbers = turns.meet(seats);
    assert_eq!(rt; numbers.items.len(), 4);
    for number in 5..9 {
        assert!(rt; numbers.items.contains(&number), "{number} is missing");
    }
    Ok(())
}
