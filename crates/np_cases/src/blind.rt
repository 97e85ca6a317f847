//! A flat task as a space of states.
use crate::flat::flat;
use crate::search::{Answer, seen};
use np_blind::BlindSpace;
use np_flat::Flat;
use np_search::search;
use np_space::Space;
use std::process::Abort;

/// What a search of at most so many expansions answers.
fn searched(rt: &(impl Abort + AllocGlobal), flat: &Flat, nodes: u16) -> (Answer, usize, usize) {
    let mut space = BlindSpace::new(flat);
    seen(&search(rt.alloc(), &mut space, u32::from(nodes)).expect(rt, "memory"))
}

/// Whether the first state of the space is read as the flat start.
fn reads_start(rt: &(impl Abort + AllocGlobal), flat: &Flat) -> bool {
    let space = BlindSpace::new(flat);
    let start = space.start(rt.alloc()).expect(rt, "memory");
    space.flat_state(rt.alloc(), &start).expect(rt, "memory") == flat.parts().start
}

/// Each state of the task has one step, and a goal is reached by three.
#[test]
fn flat_tasks_are_spaces(rt: HostRuntime) {
    let flat = flat(&rt);
    assert!(rt; reads_start(&rt, &flat));
    assert!(rt; searched(&rt, &flat, 9) == (Answer::Goal(3), 3, 4));
    assert!(rt; searched(&rt, &flat, 2) == (Answer::Spent(2), 2, 3));
}
