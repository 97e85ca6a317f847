//! Cells, rows of truth values, states and their store, and bounds.
use np_frac::Frac;
use np_space::Bound;
use np_state::{BitRow, Cell, State, StateStore};
use std::process::Abort;

/// A state of two facts and one cell.
fn state<C: Cell>(rt: &(impl Abort + AllocGlobal), first: bool, second: bool, cell: C) -> State<C> {
    let mut facts = BitRow::new(rt.alloc(), 2).expect(rt, "memory");
    assert!(rt; facts.len() == 2);
    facts.set(0, first);
    facts.set(1, second);
    let mut cells = Vec::new(rt.alloc());
    cells.push(cell).expect(rt, "memory");
    State { facts, cells }
}

/// Whether the sum of two cells is the third.
fn moves<C: Cell>(a: &C, b: &C, sum: &C) -> bool {
    match a.moved(b) {
        Some(c) => c == *sum && c == c.copy(),
        None => false,
    }
}

/// The places of a long row that are set, at and between the ends of its words.
const SET: [usize; 4] = [0, 63, 64, 129];

/// A row of 130 values with those set.
fn long_row(rt: &(impl Abort + AllocGlobal)) -> BitRow {
    let mut row = BitRow::new(rt.alloc(), 130).expect(rt, "memory");
    for at in SET {
        if at < row.len() {
            row.set(at, true);
        }
    }
    row
}

/// Whether exactly those of 130 values are set.
fn reads_back(row: &BitRow) -> bool {
    let mut right = row.len() == 130;
    for at in 0..row.len() {
        right = right && row.get(at) == SET.contains(&at);
    }
    right
}

/// Whether a copy of a long row and of a short one is equal to it, and stays when the row changes.
fn copies(rt: &(impl Abort + AllocGlobal)) -> bool {
    let long = long_row(rt);
    let mut short = BitRow::new(rt.alloc(), 64).expect(rt, "memory");
    let long_copy = long.copy(rt.alloc()).expect(rt, "memory");
    let short_copy = short.copy(rt.alloc()).expect(rt, "memory");
    let equal = long_copy == long && short_copy == short && long_copy != short_copy;
    short.set(63, true);
    equal && reads_back(&long_copy) && short_copy != short && !short_copy.get(63)
}

/// Whether 1,000 distinct states have the numbers 0 to 999, and are new or not.
fn numbers(rt: &(impl Abort + AllocGlobal), store: &mut StateStore<i128>, is_new: bool) -> bool {
    let mut right = true;
    for n in 0..1000usize {
        let state = state(rt, n % 2 == 0, n % 3 == 0, n as i128);
        right = right && store.intern(state).expect(rt, "memory") == (n, is_new);
    }
    right
}

/// Whether 1,000 distinct states are new at first, and then known by the same numbers.
fn numbers_twice(rt: &(impl Abort + AllocGlobal)) -> bool {
    let mut store = StateStore::new(rt.alloc());
    numbers(rt, &mut store, true) && numbers(rt, &mut store, false) && store.len() == 1000
}

/// Whether the state of these facts and this cell gets this number, and is new or not.
fn interns<C: Cell>(
    rt: &(impl Abort + AllocGlobal),
    store: &mut StateStore<C>,
    facts: (bool, bool),
    cell: C,
    wanted: (usize, bool),
) -> bool {
    store
        .intern(state(rt, facts.0, facts.1, cell))
        .expect(rt, "memory")
        == wanted
}

/// Whether the first state of a store is that of these facts and this cell.
fn is_first<C: Cell>(
    rt: &(impl Abort + AllocGlobal),
    store: &StateStore<C>,
    facts: (bool, bool),
    cell: C,
) -> bool {
    store.len() > 0 && *store.get(0) == state(rt, facts.0, facts.1, cell)
}

/// Whether states are told apart by their facts and by their cells, and by nothing else.
fn tells_apart<C: Cell>(rt: &(impl Abort + AllocGlobal), a: &C, other: &C) -> bool {
    let mut store = StateStore::new(rt.alloc());
    interns(rt, &mut store, (true, false), a.copy(), (0, true))
        && interns(rt, &mut store, (true, false), other.copy(), (1, true))
        && interns(rt, &mut store, (false, true), a.copy(), (2, true))
        && interns(rt, &mut store, (true, false), a.copy(), (0, false))
        && store.len() == 3
        && is_first(rt, &store, (true, false), a.copy())
}

#[test]
fn states_are_kept_once(rt: HostRuntime) {
    assert!(rt; reads_back(&long_row(&rt)) && numbers_twice(&rt));
    assert!(rt; copies(&rt));
    assert!(rt; tells_apart(&rt, &7i128, &-7i128));
}

#[test]
fn cells_are_moved(rt: HostRuntime) {
    let half = Frac::of(1, 2).expect(&rt, "1/2");
    let third = Frac::of(1, 3).expect(&rt, "1/3");
    let sum = Frac::of(5, 6).expect(&rt, "5/6");
    assert!(rt; tells_apart(&rt, &half, &third) && moves(&half, &third, &sum));
    assert!(rt; moves(&-3i128, &5i128, &2i128) && i128::MAX.moved(&1i128).is_none());
}

#[test]
fn bounds_are_ordered(rt: HostRuntime) {
    let two = Bound::AtLeast(2);
    let most = Bound::AtLeast(u64::MAX);
    assert!(&rt; two.is_at_most(&two) && two.is_at_most(&most) && !most.is_at_most(&two));
    assert!(&rt; most.is_at_most(&Bound::NoPlan) && !Bound::NoPlan.is_at_most(&most));
    assert!(&rt; Bound::NoPlan.is_at_most(&Bound::NoPlan));
    assert!(&rt; two.plus(&two) == Some(Bound::AtLeast(4)) && most.plus(&two).is_none());
    assert!(&rt;
        most.plus(&Bound::NoPlan) == Some(Bound::NoPlan)
            && Bound::NoPlan.plus(&two) == Some(Bound::NoPlan)
    );
}
