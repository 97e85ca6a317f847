//! The search, in small spaces given by their edges, and compared with distances that are found round by round.
use crate::space::{Edge, Graph, Row};
use np_search::{Found, Tree, search};
use std::process::Abort;

/// What a search answers, with the cost or the bound.
#[derive(Clone, Copy, Debug, PartialEq, Eq)]
pub enum Answer {
    Goal(u64),
    Empty,
    Spent(u64),
}

/// A goal and two tables: bounds, and distances that show that the bounds are ones.
#[derive(Clone, Copy)]
struct Tables<'a> {
    goal: i128,
    bounds: &'a [Row],
    distances: &'a [Row],
}

/// How many states a search expanded.
fn expanded(tree: &Tree<i128>) -> usize {
    tree.nodes.iter().filter(|node| node.expanded).count()
}

/// The cost of the run to a state.
fn cost(tree: &Tree<i128>, goal: usize) -> u64 {
    match tree.nodes.as_slice().get(goal) {
        Some(node) => node.cost,
        None => u64::MAX,
    }
}

/// The answer, and how many states were expanded and reached.
pub fn seen(found: &Found<i128>) -> (Answer, usize, usize) {
    match found {
        Found::Goal { tree, goal } => (
            Answer::Goal(cost(tree, *goal)),
            expanded(tree),
            tree.nodes.len(),
        ),
        Found::Empty { tree } => (Answer::Empty, expanded(tree), tree.nodes.len()),
        Found::Spent { tree, bound } => (Answer::Spent(*bound), expanded(tree), tree.nodes.len()),
    }
}

/// What a search of at most so many expansions answers.
fn searched(
    rt: &(impl Abort + AllocGlobal),
    edges: &[Edge],
    tables: Tables<'_>,
    nodes: u16,
) -> (Answer, usize, usize) {
    let mut graph = Graph::new(edges, tables.goal, tables.bounds, tables.distances).expect(
        rt,
        "the distances show that the bounds are ones",
    );
    seen(&search(rt.alloc(), &mut graph, u32::from(nodes)).expect(rt, "memory"))
}

/// Place 2 is reached at 3 and then at 2, and leads to place 3.
const TWICE: [Edge; 4] = [(0, 2, 3), (0, 1, 1), (1, 2, 1), (2, 3, 3)];

/// With the goal 3.
const FAR: [Row; 4] = [(0, Some(5)), (1, Some(4)), (2, Some(3)), (3, Some(0))];

/// A state that is reached at less cost after it was expanded is expanded again, and counts once.
#[test]
fn states_are_expanded_again(rt: HostRuntime) {
    let late = Tables {
        goal: 3,
        bounds: &[(1, Some(4))],
        distances: &FAR,
    };
    assert!(rt; searched(&rt, &TWICE, late, 9) == (Answer::Goal(5), 3, 4));
    assert!(rt; searched(&rt, &TWICE, late, 3) == (Answer::Goal(5), 3, 4));
    assert!(rt; searched(&rt, &TWICE, late, 2) == (Answer::Spent(5), 2, 4));
    let blind = Tables {
        goal: 3,
        bounds: &[],
        distances: &[],
    };
    assert!(rt; searched(&rt, &TWICE, blind, 2) == (Answer::Spent(2), 2, 3));
}

/// The start is a goal; there is no goal; there is no plan from the places on the way.
#[test]
fn searches_end(rt: HostRuntime) {
    let first = Tables {
        goal: 0,
        bounds: &[],
        distances: &[],
    };
    assert!(rt; searched(&rt, &TWICE, first, 1) == (Answer::Goal(0), 0, 1));
    let none = Tables { goal: 9, ..first };
    let to_and_fro = [(0, 1, 0), (1, 0, 0)];
    assert!(rt; searched(&rt, &to_and_fro, none, 9) == (Answer::Empty, 2, 2));
    let shut = [(1, None), (2, None), (3, None)];
    let on_the_way = Tables {
        goal: 9,
        bounds: &shut,
        distances: &shut,
    };
    assert!(rt; searched(&rt, &TWICE, on_the_way, 9) == (Answer::Empty, 1, 3));
}

/// A chain of so many edges that cost nothing.
fn chain(rt: &(impl Abort + AllocGlobal), length: u32) -> Vec<Edge> {
    let mut edges = Vec::new(rt.alloc());
    for place in 0..length {
        edges
            .push((i128::from(place), i128::from(place) + 1, 0))
            .expect(rt, "memory");
    }
    edges
}

/// Steps that cost nothing end at the budget.
#[test]
fn steps_may_cost_nothing(rt: HostRuntime) {
    let edges = chain(&rt, 20);
    let none = Tables {
        goal: 99,
        bounds: &[],
        distances: &[],
    };
    assert!(rt; searched(&rt, edges.as_slice(), none, 10) == (Answer::Spent(0), 10, 11));
}

/// Numbers that look random, made from a first one.
#[derive(Clone, Copy)]
struct Random {
    state: u64,
}

impl Random {
    /// A number up to `most`.
    fn up_to(&mut self, most: u32) -> u32 {
        self.state = self
            .state
            .wrapping_mul(6364136223846793005)
            .wrapping_add(1442695040888963407);
        ((self.state >> 33) % (u64::from(most) + 1)) as u32
    }
}

/// So many places.
const PLACES: u32 = 24;

/// Random edges of costs up to 5.
fn random_edges(rt: &(impl Abort + AllocGlobal), random: &mut Random) -> Vec<Edge> {
    let mut edges = Vec::new(rt.alloc());
    for _ in 0..40 {
        let from = i128::from(random.up_to(PLACES - 1));
        let to = i128::from(random.up_to(PLACES - 1));
        edges.push((from, to, random.up_to(5))).expect(rt, "memory");
    }
    edges
}

/// The distance of a place, where it has one.
fn distance(rows: &[Row], place: i128) -> Option<u32> {
    for (at, distance) in rows {
        if *at == place {
            return *distance;
        }
    }
    None
}

/// The less of two distances, where none is above all numbers.
fn lesser(a: Option<u32>, b: Option<u32>) -> Option<u32> {
    match (a, b) {
        (Some(m), Some(n)) => Some(m.min(n)),
        (None, least) | (least, None) => least,
    }
}

/// Lowers the distances of places from which edges lead to places that are closer.
fn round(rows: &mut [Row], edges: &[Edge]) {
    for (from, to, cost) in edges {
        let through = distance(rows, *to).map(|end| end.saturating_add(*cost));
        for row in rows.iter_mut() {
            if row.0 == *from {
                row.1 = lesser(row.1, through);
            }
        }
    }
}

/// The distances of all places from the goal, which is the last one.
fn distances(rt: &(impl Abort + AllocGlobal), edges: &[Edge]) -> Vec<Row> {
    let mut rows = Vec::new(rt.alloc());
    for place in 0..PLACES {
        let distance = if place + 1 == PLACES { Some(0) } else { None };
        rows.push((i128::from(place), distance))
            .expect(rt, "memory");
    }
    for _ in 0..PLACES {
        round(rows.as_mut_slice(), edges);
    }
    rows
}

/// Random bounds that are at most the distances.
fn random_bounds(rt: &(impl Abort + AllocGlobal), random: &mut Random, rows: &[Row]) -> Vec<Row> {
    let mut bounds = Vec::new(rt.alloc());
    for (place, distance) in rows {
        let bound = match distance {
            Some(most) => Some(random.up_to(*most)),
            None if random.up_to(1) == 0 => None,
            None => Some(random.up_to(9)),
        };
        bounds.push((*place, bound)).expect(rt, "memory");
    }
    bounds
}

/// Whether an answer is right, where the start has this distance from the goal.
fn is_right(answer: Answer, distance: Option<u32>) -> bool {
    match (answer, distance) {
        (Answer::Goal(cost), Some(least)) => cost == u64::from(least),
        (Answer::Spent(bound), Some(least)) => bound <= u64::from(least),
        (Answer::Empty | Answer::Spent(_), None) => true,
        _ => false,
    }
}

/// Whether searches of few and of many expansions are right in a random space.
fn agrees(rt: &(impl Abort + AllocGlobal), seed: u64) -> bool {
    let mut random = Random { state: seed };
    let edges = random_edges(rt, &mut random);
    let distances = distances(rt, edges.as_slice());
    let bounds = random_bounds(rt, &mut random, distances.as_slice());
    let tables = Tables {
        goal: i128::from(PLACES - 1),
        bounds: bounds.as_slice(),
        distances: distances.as_slice(),
    };
    let least = distance(distances.as_slice(), 0);
    let whole = searched(rt, edges.as_slice(), tables, 1000);
    let some = searched(rt, edges.as_slice(), tables, 5);
    !matches!(whole.0, Answer::Spent(_)) && is_right(whole.0, least) && is_right(some.0, least)
}

#[test]
fn searches_are_right_in_random_spaces(rt: HostRuntime) {
    for seed in 0..200 {
        assert!(rt; agrees(&rt, seed), "seed {seed}");
    }
}
