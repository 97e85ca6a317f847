//! The value that a problem's text gives: each part, and the places of its words.

use crate::texts::{Stretch, are_groups, are_words, is_at, is_decimal, is_digit, is_name, is_word};
use np_problem::{Fact, Problem, ProblemSection, read_problem};
use np_syntax::{Condition, Expr, Side};

const ERRAND: &[u8] = b"; homewards
 (Define (PROBLEM Errand)
(:Domain Depot)
(:requirements :Typing)
(:objects Truck Van - Thing shop)
(:init (At truck Shop) (not (open)) (= (Fuel truck shop) 01.50) (= Cost -3))
(:goal (and (at truck home) (= ?a shop)))
(:METRIC Minimize (+ Cost 2)))";

/// Whether the first and the second sections are right.
fn has_names(domain: &ProblemSection, requirements: &ProblemSection) -> bool {
    match (domain, requirements) {
        (ProblemSection::Domain(first, name), ProblemSection::Requirements(second, words)) => {
            is_at(first, 3, 2)
                && is_word(name, &("depot", 3, 10))
                && is_at(second, 4, 2)
                && are_words(words.as_slice(), &[("typing", 4, 16)])
        }
        _ => false,
    }
}

const OBJECTS: &[Stretch<'static>] = &[
    (&[("truck", 5, 11), ("van", 5, 17)], Some(("thing", 5, 23))),
    (&[("shop", 5, 29)], None),
];

/// Whether the objects are right.
fn has_objects(section: &ProblemSection) -> bool {
    match section {
        ProblemSection::Objects(place, groups) => {
            is_at(place, 5, 2) && are_groups(groups.as_slice(), OBJECTS)
        }
        _ => false,
    }
}

/// Whether that is `(At truck Shop)`.
fn is_at_shop(fact: &Fact) -> bool {
    match fact {
        Fact::Atom(predicate, arguments) => {
            is_word(predicate, &("at", 6, 9))
                && are_words(arguments.as_slice(), &[("truck", 6, 12), ("shop", 6, 18)])
        }
        _ => false,
    }
}

/// Whether that is `(not (open))`.
fn is_not_open(fact: &Fact) -> bool {
    match fact {
        Fact::NotAtom(predicate, arguments) => {
            is_word(predicate, &("open", 6, 30)) && arguments.is_empty()
        }
        _ => false,
    }
}

/// Whether that is `(= (Fuel truck shop) 01.50)`, whose function is in brackets.
fn is_fuel(fact: &Fact) -> bool {
    match fact {
        Fact::Value(function, arguments, is_bare, value) => {
            is_word(function, &("fuel", 6, 41))
                && are_words(arguments.as_slice(), &[("truck", 6, 46), ("shop", 6, 52)])
                && !*is_bare
                && is_decimal(value, false, b"01", Some(b"50"))
                && is_at(&value.place, 6, 58)
        }
        _ => false,
    }
}

/// Whether that is `(= Cost -3)`, whose function is a name alone.
fn is_cost(fact: &Fact) -> bool {
    match fact {
        Fact::Value(function, arguments, is_bare, value) => {
            is_word(function, &("cost", 6, 68))
                && arguments.is_empty()
                && *is_bare
                && is_decimal(value, true, b"3", None)
                && is_at(&value.place, 6, 73)
        }
        _ => false,
    }
}

/// Whether the facts are right.
fn has_facts(section: &ProblemSection) -> bool {
    let ProblemSection::Init(place, facts) = section else {
        return false;
    };
    let [shop, open, fuel, cost] = facts.as_slice() else {
        return false;
    };
    is_at(place, 6, 2) && is_at_shop(shop) && is_not_open(open) && is_fuel(fuel) && is_cost(cost)
}

/// Whether that is `(at truck home)`.
fn is_at_home(condition: &Condition) -> bool {
    let Condition::Atom(predicate, arguments) = condition else {
        return false;
    };
    let [first, second] = arguments.as_slice() else {
        return false;
    };
    is_word(predicate, &("at", 7, 14))
        && is_name(first, &("truck", 7, 17))
        && is_name(second, &("home", 7, 23))
}

/// Whether that is `(= ?a shop)`.
fn is_same(condition: &Condition) -> bool {
    match condition {
        Condition::Equal(Side::Variable(variable), Side::Expr(Expr::Bare(name), place)) => {
            is_word(variable, &("a", 7, 32))
                && is_word(name, &("shop", 7, 35))
                && is_at(place, 7, 35)
        }
        _ => false,
    }
}

/// Whether the goal is right.
fn has_goal(section: &ProblemSection) -> bool {
    let ProblemSection::Goal(place, Condition::And(parts)) = section else {
        return false;
    };
    let [home, same] = parts.as_slice() else {
        return false;
    };
    is_at(place, 7, 2) && is_at_home(home) && is_same(same)
}

/// Whether the metric is right.
fn has_metric(section: &ProblemSection) -> bool {
    let ProblemSection::Metric(place, Expr::Add(parts)) = section else {
        return false;
    };
    match parts.as_slice() {
        [Expr::Bare(cost), two] => {
            is_at(place, 8, 2) && is_word(cost, &("cost", 8, 22)) && is_digit(two, b"2", 8, 27)
        }
        _ => false,
    }
}

/// Whether the sections are right.
fn has_sections(sections: &[ProblemSection]) -> bool {
    let [domain, requirements, objects, init, goal, metric] = sections else {
        return false;
    };
    has_names(domain, requirements)
        && has_objects(objects)
        && has_facts(init)
        && has_goal(goal)
        && has_metric(metric)
}

/// Whether the problem is right.
fn is_errand(problem: &Problem) -> bool {
    is_at(&problem.place, 2, 2)
        && problem.place.offset == 13
        && is_word(&problem.name, &("errand", 2, 19))
        && has_sections(problem.sections.as_slice())
}

#[test]
fn values_are_those_of_the_text(rt: HostRuntime) {
    match read_problem(rt.alloc(), ERRAND) {
        Ok(problem) => assert!(&rt; is_errand(&problem)),
        Err(_) => panic!(&rt; "a problem"),
    }
}
