//! The value that a domain's text gives: each part, and the places of its words.

use crate::texts::{
    Spot, Stretch, are_groups, are_words, is_at, is_decimal, is_digit, is_name, is_word,
};
use np_syntax::{
    Condition, Declared, Domain, DomainSection, Effect, Expr, Ident, Op, Side, read_domain,
};

const DEPOT: &[u8] = b"(Define (DOMAIN Depot) ; a store
(:Requirements :Typing :fluents)
(:types truck Van - Thing place)
(:constants Home - place)
(:predicates (At ?x - thing ?P - place) (open))
(:functions (fuel ?x ?y - thing ?z) - Number (Cost))
(:ACTION Go :parameters (?x - thing ?A ?b)
:precondition (and (at ?x Home) (not (open)) (not (= ?a HOME)) (not (> 1 2))
(= ?a (Fuel)) (< (- -01.50) (+ F 2 (* 3 4))) ())
:effect (and (not (at ?x ?a)) (At ?x ?b) (increase Cost 1)
(decrease (fuel ?x) (/ (- 1 2) 3)) ()))
(:action Wait))";

/// Whether a predicate or function is declared so.
fn is_declared(declared: &Declared, name: &Spot<'_>, groups: &[Stretch<'_>]) -> bool {
    is_word(&declared.name, name) && are_groups(declared.parameters.as_slice(), groups)
}

/// Whether the first and the second sections are right.
fn has_types(requirements: &DomainSection, types: &DomainSection) -> bool {
    match (requirements, types) {
        (DomainSection::Requirements(first, words), DomainSection::Types(second, groups)) => {
            is_at(first, 2, 2)
                && are_words(words.as_slice(), &[("typing", 2, 16), ("fluents", 2, 24)])
                && is_at(second, 3, 2)
                && are_groups(groups.as_slice(), DEPOT_TYPES)
        }
        _ => false,
    }
}

const DEPOT_TYPES: &[Stretch<'static>] = &[
    (&[("truck", 3, 9), ("van", 3, 15)], Some(("thing", 3, 21))),
    (&[("place", 3, 27)], None),
];

/// Whether the constants are right.
fn has_constants(section: &DomainSection) -> bool {
    match section {
        DomainSection::Constants(place, groups) => {
            is_at(place, 4, 2)
                && are_groups(
                    groups.as_slice(),
                    &[(&[("home", 4, 13)], Some(("place", 4, 20)))],
                )
        }
        _ => false,
    }
}

/// The parameters of `at`, of `fuel` and of the action `go`.
const AT: &[Stretch<'static>] = &[
    (&[("x", 5, 18)], Some(("thing", 5, 23))),
    (&[("p", 5, 29)], Some(("place", 5, 34))),
];

const FUEL: &[Stretch<'static>] = &[
    (&[("x", 6, 19), ("y", 6, 22)], Some(("thing", 6, 27))),
    (&[("z", 6, 33)], None),
];

const GO: &[Stretch<'static>] = &[
    (&[("x", 7, 26)], Some(("thing", 7, 31))),
    (&[("a", 7, 37), ("b", 7, 40)], None),
];

/// Whether the predicates are right.
fn has_predicates(section: &DomainSection) -> bool {
    let DomainSection::Predicates(place, predicates) = section else {
        return false;
    };
    let [at, open] = predicates.as_slice() else {
        return false;
    };
    is_at(place, 5, 2)
        && is_declared(at, &("at", 5, 15), AT)
        && is_declared(open, &("open", 5, 42), &[])
}

/// Whether the functions are right, and which are marked as numbers.
fn has_functions(section: &DomainSection) -> bool {
    let DomainSection::Functions(place, functions) = section else {
        return false;
    };
    let [fuel, cost] = functions.as_slice() else {
        return false;
    };
    is_at(place, 6, 2)
        && is_declared(&fuel.0, &("fuel", 6, 14), FUEL)
        && fuel.1
        && is_declared(&cost.0, &("cost", 6, 47), &[])
        && !cost.1
}

/// Whether that is this variable.
fn is_variable(ident: &Ident, wanted: &Spot<'_>) -> bool {
    match ident {
        Ident::Variable(word) => is_word(word, wanted),
        Ident::Name(_) => false,
    }
}

/// Whether the atom is `(at ?x Home)`.
fn is_at_home(condition: &Condition) -> bool {
    let Condition::Atom(predicate, arguments) = condition else {
        return false;
    };
    let [first, second] = arguments.as_slice() else {
        return false;
    };
    is_word(predicate, &("at", 8, 21))
        && is_variable(first, &("x", 8, 24))
        && is_name(second, &("home", 8, 27))
}

/// Whether the conditions with `not` are right.
fn has_nots(open: &Condition, same: &Condition, greater: &Condition) -> bool {
    is_not_open(open) && is_not_same(same) && is_not_greater(greater)
}

/// Whether that is `(not (open))`.
fn is_not_open(condition: &Condition) -> bool {
    match condition {
        Condition::NotAtom(predicate, arguments) => {
            is_word(predicate, &("open", 8, 39)) && arguments.is_empty()
        }
        _ => false,
    }
}

/// Whether that is `(not (= ?a HOME))`.
fn is_not_same(condition: &Condition) -> bool {
    match condition {
        Condition::NotSame(first, second) => {
            is_variable(first, &("a", 8, 54)) && is_name(second, &("home", 8, 57))
        }
        _ => false,
    }
}

/// Whether that is `(not (> 1 2))`.
fn is_not_greater(condition: &Condition) -> bool {
    match condition {
        Condition::NotCompare(op, first, second) => {
            *op == Op::Greater && is_digit(first, b"1", 8, 72) && is_digit(second, b"2", 8, 74)
        }
        _ => false,
    }
}

/// Whether that is `(= ?a (Fuel))`.
fn is_fuel(condition: &Condition) -> bool {
    let Condition::Equal(Side::Variable(word), Side::Expr(Expr::Call(function, arguments), place)) =
        condition
    else {
        return false;
    };
    is_word(word, &("a", 9, 4))
        && is_word(function, &("fuel", 9, 8))
        && arguments.is_empty()
        && is_at(place, 9, 7)
}

/// Whether that is `(- -01.50)`.
fn is_minus(value: &Expr) -> bool {
    let Expr::Minus(inner) = value else {
        return false;
    };
    match inner.get() {
        Expr::Number(number) => {
            is_decimal(number, true, b"01", Some(b"50")) && is_at(&number.place, 9, 21)
        }
        _ => false,
    }
}

/// Whether that is `(+ F 2 (* 3 4))`.
fn is_sum(value: &Expr) -> bool {
    let Expr::Add(parts) = value else {
        return false;
    };
    match parts.as_slice() {
        [Expr::Bare(function), two, Expr::Mul(factors)] => {
            is_word(function, &("f", 9, 32)) && is_digit(two, b"2", 9, 34) && factors.len() == 2
        }
        _ => false,
    }
}

/// Whether that is the comparison of these two.
fn is_less(condition: &Condition) -> bool {
    match condition {
        Condition::Compare(op, first, second) => {
            *op == Op::Less && is_minus(first) && is_sum(second)
        }
        _ => false,
    }
}

/// Whether the precondition is right.
fn is_precondition(condition: &Condition) -> bool {
    let Condition::And(parts) = condition else {
        return false;
    };
    let [home, open, same, greater, fuel, less, Condition::Nothing] = parts.as_slice() else {
        return false;
    };
    is_at_home(home) && has_nots(open, same, greater) && is_fuel(fuel) && is_less(less)
}

/// Whether these are `(not (at ?x ?a))` and `(At ?x ?b)`.
fn has_facts(delete: &Effect, add: &Effect) -> bool {
    match (delete, add) {
        (Effect::Delete(deleted, _), Effect::Add(added, arguments)) => {
            is_word(deleted, &("at", 10, 20))
                && is_word(added, &("at", 10, 32))
                && arguments.len() == 2
        }
        _ => false,
    }
}

/// Whether that is `(increase Cost 1)`, whose target is a name alone.
fn is_increase(effect: &Effect) -> bool {
    match effect {
        Effect::Increase(function, arguments, is_bare, amount) => {
            is_word(function, &("cost", 10, 52))
                && arguments.is_empty()
                && *is_bare
                && is_digit(amount, b"1", 10, 57)
        }
        _ => false,
    }
}

/// Whether that is `(decrease (fuel ?x) (/ (- 1 2) 3))`, whose target is in brackets.
fn is_decrease(effect: &Effect) -> bool {
    let Effect::Decrease(function, arguments, is_bare, Expr::Div(over, under)) = effect else {
        return false;
    };
    is_word(function, &("fuel", 11, 12))
        && arguments.len() == 1
        && !*is_bare
        && matches!(over.get(), Expr::Sub(_, _))
        && is_digit(under.get(), b"3", 11, 32)
}

/// Whether the effect is right.
fn is_effect(effect: &Effect) -> bool {
    let Effect::And(parts) = effect else {
        return false;
    };
    let [delete, add, increase, decrease, Effect::Nothing] = parts.as_slice() else {
        return false;
    };
    has_facts(delete, add) && is_increase(increase) && is_decrease(decrease)
}

/// Whether the action `go` is right.
fn is_go(section: &DomainSection) -> bool {
    match section {
        DomainSection::Action(place, name, Some(groups), Some(condition), Some(effect)) => {
            is_at(place, 7, 2)
                && is_word(name, &("go", 7, 10))
                && are_groups(groups.as_slice(), GO)
                && is_precondition(condition)
                && is_effect(effect)
        }
        _ => false,
    }
}

/// Whether the action `wait` is right.
fn is_wait(section: &DomainSection) -> bool {
    match section {
        DomainSection::Action(place, name, None, None, None) => {
            is_at(place, 12, 2) && is_word(name, &("wait", 12, 10))
        }
        _ => false,
    }
}

/// Whether the sections are right.
fn has_sections(sections: &[DomainSection]) -> bool {
    let [
        requirements,
        types,
        constants,
        predicates,
        functions,
        go,
        wait,
    ] = sections
    else {
        return false;
    };
    has_types(requirements, types)
        && has_constants(constants)
        && has_predicates(predicates)
        && has_functions(functions)
        && is_go(go)
        && is_wait(wait)
}

/// Whether the domain is right.
fn is_depot(domain: &Domain) -> bool {
    is_word(&domain.name, &("depot", 1, 17)) && has_sections(domain.sections.as_slice())
}

#[test]
fn values_are_those_of_the_text(rt: HostRuntime) {
    match read_domain(rt.alloc(), DEPOT) {
        Ok(domain) => assert!(&rt; is_depot(&domain)),
        Err(_) => panic!(&rt; "a domain"),
    }
}
