//! Domains that are read, and where the first fault of any other text is.

use crate::texts::{
    Grammar, NUMBERS, Nested, Outcome, cut, is_read, joined, nests, number_outcome, outcome_of,
    stops_between,
};

/// Texts and what comes of them.
const TEXTS: &[(&[u8], Outcome)] = &[
    (b"", Outcome::At(1, 1)),
    (b"\0", Outcome::At(1, 1)),
    (b"   ", Outcome::At(1, 4)),
    (b"\n\n ; (", Outcome::At(3, 5)),
    (b"\xff", Outcome::At(1, 1)),
    (b"(define (domain d))", Outcome::Read),
    (b"\t( Define\r\n(DOMAIN D ) ) ; (", Outcome::Read),
    (b"(define (domain d)))", Outcome::At(1, 20)),
    (b"(define (domain d)) d", Outcome::At(1, 21)),
    (b"(define (domain d))\n ?", Outcome::At(2, 2)),
    (b"(define (domain and))", Outcome::At(1, 17)),
    (b"(define (domain Total-Time))", Outcome::At(1, 17)),
    (b"(define (domain ?d))", Outcome::At(1, 17)),
    (b"(define (domain d e))", Outcome::At(1, 19)),
    (b"(define (problem d))", Outcome::At(1, 10)),
    (b"(define domain d)", Outcome::At(1, 9)),
    (b"(domain d)", Outcome::At(1, 2)),
    (b"define (domain d)", Outcome::At(1, 1)),
    (
        b"(define (domain d)\n (:action a :parameters ()",
        Outcome::At(2, 27),
    ),
    (
        b"(define (domain d) (:action a :parameters () :precondition (or (p) (q)) :effect ()))",
        Outcome::At(1, 61),
    ),
    (b"(define (domain d) ; \xc3\xa9\xff)\n)", Outcome::Read),
    (b"(define (domain d) ; \xff", Outcome::At(1, 23)),
    (b"(define (domain d)\xc3\xa9)", Outcome::At(1, 19)),
    (b"(define (domain d\xe9))", Outcome::At(1, 18)),
    (b"(define (domain \xe9))", Outcome::At(1, 17)),
];

#[test]
fn texts_have_their_outcome(rt: HostRuntime) {
    for (text, wanted) in TEXTS {
        assert!(&rt; outcome_of(&rt, Grammar::Domain, *text) == *wanted);
    }
}

/// A domain is this round a section's keyword and what follows.
const SECTION: (&str, &str) = ("(define (domain d)\n(", "))");

/// Sections without the bracket before them and the last one.
const SECTIONS: &[&str] = &[
    ":requirements",
    ":requirements :define :x",
    ":types",
    ":types a b - c d",
    ":constants a - b c - d",
    ":predicates",
    ":predicates (p) (q ?x ?y - t ?z)",
    ":functions (f) (g ?x) - number (h) - number",
    ":action a",
    ":action a :effect ()",
    ":action a :parameters () :effect (p)",
    ":Action number :Precondition (define)",
];

/// No sections, cut where reading stops.
const SECTION_FAULTS: &[(&str, &str)] = &[
    ("", ""),
    ("", "types a"),
    ("", ":length 5"),
    ("", ":type a"),
    (":requirements ", "typing"),
    (":requirements :typing ", ": x"),
    (":types a - ", ""),
    (":types ", "- a"),
    (":types a - b ", "- c"),
    (":types ", "(either a b)"),
    (":types t - ", "(either a b)"),
    (":types a ", "either"),
    (":types ", "?x"),
    (":constants ", "5"),
    (":predicates ", "p"),
    (":predicates (", ")"),
    (":predicates (", "or)"),
    (":predicates (p ", "x)"),
    (":predicates (p ?x - ", "?t)"),
    (":predicates (p) ", "- number"),
    (":functions ", "- number"),
    (":functions (f) - ", "object"),
    (":functions (f) - number ", "- number"),
    (":action ", ""),
    (":action ", ":effect ()"),
    (":action a ", "()"),
    (":action a :parameters ", ":effect ()"),
    (":action a :parameters (", "x)"),
    (":action a :parameters () ", ":parameters ()"),
    (":action a :effect () ", ":precondition ()"),
    (":action a :effect () ", ":effect ()"),
    (":action a :precondition ", ":effect ()"),
    (":action a :effect ", "p"),
];

#[test]
fn sections_are_read(rt: HostRuntime) {
    for text in SECTIONS {
        assert!(&rt; is_read(&rt, Grammar::Domain, SECTION, *text), "{text}");
    }
    for row in SECTION_FAULTS {
        assert!(&rt; stops_between(&rt, Grammar::Domain, SECTION, row));
    }
}

/// A domain is this round a condition.
const CONDITION: (&str, &str) = ("(define (domain d) (:action a :precondition ", "))");

/// Conditions.
const CONDITIONS: &[&str] = &[
    "()",
    "(and)",
    "(AND (P ?X) ())",
    "(p a ?x)",
    "(not (p))",
    "(= 5 ?x)",
    "(= ?x f)",
    "(= (f ?x) -1.50)",
    "(not (= f g))",
    "(not (= ?x ?y))",
    "(not (<= (f) 1))",
    "(> (+ 1 2 3) (- f))",
    "(>= (/ 1 (* 2 3)) (- 1 2))",
];

/// No conditions, cut where reading stops.
const CONDITION_FAULTS: &[(&str, &str)] = &[
    ("(not (", "and))"),
    ("(not (", "not (p)))"),
    ("(not (= f ", "3))"),
    ("(not (= f ", "(g)))"),
    ("(not (= f g ", "h))"),
    ("(not (", "))"),
    ("(not ", ")"),
    ("(not ", "p)"),
    ("(not (p) ", "(q))"),
    ("(not (<= 1 2 ", "3))"),
    ("(", "or (p))"),
    ("(", "increase f 1)"),
    ("(", "?x)"),
    ("(", "- 1 2)"),
    ("(p ", "(q))"),
    ("(p ", "1)"),
    ("(p ", "when)"),
    ("(and ", "p)"),
    ("(< ", "?x 1)"),
    ("(< 1 ", "?x)"),
    ("(< 1", ")"),
    ("(< 1 2 ", "3)"),
    ("(< ", "and 1)"),
    ("(< (f ", "1) 2)"),
    ("(< (", "and) 2)"),
    ("(< (", "< 1 2) 2)"),
    ("(< (+ 1", ") 2)"),
    ("(< (* 1", ") 2)"),
    ("(< (/ 1", ") 2)"),
    ("(< (/ 1 2 ", "3) 4)"),
    ("(< (- ", ") 2)"),
    ("(< (- 1 2 ", "3) 4)"),
    ("(< 1 ", "- 2)"),
    ("(= ", ")"),
    ("(= ?x", ")"),
    ("(= 1 2 ", "3)"),
    ("(= 1 ", "+ 2)"),
];

#[test]
fn conditions_are_read(rt: HostRuntime) {
    for text in CONDITIONS {
        assert!(&rt; is_read(&rt, Grammar::Domain, CONDITION, *text), "{text}");
    }
    for row in CONDITION_FAULTS {
        assert!(&rt; stops_between(&rt, Grammar::Domain, CONDITION, row));
    }
}

/// A domain is this round an effect.
const EFFECT: (&str, &str) = ("(define (domain d) (:action a :effect ", "))");

/// Effects.
const EFFECTS: &[&str] = &[
    "()",
    "(and)",
    "(and (p ?x a) (and ()))",
    "(not (p))",
    "(increase f 1)",
    "(Decrease (f ?x) (- 1))",
];

/// No effects, cut where reading stops.
const EFFECT_FAULTS: &[(&str, &str)] = &[
    ("(", "assign (f) 1)"),
    ("(", "scale-up f 2)"),
    ("(", "when (p) (q))"),
    ("(", "= f 1)"),
    ("(", "< 1 2)"),
    ("(not ", "p)"),
    ("(not (", "and))"),
    ("(not (", "not (p)))"),
    ("(not (", "= f g))"),
    ("(not (", "increase f 1))"),
    ("(not (p) ", "(q))"),
    ("(increase ", "?x 1)"),
    ("(increase ", "1 1)"),
    ("(increase (", "+ 1 2) 3)"),
    ("(increase (f)", ")"),
    ("(increase f ", "?x)"),
    ("(decrease f 1 ", "2)"),
    ("(and ", "p)"),
    ("(p ", "(q))"),
];

#[test]
fn effects_are_read(rt: HostRuntime) {
    for text in EFFECTS {
        assert!(&rt; is_read(&rt, Grammar::Domain, EFFECT, *text), "{text}");
    }
    for row in EFFECT_FAULTS {
        assert!(&rt; stops_between(&rt, Grammar::Domain, EFFECT, row));
    }
}

/// Conditions after so many times `(and `. Brackets may be 256 deep, of which the domain and the action take two. From the 45th
/// byte on.
const NESTED_CONDITIONS: &[Nested] = &[
    (254, "", 0, Outcome::At(1, 1315)),
    (255, "", 0, Outcome::At(1, 1315)),
    (254, "", 256, Outcome::Read),
    (254, "", 257, Outcome::At(1, 1571)),
    (253, "()", 255, Outcome::Read),
    (254, "()", 256, Outcome::At(1, 1315)),
    (252, "(not ", 0, Outcome::At(1, 1310)),
    (253, "(not ", 0, Outcome::At(1, 1311)),
    (252, "(not (p))", 254, Outcome::Read),
    (253, "(< f 1)", 255, Outcome::Read),
    (252, "(< (f) 1)", 254, Outcome::Read),
    (253, "(< (f) 1)", 0, Outcome::At(1, 1313)),
    (253, "(= 1 (f))", 0, Outcome::At(1, 1315)),
    (252, "(not (= f g))", 254, Outcome::Read),
    (252, "(not (< f 1))", 254, Outcome::Read),
    (252, "(not (< (f) 1))", 0, Outcome::At(1, 1313)),
    (251, "(< 1 (- (f)))", 253, Outcome::Read),
    (252, "(< 1 (- (f)))", 0, Outcome::At(1, 1313)),
];

/// The same of effects, from the 39th byte on.
const NESTED_EFFECTS: &[Nested] = &[
    (254, "", 256, Outcome::Read),
    (254, "", 0, Outcome::At(1, 1309)),
    (255, "", 0, Outcome::At(1, 1309)),
    (252, "(not ", 0, Outcome::At(1, 1304)),
    (253, "(not ", 0, Outcome::At(1, 1305)),
    (252, "(not (p))", 254, Outcome::Read),
    (253, "(increase f 1)", 255, Outcome::Read),
    (252, "(increase (f) 1)", 254, Outcome::Read),
    (253, "(increase (f) 1)", 0, Outcome::At(1, 1314)),
    (253, "(increase f (g))", 0, Outcome::At(1, 1316)),
];

#[test]
fn brackets_nest_so_deep(rt: HostRuntime) {
    for row in NESTED_CONDITIONS {
        assert!(&rt; nests(&rt, Grammar::Domain, CONDITION.0, "(and ", row));
    }
    for row in NESTED_EFFECTS {
        assert!(&rt; nests(&rt, Grammar::Domain, EFFECT.0, "(and ", row));
    }
}

/// A domain is this round an amount, which begins at the 51st byte.
const AMOUNT: (&str, &str) = ("(define (domain d) (:action a :effect (increase f ", ")))");

/// Texts in which a number has 39 digits or nearly so, and what comes of them.
const WIDE: &[(&str, Outcome)] = &[
    // It can't stand there.
    ("123456789012345678901234567890123456789", Outcome::At(1, 1)),
    (
        "(define (domain d) 123456789012345678901234567890123456789)",
        Outcome::At(1, 20),
    ),
    (
        "(define (domain d)) 123456789012345678901234567890123456789",
        Outcome::At(1, 21),
    ),
    (
        "(define (domain d) (:action a :precondition (p 123456789012345678901234567890123456789)))",
        Outcome::At(1, 48),
    ),
    // Another fault is before it.
    (
        "(define (domain and) (:action a :effect (increase f 123456789012345678901234567890123456789)))",
        Outcome::At(1, 17),
    ),
    (
        "(define (domain d) . 123456789012345678901234567890123456789)",
        Outcome::At(1, 20),
    ),
    (
        "(define (domain d) (:action a :effect (increase f 12345678901234567890123456789012345678.)))",
        Outcome::At(1, 89),
    ),
    // Another fault is after it.
    (
        "(define (domain d) (:action a :effect (increase f 123456789012345678901234567890123456789)) :length",
        Outcome::Wide(1, 51),
    ),
    (
        "(define (domain d) (:action a :effect (increase f 123456789012345678901234567890123456789x)))",
        Outcome::Wide(1, 51),
    ),
    (
        "(define (domain d) (:action a :effect (increase f 123456789012345678901234567890123456789.)))",
        Outcome::Wide(1, 51),
    ),
    (
        "(define (domain d)\n(:action a :effect (increase f 123456789012345678901234567890123456789",
        Outcome::Wide(2, 32),
    ),
    // Two of them, and one that is no token.
    (
        "(define (domain d) (:action a :precondition (< 123456789012345678901234567890123456789 000000000000000000000000000000000000000)))",
        Outcome::Wide(1, 48),
    ),
    (
        "(define (domain d)) ; 123456789012345678901234567890123456789",
        Outcome::Read,
    ),
];

#[test]
fn numbers_have_so_many_digits(rt: HostRuntime) {
    for (number, is_wide) in NUMBERS {
        let text = joined(&rt, &[AMOUNT.0, *number, AMOUNT.1]);
        assert!(&rt;
            outcome_of(&rt, Grammar::Domain, &text) == number_outcome(*is_wide, 51),
            "{number}"
        );
    }
    for (text, wanted) in WIDE {
        assert!(&rt;
            outcome_of(&rt, Grammar::Domain, text.as_bytes()) == *wanted,
            "{text}"
        );
    }
}

/// Domains with marks: `cut` says where. No mark is round `and`, `not`, `increase` or `decrease`: what is left of those is a
/// predicate's name.
const LOOSE: &str = "; a store (and a van)
(~define~ (~domain~ store)
 (~:requirements~ ~:t~yping ~:e~quality)
 (~:types~ truck van - thing place)
 (~:constants~ home - place)
 (~:predicates~ (at ~?x~ - thing ~?p~lace - place) (open))
 (~:functions~ (fuel ~?x~ ~?y~ - thing ~?z~) - ~number~ (cost)) ; what it takes
 (~:action~ go ~:parameters~ (~?x~ - thing ~?a~ ~?b~)
  ~:precondition~ (and (at ~?x~ home) (not (open)) (not (= ~?a~ home)) (not (> 1 2))
   (= ~?a~ (fuel)) (<= (- 1~.5~0) (+ f ~-2~ (* 3 14))) ())
  ~:effect~ (and (not (at ~?x~ ~?a~)) (at ~?x~ ~?b~) (increase cost 1)
   (decrease (fuel ~?x~) (/ (- 1 2) 3)) () )))";

const DENSE: &str =
    "(~DEFINE~(~Domain~ b)(~:action~ x ~:effect~())(~:Functions~(f)-~NUMBER~(g ~?u~_1 ~?v~ -t)-~number~(h))(~:types~)
(~:Action~ y-1 ~:precondition~(And(and(and)(andes o))(=5 ~?u~)(= 0~.2~5 g)(=f(f))(not(p o ~?u~))(not(<=(f)g))(NOT(= ~?v~ o))
(>=(*(-(f)~-1~)~-2~~.5~(+(g o)1 2))(/ 6(- f)))(notes))~:effect~(INCREASE(g ~?v~ o)(-~-3~)))
(~:constants~ c)(~:action~ z ~:parameters~(~?k~)~:effect~(and(decrease h 2)(notes)(increases)(and))))";

#[test]
fn faults_of_each_prefix_are_found(rt: HostRuntime) {
    for with_marks in [LOOSE, DENSE] {
        let text = cut(&rt, Grammar::Domain, with_marks);
        assert!(&rt; outcome_of(&rt, Grammar::Domain, &text) == Outcome::Read);
    }
}
