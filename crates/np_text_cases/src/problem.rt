//! Problems that are read, and where the first fault of any other text is.

use crate::texts::{
    Grammar, NUMBERS, Nested, Outcome, cut, is_read, joined, nests, number_outcome, outcome_of,
    stops_between,
};
use std::process::Abort;

/// Texts and what comes of them.
const TEXTS: &[(&[u8], Outcome)] = &[
    (b"", Outcome::At(1, 1)),
    (b"\0", Outcome::At(1, 1)),
    (b"   ", Outcome::At(1, 4)),
    (b"\n\n ; (", Outcome::At(3, 5)),
    (b"\xff", Outcome::At(1, 1)),
    (b"(define (problem p))", Outcome::Read),
    (b"\t( Define\r\n(PROBLEM P ) ) ; (", Outcome::Read),
    (b"(define (problem p)))", Outcome::At(1, 21)),
    (b"(define (problem p)) p", Outcome::At(1, 22)),
    (b"(define (problem p))\n ?", Outcome::At(2, 2)),
    (b"(define (problem and))", Outcome::At(1, 18)),
    (b"(define (problem Total-Time))", Outcome::At(1, 18)),
    (b"(define (problem ?p))", Outcome::At(1, 18)),
    (b"(define (problem p q))", Outcome::At(1, 20)),
    (b"(define (domain d))", Outcome::At(1, 10)),
    (b"(define problem p)", Outcome::At(1, 9)),
    (b"(problem p)", Outcome::At(1, 2)),
    (b"define (problem p)", Outcome::At(1, 1)),
    (
        b"(define (problem p) (:domain c)\n (:metric maximize (x)))",
        Outcome::At(2, 11),
    ),
    (
        b"(define (problem p) (:domain c)\n (:length (:serial 5)))",
        Outcome::At(2, 3),
    ),
    (b"(define (problem p) ; \xc3\xa9\xff)\n)", Outcome::Read),
    (b"(define (problem p) ; \xff", Outcome::At(1, 24)),
    (b"(define (problem p)\xc3\xa9)", Outcome::At(1, 20)),
    (b"(define (problem p\xe9))", Outcome::At(1, 19)),
    (b"(define (problem \xe9))", Outcome::At(1, 18)),
];

#[test]
fn texts_have_their_outcome(rt: HostRuntime) {
    for (text, wanted) in TEXTS {
        assert!(&rt; outcome_of(&rt, Grammar::Problem, *text) == *wanted);
    }
}

/// A problem is this round a section's keyword and what follows.
const SECTION: (&str, &str) = ("(define (problem p)\n(", "))");

/// Sections without the bracket before them and the last one.
const SECTIONS: &[&str] = &[
    ":domain d",
    ":Domain Minimize) (:domain number",
    ":requirements",
    ":requirements :define :x",
    ":objects",
    ":objects a b - t c",
    ":Objects goal - define minimize - object",
    ":init",
    ":init (p) (p a b) (not (p)) (NOT (P a B))",
    ":init (= f 3) (= (f) -0.50) (= (f a b) 007) (= f 4)",
    ":goal ()",
    ":goal (p a ?x)",
    ":goal (and (p) (not (= ?x a)) (<= (f ?x) (+ 1 2)))",
    ":metric minimize 1",
    ":Metric MINIMIZE (f)",
    ":metric minimize minimize) (:metric minimize (- (f a ?x) -2)",
    ":goal ()) (:init) (:goal ()) (:domain d) (:objects) (:init",
];

/// No sections, cut where reading stops.
const SECTION_FAULTS: &[(&str, &str)] = &[
    ("", ""),
    ("", "domain d"),
    ("", "(:domain d)"),
    ("", ":length 5"),
    ("", ":constraints (p)"),
    ("", ":types a"),
    ("", ":constants a"),
    ("", ":predicates (p)"),
    ("", ":functions (f)"),
    ("", ":action a"),
    ("", ":object a"),
    ("", ": domain d"),
    (":domain", ""),
    (":domain ", "?d"),
    (":domain ", ":d"),
    (":domain ", "3"),
    (":domain ", "or"),
    (":domain ", "(d)"),
    (":domain d ", "e"),
    (":domain d) (", "domain)"),
    (":requirements ", "typing"),
    (":requirements :typing ", ": x"),
    (":requirements :typing ", "()"),
    (":objects ", "- a"),
    (":objects a - ", ""),
    (":objects a - b ", "- c"),
    (":objects a - ", "(either b c)"),
    (":objects a ", "either"),
    (":objects ", "?x"),
    (":objects a ", "3"),
    (":objects a - ", "?t"),
    (":init ", "p"),
    (":init ", ":p"),
    (":goal ", "p"),
    (":goal ", ":p"),
    (":goal ", ""),
    (":goal () ", "()"),
    (":goal (", "?x)"),
    (":goal (", "or (p))"),
    (":goal (", "increase f 1)"),
    (":goal (not ", "p)"),
    (":goal (not (= f ", "3))"),
    (":goal (not (", "and))"),
    (":goal (p ", "1)"),
    (":goal (= 1", ")"),
    (":goal (< ", "?x 1)"),
    (":goal (", "+ 1 2)"),
    (":metric", ""),
    (":metric ", "maximize f"),
    (":metric ", "minimise f"),
    (":metric ", ":minimize f"),
    (":metric ", "f"),
    (":metric ", "(minimize f)"),
    (":metric minimize", ""),
    (":metric minimize (", ")"),
    (":metric minimize ", "?x"),
    (":metric minimize ", "total-time"),
    (":metric minimize (", "total-time)"),
    (":metric minimize (", "< 1 2)"),
    (":metric minimize ", "- 3"),
    (":metric minimize (+ f", ")"),
    (":metric minimize f ", "g"),
    (":metric minimize 1 ", "(f)"),
];

#[test]
fn sections_are_read(rt: HostRuntime) {
    for text in SECTIONS {
        assert!(&rt; is_read(&rt, Grammar::Problem, SECTION, *text), "{text}");
    }
    for row in SECTION_FAULTS {
        assert!(&rt; stops_between(&rt, Grammar::Problem, SECTION, row));
    }
}

/// A problem is this round a fact.
const FACT: (&str, &str) = ("(define (problem p) (:init (p) ", " (= f 1)))");

/// No facts, cut where reading stops.
const FACT_FAULTS: &[(&str, &str)] = &[
    ("(", ")"),
    ("(", "?p)"),
    ("(", "(p))"),
    ("(", "3 p)"),
    ("(", "and (p))"),
    ("(", "or (p))"),
    ("(", "forall a)"),
    ("(", "increase f 1)"),
    ("(", "< f 1)"),
    ("(", "<= f 1)"),
    ("(", "- f 1)"),
    ("(", "total-time)"),
    ("(p ", "?x)"),
    ("(p a ", "(b))"),
    ("(p ", "1)"),
    ("(p a ", "not)"),
    ("(p a ", "- b)"),
    ("(not ", ")"),
    ("(not ", "p)"),
    ("(not ", "?p)"),
    ("(not (", "))"),
    ("(not (", "not (p)))"),
    ("(not (", "= f 3))"),
    ("(not (", "?p))"),
    ("(not (p a ", "?x))"),
    ("(not (p) ", "(q))"),
    ("(not (p) ", "a)"),
    ("(= ", ")"),
    ("(= ", "3 f)"),
    ("(= ", "?x 3)"),
    ("(= ", "not 3)"),
    ("(= ", "= f 3)"),
    ("(= f", ")"),
    ("(= f ", "g)"),
    ("(= f ", "?x)"),
    ("(= f ", "(g))"),
    ("(= f ", "(- 3))"),
    ("(= f ", "- 3)"),
    ("(= f ", "+ 3)"),
    ("(= f 3 ", "4)"),
    ("(= f 3", ".)"),
    ("(= f -3 ", "f)"),
    ("(= (", ") 3)"),
    ("(= (", "(f)) 3)"),
    ("(= (", "+ f g) 3)"),
    ("(= (", "when) 3)"),
    ("(= (", "?f) 3)"),
    ("(= (f ", "?x) 3)"),
    ("(= (f a ", "1) 3)"),
    ("(= (f ", "(a)) 3)"),
    ("(= (f a)", ")"),
    ("(= (f a) ", "a)"),
    ("(= (f a) 3 ", "(g))"),
];

#[test]
fn facts_are_read(rt: HostRuntime) {
    for row in FACT_FAULTS {
        assert!(&rt; stops_between(&rt, Grammar::Problem, FACT, row));
    }
}

/// A goal and a metric begin after this.
const GOAL: &str = "(define (problem p) (:goal ";

const METRIC: &str = "(define (problem p) (:metric minimize ";

/// Goals after so many times `(and `. Brackets may be 256 deep, of which the problem and the section take two. From the 28th byte
/// on.
const NESTED_GOALS: &[Nested] = &[
    (254, "", 0, Outcome::At(1, 1298)),
    (255, "", 0, Outcome::At(1, 1298)),
    (254, "", 256, Outcome::Read),
    (254, "", 257, Outcome::At(1, 1554)),
    (253, "()", 255, Outcome::Read),
    (254, "()", 256, Outcome::At(1, 1298)),
    (252, "(not ", 0, Outcome::At(1, 1293)),
    (253, "(not ", 0, Outcome::At(1, 1294)),
    (252, "(not (p))", 254, Outcome::Read),
    (253, "(p)", 255, Outcome::Read),
    (253, "(< f 1)", 255, Outcome::Read),
    (252, "(< (f) 1)", 254, Outcome::Read),
    (253, "(< (f) 1)", 0, Outcome::At(1, 1296)),
    (253, "(= 1 (f))", 0, Outcome::At(1, 1298)),
    (252, "(not (= f g))", 254, Outcome::Read),
    (251, "(< 1 (- (f)))", 253, Outcome::Read),
    (252, "(< 1 (- (f)))", 0, Outcome::At(1, 1296)),
];

/// Metrics after so many times `(- `, from the 39th byte on.
const NESTED_METRICS: &[Nested] = &[
    (254, "f", 256, Outcome::Read),
    (254, "", 0, Outcome::At(1, 801)),
    (255, "", 0, Outcome::At(1, 801)),
    (254, "(f)", 0, Outcome::At(1, 801)),
    (253, "(f)", 255, Outcome::Read),
    (253, "(+ 1 2)", 255, Outcome::Read),
    (253, "(+ 1 (f))", 0, Outcome::At(1, 803)),
    (252, "(+ 1 (f))", 254, Outcome::Read),
];

#[test]
fn brackets_nest_so_deep(rt: HostRuntime) {
    for row in NESTED_GOALS {
        assert!(&rt; nests(&rt, Grammar::Problem, GOAL, "(and ", row));
    }
    for row in NESTED_METRICS {
        assert!(&rt; nests(&rt, Grammar::Problem, METRIC, "(- ", row));
    }
}

/// A problem is this round a value, which begins at the 33rd byte.
const VALUE: (&str, &str) = ("(define (problem p) (:init (= f ", ")))");

/// Texts in which a number has 39 digits or 40 or nearly so, and what comes of them.
const WIDE: &[(&str, Outcome)] = &[
    // It can't stand there.
    ("123456789012345678901234567890123456789", Outcome::At(1, 1)),
    (
        "(define (problem p) 123456789012345678901234567890123456789)",
        Outcome::At(1, 21),
    ),
    (
        "(define (problem p)) 123456789012345678901234567890123456789",
        Outcome::At(1, 22),
    ),
    (
        "(define (problem p) (:init (p 123456789012345678901234567890123456789)))",
        Outcome::At(1, 31),
    ),
    (
        "(define (problem p) (:init (= 123456789012345678901234567890123456789 f)))",
        Outcome::At(1, 31),
    ),
    // Another fault is before it.
    (
        "(define (problem and) (:init (= f 123456789012345678901234567890123456789)))",
        Outcome::At(1, 18),
    ),
    (
        "(define (problem p) (:metric maximize 123456789012345678901234567890123456789))",
        Outcome::At(1, 30),
    ),
    (
        "(define (problem p) (:init (= f 12345678901234567890123456789012345678.)))",
        Outcome::At(1, 71),
    ),
    // Another fault is after it, the end as well.
    (
        "(define (problem p) (:domain c) (:init (= (x) 1234567890123456789012345678901234567890",
        Outcome::Wide(1, 47),
    ),
    (
        "(define (problem p)\n(:init (= f 123456789012345678901234567890123456789",
        Outcome::Wide(2, 13),
    ),
    (
        "(define (problem p) (:init (= f 123456789012345678901234567890123456789)) :length",
        Outcome::Wide(1, 33),
    ),
    (
        "(define (problem p) (:init (= f 123456789012345678901234567890123456789.)))",
        Outcome::Wide(1, 33),
    ),
    // It is in the goal or the metric, or there are two of them.
    (
        "(define (problem p) (:metric minimize -123456789012345678901234567890123456789))",
        Outcome::Wide(1, 39),
    ),
    (
        "(define (problem p) (:goal (< 123456789012345678901234567890123456789 000000000000000000000000000000000000000)))",
        Outcome::Wide(1, 31),
    ),
    (
        "(define (problem p)) ; 123456789012345678901234567890123456789",
        Outcome::Read,
    ),
];

#[test]
fn numbers_have_so_many_digits(rt: HostRuntime) {
    for (number, is_wide) in NUMBERS {
        let text = joined(&rt, &[VALUE.0, *number, VALUE.1]);
        assert!(&rt;
            outcome_of(&rt, Grammar::Problem, &text) == number_outcome(*is_wide, 33),
            "{number}"
        );
    }
    for (text, wanted) in WIDE {
        assert!(&rt;
            outcome_of(&rt, Grammar::Problem, text.as_bytes()) == *wanted,
            "{text}"
        );
    }
}

/// Problems with marks: `cut` says where. No mark is round `not` and `and`: what is left of them is a predicate's name.
const LOOSE: &str = "; homewards (and back)
(~define~ (~problem~ go-home)
 (~:domain~ store)
 (~:requirements~ ~:t~yping ~:e~quality)
 (~:objects~ truck - van home shop - place thing)
 (~:init~ (at truck shop) (not (open)) (= (fuel truck shop) 1~.5~0) (= cost 0) ; at first
  (= (x) ~-3~))
 (~:goal~ (and (at truck home) (not (= ~?a~ home)) (< (fuel truck home) (+ 1 2)) ()))
 (~:metric~ ~minimize~ (+ cost (* 2 (fuel truck home)))))";

const DENSE: &str = "(~DEFINE~(~Problem~ p2)(~:metric~ ~Minimize~ ~-1~)(~:init~)(~:Goal~())
(~:init~(p)(Not(q a-1 b_2))(= f ~-0~~.5~)(=(g a)7))(~:goal~(>=(-(f)~-1~)(/ 6(- f))))
(~:objects~)(~:domain~ minimize)(~:metric~ ~minimize~ f))";

#[test]
fn faults_of_each_prefix_are_found(rt: HostRuntime) {
    for with_marks in [LOOSE, DENSE] {
        let text = cut(&rt, Grammar::Problem, with_marks);
        assert!(&rt; outcome_of(&rt, Grammar::Problem, &text) == Outcome::Read);
    }
}

/// The tokens of a problem, and what comes of it where a token is left out, where it is swapped with the next one, and where it is
/// written twice: the column of the first fault, or 0 where there is none. The tokens are in one line, with one blank between two.
/// The columns are those of a chart parser that was written apart from the reader.
const TOKENS: &[(&str, usize, usize, usize)] = &[
    ("(", 1, 1, 3),
    ("define", 3, 3, 10),
    ("(", 10, 10, 12),
    ("problem", 12, 12, 28),
    ("p", 20, 20, 22),
    (")", 22, 22, 26),
    ("(", 24, 24, 26),
    (":domain", 26, 26, 34),
    ("d", 34, 34, 36),
    (")", 36, 36, 40),
    ("(", 38, 38, 40),
    (":objects", 40, 40, 49),
    ("a", 0, 0, 0),
    ("b", 0, 0, 0),
    ("-", 0, 0, 55),
    ("t", 0, 0, 0),
    ("c", 0, 59, 0),
    (")", 59, 59, 63),
    ("(", 61, 61, 63),
    (":init", 63, 63, 69),
    ("(", 69, 69, 71),
    ("p", 0, 0, 0),
    ("a", 0, 75, 0),
    (")", 75, 75, 81),
    ("(", 77, 77, 79),
    ("not", 79, 79, 83),
    ("(", 83, 83, 85),
    ("q", 85, 85, 0),
    (")", 89, 0, 95),
    (")", 89, 89, 95),
    ("(", 91, 91, 93),
    ("=", 95, 95, 95),
    ("f", 95, 95, 97),
    ("3", 97, 97, 99),
    (")", 99, 99, 105),
    ("(", 101, 101, 103),
    ("=", 103, 103, 105),
    ("(", 107, 107, 107),
    ("g", 0, 0, 0),
    ("a", 0, 111, 0),
    (")", 111, 111, 113),
    ("-1", 113, 113, 116),
    (")", 120, 0, 122),
    (")", 120, 120, 122),
    ("(", 120, 120, 122),
    (":goal", 122, 122, 128),
    ("(", 128, 128, 130),
    ("and", 130, 130, 134),
    ("(", 134, 134, 136),
    ("p", 0, 0, 0),
    ("a", 0, 140, 0),
    (")", 140, 140, 144),
    ("(", 142, 142, 144),
    ("<", 144, 144, 146),
    ("(", 148, 150, 148),
    ("g", 148, 148, 0),
    ("?x", 0, 152, 0),
    (")", 153, 153, 155),
    ("2", 155, 155, 157),
    (")", 161, 0, 165),
    (")", 161, 0, 165),
    (")", 161, 161, 165),
    ("(", 163, 163, 165),
    (":metric", 165, 165, 173),
    ("minimize", 173, 173, 191),
    ("(", 182, 182, 184),
    ("+", 186, 186, 186),
    ("f", 188, 0, 0),
    ("1", 188, 188, 0),
    (")", 194, 0, 196),
    (")", 194, 0, 196),
    (")", 194, 0, 196),
];

/// The tokens of the problem up to this one, and those after it.
type Cut = (usize, usize);

/// The tokens from one up to another, each with a blank after it.
fn tokens(rt: &(impl Abort + AllocGlobal), text: &mut Vec<u8>, rows: Cut) {
    for row in TOKENS.iter().take(rows.1).skip(rows.0) {
        text.extend_from_slice(row.0.as_bytes())
            .expect(rt, "memory");
        text.push(b' ').expect(rt, "memory");
    }
}

/// The text of these stretches of tokens.
fn stretches(rt: &(impl Abort + AllocGlobal), cuts: &[Cut]) -> Vec<u8> {
    let mut text = Vec::new(rt.alloc());
    for rows in cuts {
        tokens(rt, &mut text, *rows);
    }
    text
}

/// What comes of tokens whose first fault is in this column, if it isn't 0.
fn in_column(column: usize) -> Outcome {
    if column == 0 {
        return Outcome::Read;
    }
    Outcome::At(1, column)
}

/// Whether this comes of the stretches of tokens.
fn comes_of(rt: &(impl Abort + AllocGlobal), cuts: &[Cut], column: usize) -> bool {
    outcome_of(rt, Grammar::Problem, &stretches(rt, cuts)) == in_column(column)
}

#[test]
fn tokens_left_out_or_moved_are_found(rt: HostRuntime) {
    let count = TOKENS.len();
    assert!(&rt; comes_of(&rt, &[(0, count)], 0));
    for (i, (_, left_out, swapped, twice)) in TOKENS.iter().enumerate() {
        let (next, later) = (i.saturating_add(1), i.saturating_add(2));
        assert!(&rt; comes_of(&rt, &[(0, i), (next, count)], *left_out));
        assert!(&rt;
            comes_of(
                &rt,
                &[(0, i), (next, later), (i, next), (later, count)],
                *swapped
            )
        );
        assert!(&rt; comes_of(&rt, &[(0, next), (i, count)], *twice));
    }
}
