//! Answers of `check`, worked by hand.
use crate::trial::{NONE_BELOW_THREE, RISE, SINK, STEPS, THREE, expect_check, shelf};
use std::process::Abort;

const ABOVE: &str = "No: the claim is above the start's bound\n";

const FIRST: &str = "No: entry 0 is not justified\n";

/// Certificates for the first example, with the answers and their statuses.
const ROWS: &[(&str, &str, u8)] = &[
    (NONE_BELOW_THREE, "Yes: no plan costs less than 3\n", 0),
    (
        ";bounds\n(Certificate 1(CLAIM 3)(proofs)\t(entries(entry(facts)(values 0)3 Expanded)\r\n(entry (facts)
(values 1) 2 expanded);\u{e9}\n(entry (facts) (values 2) 1 expanded)))",
        "Yes: no plan costs less than 3\n",
        0,
    ),
    (
        "(certificate 1 (claim 3) (proofs) (entries (entry (facts) (values 0) 3 expanded)
(entry (facts) (values 1) 2 expanded) (entry (facts) (values 2) 2 expanded)))",
        "No: entry 2 is not justified\n",
        6,
    ),
    (
        "(certificate 1 (claim 3) (proofs) (entries (entry (facts) (values 0) 3 expanded)
(entry (facts) (values 2) 1 expanded)))",
        FIRST,
        6,
    ),
    (
        "(certificate 1 (claim 4) (proofs) (entries (entry (facts) (values 0) 3 expanded)
(entry (facts) (values 1) 2 expanded) (entry (facts) (values 2) 1 expanded)))",
        ABOVE,
        6,
    ),
    (
        "(certificate 1 (claim 3) (proofs) (entries (entry (facts) (values 0) 3 expanded)
(entry (facts) (values 1) 2 expanded) (entry (facts) (values 2) 1 expanded)
(entry (facts) (values 0) 3 expanded)))",
        "No: entry 3 repeats a state\n",
        6,
    ),
    (
        "(certificate 1 (claim 0) (proofs) (entries))",
        "Yes: no plan costs less than 0\n",
        0,
    ),
    ("(certificate 1 (claim 1) (proofs) (entries))", ABOVE, 6),
    ("(certificate 1 (claim none) (proofs) (entries))", ABOVE, 6),
    (
        "(certificate 1 (claim 0) (proofs) (entries (entry (facts) (values 3) 1 expanded)))",
        FIRST,
        6,
    ),
    (
        "(certificate 1 (claim 0) (proofs) (entries (entry (facts) (values 0 0) 0 expanded)))",
        FIRST,
        6,
    ),
    (
        "(certificate 1 (claim 0) (proofs) (entries (entry (facts 0) (values 0) 0 expanded)))",
        FIRST,
        6,
    ),
    (
        "(certificate 1 (claim 0) (proofs) (entries
(entry (facts) (values 154742504910672534362390528) 0 expanded)))",
        FIRST,
        6,
    ),
    (
        "(certificate 1 (claim 0) (proofs) (entries
(entry (facts) (values -154742504910672534362390527) 0 expanded)))",
        "Yes: no plan costs less than 0\n",
        0,
    ),
    (
        "(certificate 1 (claim 0) (proofs) (entries
(entry (facts) (values 0) 4611686018427387904 expanded)))",
        FIRST,
        6,
    ),
    (
        "(certificate 1 (claim 4611686018427387904) (proofs) (entries))",
        ABOVE,
        6,
    ),
    ("(certificate 3", "Refused: certificate 1:14 syntax\n", 3),
    (
        "(certificate 1 (claim 01)",
        "Refused: certificate 1:23 syntax\n",
        3,
    ),
    (
        "(certificate 1 (claim 5)",
        "Refused: certificate 1:25 syntax\n",
        3,
    ),
    (
        "(certificate 1 (claim 0) (proofs) (entries)",
        "Refused: certificate 1:44 syntax\n",
        3,
    ),
    (
        "(certificate 1 (claim 0) (proofs) (entries)) .",
        "Refused: certificate 1:46 syntax\n",
        3,
    ),
    (
        "(certificate 1 (claim 0) (proofs) (entries)))",
        "Refused: certificate 1:45 syntax\n",
        3,
    ),
    (
        "(certificate 1 (claim 100000000000000000000000000000000000000) (proofs) (entries))",
        "Refused: certificate 1:23 syntax\n",
        3,
    ),
    (
        "(certificate 1 (claim 3) (proofs) (entries
(entry (facts) (values 0) 3 expanded)
(entry (facts) (values 1) 2 expanded)
(entry (facts) (values 2) 1 expanded))",
        "Refused: certificate 4:39 syntax\n",
        3,
    ),
    (
        "(certificate 1 (claim 0)
(proofs (proof 1 (1 cut))) (entries))",
        "Refused: certificate 2:24 syntax\n",
        3,
    ),
    ("", "Refused: certificate 1:1 syntax\n", 3),
    (
        "(certificate 1 (claim 0) (proofs (proof 1 (1 demand 0))) (entries))",
        "Yes: no plan costs less than 0\n",
        0,
    ),
    (
        "(certificate 1 (claim 0) (proofs) (entries (entry (facts) (values 0) 0 (table))))",
        "Yes: no plan costs less than 0\n",
        0,
    ),
    (
        "(certificate 1 (claim 0) (proofs) (entries (entry (facts) (values 0) 0 (proof 0))))",
        FIRST,
        6,
    ),
];

/// Checks a certificate for a pair.
fn expect_verdict(
    rt: &(impl Abort + AllocGlobal),
    domain: &str,
    problem: &str,
    certificate: &[u8],
    answer: &str,
    status: u8,
) {
    let mut shelf = shelf(rt, domain.as_bytes(), problem.as_bytes());
    shelf.set("cert", certificate).expect(rt, "memory");
    expect_check(rt, &mut shelf, answer, status);
}

#[test]
fn check_answers(rt: HostRuntime) {
    for (certificate, answer, status) in ROWS {
        expect_verdict(&rt, STEPS, THREE, certificate.as_bytes(), answer, *status);
    }
}

/// The values of an entry come in the order in which the tests first read the functions: b, and then a. The action's two
/// changes of a come to nothing, and its two tests of b are one.
const NUMBERED: &str = "(define (domain d) (:functions (a) (b)) (:action go :parameters ()
 :precondition (and (>= (b) 1) (>= (b) 01) (>= (a) -0))
 :effect (and (increase (a) 1) (decrease (a) 1) (increase (b) 1))))";

const TWO_MORE: &str = "(define (problem p) (:domain d) (:init (= (a) 5) (= (b) 1))
 (:goal (and (>= (b) 3) (>= (a) 0))))";

/// Certificates for other pairs.
const OTHERS: &[(&str, &str, &str, &str, u8)] = &[
    (
        NUMBERED,
        TWO_MORE,
        "(certificate 1 (claim 2) (proofs) (entries (entry (facts) (values 1 5) 2 expanded)
(entry (facts) (values 2 5) 1 expanded)))",
        "Yes: no plan costs less than 2\n",
        0,
    ),
    (
        NUMBERED,
        TWO_MORE,
        "(certificate 1 (claim 2) (proofs) (entries (entry (facts) (values 5 1) 2 expanded)
(entry (facts) (values 5 2) 1 expanded)))",
        FIRST,
        6,
    ),
    (
        SINK,
        RISE,
        "(certificate 1 (claim none) (proofs) (entries (entry (facts) (values 2) none expanded)
(entry (facts) (values 1) none expanded) (entry (facts) (values 0) none expanded)))",
        "Yes: there is no plan\n",
        0,
    ),
    (
        SINK,
        RISE,
        "(certificate 1 (claim none) (proofs) (entries (entry (facts) (values 2) none expanded)
(entry (facts) (values 1) none expanded)))",
        "No: entry 1 is not justified\n",
        6,
    ),
];

#[test]
fn check_answers_for_other_pairs(rt: HostRuntime) {
    for (domain, problem, certificate, answer, status) in OTHERS {
        expect_verdict(
            &rt,
            domain,
            problem,
            certificate.as_bytes(),
            answer,
            *status,
        );
    }
}

/// A comment of more bytes than a domain may have, and after it the certificate.
fn long_certificate(rt: &(impl Abort + AllocGlobal)) -> Vec<u8> {
    let mut text = vec![in rt.alloc(); b';'; 16_777_216].expect(rt, "memory");
    text.push(b'\n').expect(rt, "memory");
    text.extend_from_slice(NONE_BELOW_THREE.as_bytes())
        .expect(rt, "memory");
    text
}

#[test]
fn a_certificate_may_be_long(rt: HostRuntime) {
    let certificate = long_certificate(&rt);
    let yes = "Yes: no plan costs less than 3\n";
    expect_verdict(&rt, STEPS, THREE, certificate.as_slice(), yes, 0);
}
