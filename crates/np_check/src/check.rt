//! The check of a certificate: the proofs in their order, then the entries in theirs, then the claim.
ghost use Rattle.std.specs.Prelude.{◌≡◌, ◌+◌, ◌<◌, ◌↔◌, ◌⊎◌, length, All, IsTrue, IfOk, MatchOption, None, Some, slice_get};
ghost use Rattle.np_cert.specs.declared.certificate.Limit.TheVariants.{Number};
ghost use Rattle.np_cert.specs.Valid.{at_most, bound_at, is_small, is_met_by, is_proved, IsFitting, IsExpanded, IsJustified, Supports, IsValidProof};
ghost use Rattle.np_check.specs.Verdicts.{AreGood, IsBadProof, IsVerdict};
ghost use Rattle.np_check.specs.Bounds.{Bounds};
ghost use Rattle.np_check.specs.Steps.{IsBounded};
ghost use Rattle.np_check.specs.declared.verdict.Verdict.TheVariants.{Holds};

use crate::bounds::{is_within, limit_of};
use crate::first::FirstEntries;
use crate::fitting::is_fitting;
use crate::scratch::Scratch;
use crate::verdict::Verdict;
use crate::watched::{Watched, row_at};
use np_cert::{Certificate, Entry, Limit, Why};
use np_count::{Proof, proof_ok, proof_value};
use np_flat::Flat;
use std::alloc::{AllocError, Global};

/// Checks a certificate: whether it is valid for the task, and then its claim bounds every plan, or its first fault. `Memory`
/// comes where memory runs out, and says nothing of the certificate.
pub fn check_certificate(alloc: Global, flat: &Flat, certificate: &Certificate) -> Verdict
    ensures verdict { IsVerdict flat.now certificate.now result }
    ensures bounds { (result ≡ Holds) → Bounds flat.now certificate.now.claim }
{
    // Its parts are those of a flat task, of which a valid claim is true.
    let _ = flat.parts();
    match verdict_of(alloc, flat, certificate) {
        Ok(verdict) => verdict,
        Err(_) => Verdict::Memory,
    }
}

/// The verdict on a certificate. Out of memory is an error.
fn verdict_of(alloc: Global, flat: &Flat, certificate: &Certificate) -> Result<Verdict, AllocError>
    ensures { IfOk result (IsVerdict flat.now certificate.now) }
{
    if let Some(number) = first_bad_proof(flat, certificate.proofs.as_slice()) {
        return Ok(Verdict::BadProof(number));
    }
    verdict_of_entries(alloc, flat, certificate)
}

/// The verdict on a certificate whose proofs are valid. Out of memory is an error.
fn verdict_of_entries(
    alloc: Global,
    flat: &Flat,
    certificate: &Certificate,
) -> Result<Verdict, AllocError>
    requires { All (IsValidProof flat.now) certificate.now.proofs }
    ensures { IfOk result (IsVerdict flat.now certificate.now) }
{
    let first = FirstEntries::new(alloc, certificate.entries.as_slice())?;
    if let Some(fault) = first_fault(alloc, flat, certificate, &first)? {
        return Ok(fault);
    }
    if is_claimed(flat, &first, certificate.claim) {
        Ok(Verdict::Holds)
    } else {
        Ok(Verdict::BadClaim)
    }
}

/// The number of the first proof that isn't valid.
fn first_bad_proof(flat: &Flat, proofs: &[Proof]) -> Option<usize>
    ensures { MatchOption result (All (IsValidProof flat.now) proofs.now) (IsBadProof flat.now proofs.now) }
{
    for number in 0..proofs.len() {
        if !proof_ok(flat, &proofs[number]) {
            return Some(number);
        }
    }
    None
}

/// The first fault of the entries.
fn first_fault(
    alloc: Global,
    flat: &Flat,
    certificate: &Certificate,
    first: &FirstEntries<'_>,
) -> Result<Option<Verdict>, AllocError>
    requires proofs { All (IsValidProof flat.now) certificate.now.proofs }
    requires entries { first.now ≡ certificate.now.entries }
    ensures { IfOk result (λ fault. MatchOption fault (AreGood flat.now certificate.now (length certificate.now.entries)) (IsVerdict flat.now certificate.now)) }
{
    let mut scratch = Scratch::new(alloc, flat.parts().steps.len())?;
    let watched = Watched::new(alloc, flat)?;
    for number in 0..certificate.entries.len() {
        let fault = fault_at(alloc, &watched, certificate, first, number, &mut scratch)?;
        if fault.is_some() {
            return Ok(fault);
        }
    }
    Ok(None)
}

/// The fault of the entry of this number, where those before it are good.
fn fault_at(
    alloc: Global,
    flat: &Watched<'_>,
    certificate: &Certificate,
    first: &FirstEntries<'_>,
    number: usize,
    scratch: &mut Scratch,
) -> Result<Option<Verdict>, AllocError>
    requires entries { first.now ≡ certificate.now.entries }
    requires within { number < length certificate.now.entries }
    requires before { AreGood flat.now certificate.now number }
    ensures { IfOk result (λ fault. MatchOption fault (AreGood flat.now certificate.now (number + 1)) (IsVerdict flat.now certificate.now)) }
{
    let entry = &certificate.entries.as_slice()[number];
    if first.number_of(number, &entry.state) != Some(number) {
        return Ok(Some(Verdict::TwiceEntry(number)));
    }
    if !is_justified(alloc, flat, certificate, first, entry, scratch)? {
        return Ok(Some(Verdict::BadEntry(number)));
    }
    Ok(None)
}

/// Whether an entry is justified.
fn is_justified(
    alloc: Global,
    flat: &Watched<'_>,
    certificate: &Certificate,
    first: &FirstEntries<'_>,
    entry: &Entry,
    scratch: &mut Scratch,
) -> Result<bool, AllocError>
    requires entries { first.now ≡ certificate.now.entries }
    requires proofs { All (IsValidProof flat.now) certificate.now.proofs }
    ensures { IfOk result (λ good. IsTrue good ↔ IsJustified flat.now certificate.now.proofs certificate.now.entries entry.now) }
{
    if !is_fitting(flat.task().parts(), entry) {
        return Ok(false);
    }
    match &entry.why {
        Why::Expanded => is_by_expansion(alloc, flat, first, entry, scratch),
        Why::Proof(number) => Ok(is_proved(flat.task(), certificate, entry, *number)),
        Why::Table(listed) => scratch
            .tables
            .is_tabled(flat.task(), entry, listed.as_slice()),
    }
}

/// Whether the proof of this number bounds an entry that fits.
fn is_proved(flat: &Flat, certificate: &Certificate, entry: &Entry, number: u128) -> bool
    requires proofs { All (IsValidProof flat.now) certificate.now.proofs }
    requires fitting { IsFitting flat.now entry.now }
    ensures { result ≡ is_proved flat.now certificate.now.proofs entry.now number }
{
    match proof_at(certificate.proofs.as_slice(), number) {
        Some(proof) => is_met_by(flat, entry, proof),
        None => false,
    }
}

/// The proof of this number, where there is one.
fn proof_at(proofs: &[Proof], number: u128) -> Option<&Proof>
    ensures { MatchOption result (slice_get proofs.now number ≡ None) (λ proof. slice_get proofs.now number ≡ Some proof.now) }
{
    if number < proofs.len() as u128 {
        proofs.get(number as usize)
    } else {
        None
    }
}

/// Whether a valid proof has a bound at the state of an entry that fits, and the bound of the entry is at most that.
fn is_met_by(flat: &Flat, entry: &Entry, proof: &Proof) -> bool
    requires proof { IsValidProof flat.now proof.now }
    requires fitting { IsFitting flat.now entry.now }
    ensures { result ≡ is_met_by flat.now entry.now proof.now }
{
    match proof_value(flat, proof, &entry.state) {
        Some(bound) => entry.bound.at_most(limit_of(bound)),
        None => false,
    }
}

/// Whether the bound of an entry that fits is 0, or the entry is expanded.
fn is_by_expansion(
    alloc: Global,
    flat: &Watched<'_>,
    first: &FirstEntries<'_>,
    entry: &Entry,
    scratch: &mut Scratch,
) -> Result<bool, AllocError>
    requires fitting { IsFitting flat.now entry.now }
    ensures { IfOk result (λ good. IsTrue good ↔ ((entry.now.bound ≡ Number 0) ⊎ IsExpanded flat.now first.now entry.now)) }
{
    if entry.bound == Limit::Number(0) {
        return Ok(true);
    }
    is_expanded(alloc, flat, first, entry, scratch)
}

/// Whether the state of an entry that fits isn't a goal, and each step bounds its bound. Only steps that can be applicable
/// are looked at.
fn is_expanded(
    alloc: Global,
    flat: &Watched<'_>,
    first: &FirstEntries<'_>,
    entry: &Entry,
    scratch: &mut Scratch,
) -> Result<bool, AllocError>
    requires fitting { IsFitting flat.now entry.now }
    ensures { IfOk result (λ good. IsTrue good ↔ IsExpanded flat.now first.now entry.now) }
{
    let task = flat.task();
    if task.is_goal(&entry.state) {
        return Ok(false);
    }
    let table = flat.rows();
    let needing_none = row_at(table, task.parts().facts.len());
    if !are_bounded(alloc, task, first, entry, needing_none, scratch)? {
        return Ok(false);
    }
    for fact in entry.state.facts.as_slice() {
        let needing = row_at(table, *fact as usize);
        if !are_bounded(alloc, task, first, entry, needing, scratch)? {
            return Ok(false);
        }
    }
    Ok(true)
}

/// Whether each of these steps bounds the bound of an entry that fits.
fn are_bounded(
    alloc: Global,
    flat: &Flat,
    first: &FirstEntries<'_>,
    entry: &Entry,
    steps: &[u32],
    scratch: &mut Scratch,
) -> Result<bool, AllocError>
    requires fitting { IsFitting flat.now entry.now }
    ensures { IfOk result (λ good. IsTrue good ↔ All (IsBounded flat.now first.now entry.now) steps.now) }
{
    for step in steps {
        if !is_bounded(alloc, flat, first, entry, *step as usize, scratch)? {
            return Ok(false);
        }
    }
    Ok(true)
}

/// Whether the bound of an entry that fits is at most what the step of this number costs with the bound of the state
/// after it, or the step isn't applicable. A number that is
/// no step's bounds nothing.
fn is_bounded(
    alloc: Global,
    flat: &Flat,
    first: &FirstEntries<'_>,
    entry: &Entry,
    step: usize,
    scratch: &mut Scratch,
) -> Result<bool, AllocError>
    requires fitting { IsFitting flat.now entry.now }
    ensures { IfOk result (λ good. IsTrue good ↔ IsBounded flat.now first.now entry.now step) }
{
    let steps = flat.parts().steps.as_slice();
    if step >= steps.len() {
        return Ok(true);
    }
    let number = step as u32;
    if !flat.applicable(number, &entry.state) {
        return Ok(true);
    }
    flat.after_in(alloc, number, &entry.state, &mut scratch.after)?;
    let mut guess = scratch.guess(step);
    let rest = first.bound_near(&mut guess, &scratch.after);
    scratch.note(step, guess);
    Ok(is_within(entry.bound, steps[step].cost, rest))
}

/// Whether the claim is small, and at most the bound of the start.
fn is_claimed(flat: &Flat, first: &FirstEntries<'_>, claim: Limit) -> bool
    ensures { IsTrue result ↔ (IsTrue (is_small claim) × IsTrue (at_most claim (bound_at first.now flat.now.start))) }
{
    claim.is_small() && claim.at_most(first.bound(&flat.parts().start))
}
