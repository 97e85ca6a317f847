//! The command `check`.
ghost use Rattle.std.specs.Prelude.{◌≡◌, ◌≢◌, ◌≤◌, ◌^◌, length, IfOk, IfErr};
ghost use Rattle.np_cert.specs.declared.certificate.Limit.TheVariants.{Absent};
ghost use Rattle.np_cert.specs.Text.{Spells};
ghost use Rattle.np_cert.specs.Valid.{IsValid};
ghost use Rattle.np_check.specs.Bounds.{Bounds};
ghost use Rattle.np_answers.specs.declared.answer.check.CheckAnswer.TheVariants as check_answer;
ghost use Rattle.np_answers.specs.declared.answer.Answer.TheVariants as answer;
ghost use Rattle.np_commands.specs.Checking.{IsNoCertificate, IsJudgedAlone, IsJudgedBeside};
ghost use Rattle.np_commands.specs.Steps.{IsFaultTold, IsCompared, IsPriced};

use np_answers::{Answer, CheckAnswer, Fault, File, Refusal};
use np_cert::{CertFault, Certificate, Limit, read_certificate};
use np_check::{PlanEnd, Verdict, check_certificate, check_plan};
use np_flat::Flat;
use np_model::Step;
use std::alloc::Global;

/// The certificate that bytes spell; where they spell none, or memory ran out, the answer that says so.
pub fn certificate_of(alloc: Global, bytes: &[u8]) -> Result<Certificate, Answer>
    ensures spelled { IfOk result (Spells bytes.now) }
    ensures refused { IfErr result (IsNoCertificate bytes.now) }
{
    match read_certificate(alloc, bytes) {
        Ok(certificate) => Ok(certificate),
        Err(CertFault::At(place)) => Err(Answer::Refused(Refusal::Syntax(
            File::Certificate,
            place,
        ))),
        Err(CertFault::Memory) => Err(Answer::OutOfMemory),
    }
}

/// The answer to a certificate for a flat task: yes where it is valid, else the first fault.
pub fn judge(alloc: Global, flat: &Flat, certificate: &Certificate) -> Answer
    ensures { IsJudgedAlone flat.now certificate.now result }
{
    match validated(alloc, flat, certificate) {
        Ok(()) => Answer::Checked(CheckAnswer::Yes(certificate.claim)),
        Err(answer) => answer,
    }
}

/// The answer to a certificate for a flat task and the steps of a plan: yes where the certificate is valid, and the steps are a plan
/// whose cost is the claim; else the first fault, of the certificate before the plan.
pub fn judge_with_plan(
    alloc: Global,
    flat: &Flat,
    certificate: &Certificate,
    steps: &[Step],
) -> Answer
    requires { length steps.now ≤ 2 ^ 24 }
    ensures { IsJudgedBeside flat.now certificate.now steps.now result }
{
    match validated(alloc, flat, certificate) {
        Ok(()) => compared(alloc, flat, certificate.claim, steps),
        Err(answer) => answer,
    }
}

/// That a certificate is valid, or else the answer that names its first fault.
fn validated(alloc: Global, flat: &Flat, certificate: &Certificate) -> Result<(), Answer>
    ensures valid { IfOk result (λ u. IsValid flat.now certificate.now) }
    ensures bounds { IfOk result (λ u. Bounds flat.now certificate.now.claim) }
    ensures fault { IfErr result (IsFaultTold flat.now certificate.now) }
{
    match check_certificate(alloc, flat, certificate) {
        Verdict::Holds => Ok(()),
        Verdict::BadProof(proof) => Err(no(Fault::ProofFails(proof))),
        Verdict::TwiceEntry(entry) => Err(no(Fault::Repeats(entry))),
        Verdict::BadEntry(entry) => Err(no(Fault::Unjustified(entry))),
        Verdict::BadClaim => Err(no(Fault::ClaimAbove)),
        Verdict::Memory => Err(Answer::OutOfMemory),
    }
}

/// The answer to the steps of a plan beside a valid certificate with this claim.
fn compared(alloc: Global, flat: &Flat, claim: Limit, steps: &[Step]) -> Answer
    requires few { length steps.now ≤ 2 ^ 24 }
    requires bounds { Bounds flat.now claim }
    ensures { IsCompared flat.now claim steps.now result }
{
    match check_plan(alloc, flat, steps) {
        Ok(PlanEnd::Goal(cost)) => priced(cost, claim),
        Ok(PlanEnd::NoGoal) => no(Fault::NoGoal),
        Ok(PlanEnd::Stuck(step)) => no(Fault::Stuck(step)),
        Err(_) => Answer::OutOfMemory,
    }
}

/// The answer to a plan of this cost beside a valid certificate with this claim. Where the claim is that there is no plan, there is
/// none.
fn priced(cost: u64, claim: Limit) -> Answer
    requires { claim ≢ Absent }
    ensures { IsPriced cost claim result }
{
    match claim {
        Limit::Number(claim) if u128::from(cost) == claim => {
            Answer::Checked(CheckAnswer::YesPlan(cost))
        }
        Limit::Number(claim) => no(Fault::OtherCost(cost, claim)),
        Limit::Absent => unreachable!(),
    }
}

/// The answer that names a fault.
fn no(fault: Fault) -> Answer
    ensures { result ≡ answer.Checked (check_answer.No fault) }
{
    Answer::Checked(CheckAnswer::No(fault))
}
