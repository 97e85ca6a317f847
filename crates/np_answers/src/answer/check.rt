//! What `check` answers.
ghost use Rattle.std.specs.Prelude.{◌≡◌, IfOk, string_bytes};
ghost use Rattle.np_answers.specs.Texts.{check_text, check_status, fault_text};
ghost use Rattle.np_answers.specs.declared.answer.check.Fault.TheVariants as fault;

use itoa::Buffer;
use np_cert::Limit;
use std::alloc::{AllocError, Global};

/// An answer of `check`.
#[derive(Clone, Copy)]
pub enum CheckAnswer {
    /// The certificate is valid: no plan costs less than its claim, or there is none.
    Yes(Limit),
    /// The certificate is valid, and the plan is one whose cost, which is this, is the claim. Costs aren't scaled.
    YesPlan(u64),
    /// The certificate, or else the plan, has this fault and none before it.
    No(Fault),
}

/// A fault of a certificate, or of a plan beside a valid one.
#[derive(Clone, Copy)]
pub enum Fault {
    /// The proof of this number fails.
    ProofFails(usize),
    /// The entry of this number has the state of an earlier one.
    Repeats(usize),
    /// The entry of this number isn't justified.
    Unjustified(usize),
    /// The claim is above what the entries say of the start.
    ClaimAbove,
    /// The plan's step of this number, counted from 1, isn't applicable after those before it.
    Stuck(u64),
    /// All steps of the plan run, and the goal doesn't hold at the end.
    NoGoal,
    /// The plan has this cost, and the claim is another one. Neither is scaled.
    OtherCost(u64, u128),
}

impl CheckAnswer {
    /// The text of the answer, with its line feed. Out of memory is the only error.
    pub fn text(&self, alloc: Global) -> Result<String, AllocError>
        ensures { IfOk result (λ text. string_bytes text ≡ check_text self.now) }
    {
        let mut buffer = Buffer::new();
        match *self {
            CheckAnswer::Yes(Limit::Number(claim)) => {
                format!(in alloc; "Yes: no plan costs less than {}\n", buffer.format(claim))
            }
            CheckAnswer::Yes(Limit::Absent) => String::from_str(alloc, "Yes: there is no plan\n"),
            CheckAnswer::YesPlan(cost) => {
                format!(in alloc;
                    "Yes: the plan costs {} and no plan costs less\n",
                    buffer.format(cost)
                )
            }
            CheckAnswer::No(fault) => fault.text(alloc),
        }
    }

    /// The status that the program ends with.
    pub fn status(&self) -> u8
        ensures { result ≡ check_status self.now }
    {
        match self {
            CheckAnswer::Yes(_) | CheckAnswer::YesPlan(_) => 0,
            CheckAnswer::No(_) => 6,
        }
    }
}

impl Fault {
    /// The text of the answer that names the fault, with its line feed. Out of memory is the only error.
    fn text(&self, alloc: Global) -> Result<String, AllocError>
        ensures { IfOk result (λ text. string_bytes text ≡ fault_text self.now) }
    {
        let mut buffer = Buffer::new();
        match *self {
            Fault::ProofFails(proof) => {
                format!(in alloc; "No: proof {} fails\n", buffer.format(proof))
            }
            Fault::Repeats(entry) => {
                format!(in alloc; "No: entry {} repeats a state\n", buffer.format(entry))
            }
            Fault::Unjustified(entry) => {
                format!(in alloc; "No: entry {} is not justified\n", buffer.format(entry))
            }
            Fault::ClaimAbove => {
                String::from_str(alloc, "No: the claim is above the start's bound\n")
            }
            Fault::Stuck(step) => {
                format!(in alloc; "No: step {} is not applicable\n", buffer.format(step))
            }
            Fault::NoGoal => String::from_str(alloc, "No: the goal does not hold at the end\n"),
            Fault::OtherCost(cost, claim) => other_cost_text(alloc, cost, claim),
        }
    }
}

/// The text for a plan whose cost isn't the claim.
fn other_cost_text(alloc: Global, cost: u64, claim: u128) -> Result<String, AllocError>
    ensures { IfOk result (λ text. string_bytes text ≡ fault_text (fault.OtherCost cost claim)) }
{
    let mut buffer = Buffer::new();
    let mut text = String::from_str(alloc, "No: the plan costs ")?;
    text.push_str(buffer.format(cost))?;
    text.push_str(" and the claim is ")?;
    text.push_str(buffer.format(claim))?;
    text.push_str("\n")?;
    Ok(text)
}
