//! The text of a plan.

ghost use Rattle.std.specs.Prelude.{◌≡◌, [], Ok, IfOk, IfErr};
ghost use Rattle.np_lex.specs.Tokens.{items_of};
ghost use Rattle.np_plan.specs.Faults.{StopsAt, IsTextFault};
ghost use Rattle.np_plan.specs.PlanForm as form;
ghost use Rattle.np_plan.specs.PlanText.{bare_plan, SpellsText, IsPlaced};
ghost use Rattle.np_plan.specs.declared.plan.PlanText.{PlanText};

use super::lines::whole_plan;
use crate::plan::PlanText;
use np_lex::{Lexer, Place};
use np_read::ReadFault as Stop;
use np_words::ReadFault;
use np_words::read::first_wide;
use std::alloc::Global;

/// The text that was read, unless a stamp has too many digits.
fn settled(bytes: &[u8], text: PlanText) -> Result<PlanText, ReadFault>
    requires { form.plan (items_of bytes.now) ≡ Ok (text, []) }
    ensures spelled { IfOk result (SpellsText bytes.now) }
    ensures placed { IfOk result (IsPlaced bytes.now) }
    ensures only { IfOk result (λ p. (other : PlanText) → SpellsText bytes.now other → bare_plan other ≡ bare_plan p) }
    ensures fault { IfErr result (IsTextFault bytes.now) }
{
    match first_wide(bytes) {
        Some(place) => Err(ReadFault::NumberWide(place)),
        None => Ok(text),
    }
}

/// The fault, where reading stopped at this place.
fn fault_at(bytes: &[u8], stop: Place) -> ReadFault
    requires { StopsAt bytes.now stop }
    ensures { IsTextFault bytes.now result }
{
    let Some(place) = first_wide(bytes) else {
        return ReadFault::At(stop);
    };
    if place.offset < stop.offset {
        return ReadFault::NumberWide(place);
    }
    ReadFault::At(stop)
}

/// The value that the bytes spell.
pub fn read_text(alloc: Global, bytes: &[u8]) -> Result<PlanText, ReadFault>
    ensures spelled { IfOk result (SpellsText bytes.now) }
    ensures placed { IfOk result (IsPlaced bytes.now) }
    ensures only { IfOk result (λ p. (other : PlanText) → SpellsText bytes.now other → bare_plan other ≡ bare_plan p) }
    ensures fault { IfErr result (IsTextFault bytes.now) }
{
    let mut lexer = Lexer::new(bytes);
    match whole_plan(alloc, &mut lexer) {
        Ok(text) => settled(bytes, text),
        Err(Stop::Next) => Err(fault_at(bytes, lexer.place())),
        Err(Stop::Memory) => Err(ReadFault::Memory),
    }
}
