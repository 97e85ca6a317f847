//! Reading a text.

mod facts;
mod sections;

ghost use Rattle.std.specs.Prelude.{◌≡◌, false, IfOk, IsErrOf};
ghost use Rattle.np_lex.specs.Tokens.{items_of};
ghost use Rattle.np_lex.specs.declared.token.Place.{Place};
ghost use Rattle.np_problem.specs.ProblemText.{IsProblem, bare_problem};
ghost use Rattle.np_problem.specs.Problems.{problem_text, Spells, IsPlaced, IsRead};
ghost use Rattle.np_problem.specs.declared.problem.Problem.{Problem};
ghost use Rattle.np_words.specs.Texts.{is_memory};
ghost use Rattle.np_words.specs.Wide.{IsSyntaxFault, IsWideFault};
ghost use Rattle.np_words.specs.declared.fault.ReadFault.{ReadFault};
ghost use Rattle.np_words.specs.declared.fault.ReadFault.TheVariants.{At, NumberWide};

use crate::problem::Problem;
use np_lex::Lexer;
use np_read::ReadFault as Stop;
use np_syntax::ReadFault;
use np_syntax::read::{fault_from, settled};
use sections::whole_problem;
use std::alloc::Global;

/// Reads a problem: the one that the bytes spell. Of one text one value is read, with the same places each time. `At` where they
/// spell none, at the first fault: a token, a bad byte or the end, up to which they begin the text of one. `NumberWide` where a
/// literal of more than 38 digits is before that, or in a text that has no other fault. `Memory` where memory ran out.
pub fn read_problem(alloc: Global, bytes: &[u8]) -> Result<Problem, ReadFault>
    ensures spelled { IfOk result (Spells bytes.now) }
    ensures placed { IfOk result (IsPlaced bytes.now) }
    ensures read { IfOk result (IsRead bytes.now) }
    ensures only { IfOk result (λ p. (other : Problem) → Spells bytes.now other → bare_problem other ≡ bare_problem p) }
    ensures fault { (place : Place) → IsErrOf result (At place) → IsSyntaxFault IsProblem problem_text (items_of bytes.now) place }
    ensures wide { (place : Place) → IsErrOf result (NumberWide place) → IsWideFault IsProblem problem_text (items_of bytes.now) place }
    ensures refused { (fault : ReadFault) → is_memory fault ≡ false → IsErrOf result fault → (p : Problem) → Spells bytes.now p → ⊥ }
{
    let mut lexer = Lexer::new(bytes);
    match whole_problem(alloc, &mut lexer) {
        Ok(problem) => settled(bytes, problem),
        Err(Stop::Next) => Err(fault_from(bytes, lexer.place())),
        Err(Stop::Memory) => Err(ReadFault::Memory),
    }
}
