//! Reading a text. What grammars of other texts share with that of domains is public.

mod actions;
mod declarations;
mod lists;
mod sections;

ghost use Rattle.std.specs.Prelude.{◌≡◌, false, IfOk, IsErrOf};
ghost use Rattle.np_lex.specs.Tokens.{items_of};
ghost use Rattle.np_syntax.specs.Domains.{IsDomain, domain_text, bare_domain, Spells, IsPlaced, IsRead};
ghost use Rattle.np_words.specs.Texts.{is_memory};
ghost use Rattle.np_words.specs.Wide.{IsSyntaxFault, IsWideFault};
ghost use Rattle.np_syntax.specs.declared.domain.Domain.{Domain};
ghost use Rattle.np_words.specs.declared.fault.ReadFault.{ReadFault};
ghost use Rattle.np_words.specs.declared.fault.ReadFault.TheVariants.{At, NumberWide};
ghost use Rattle.np_lex.specs.declared.token.Place.{Place};

use crate::domain::Domain;
pub use declarations::requirements;
pub use lists::typed_list;
pub use np_conditions::read::condition;
use np_lex::Lexer;
use np_read::ReadFault as Stop;
use np_words::ReadFault;
pub use np_words::read::{
    MOST_DIGITS, expr, fault_from, first_wide, name, names_to_right, number, requirement, settled,
};
use sections::whole_domain;
use std::alloc::Global;

/// Brackets nest at most so many levels deep.
pub const MOST_LEVELS: u32 = 256;

/// Reads a domain: the one that the bytes spell. Of one text one value is read, with the same places each time. `At` where they
/// spell none, at the first fault: a token, a bad byte or the end, up to which they begin the text of one. `NumberWide` where a
/// literal of more than 38 digits is before that, or in a text that has no other fault. `Memory` where memory ran out.
pub fn read_domain(alloc: Global, bytes: &[u8]) -> Result<Domain, ReadFault>
    ensures spelled { IfOk result (Spells bytes.now) }
    ensures placed { IfOk result (IsPlaced bytes.now) }
    ensures read { IfOk result (IsRead bytes.now) }
    ensures only { IfOk result (λ d. (other : Domain) → Spells bytes.now other → bare_domain other ≡ bare_domain d) }
    ensures fault { (place : Place) → IsErrOf result (At place) → IsSyntaxFault IsDomain domain_text (items_of bytes.now) place }
    ensures wide { (place : Place) → IsErrOf result (NumberWide place) → IsWideFault IsDomain domain_text (items_of bytes.now) place }
    ensures refused { (fault : ReadFault) → is_memory fault ≡ false → IsErrOf result fault → (d : Domain) → Spells bytes.now d → ⊥ }
{
    let mut lexer = Lexer::new(bytes);
    match whole_domain(alloc, &mut lexer) {
        Ok(domain) => settled(bytes, domain),
        Err(Stop::Next) => Err(fault_from(bytes, lexer.place())),
        Err(Stop::Memory) => Err(ReadFault::Memory),
    }
}
