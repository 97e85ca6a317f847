//! Reading a certificate.

ghost use Rattle.std.specs.Prelude.{◌≡◌, IfOk, IsErrOf};
ghost use Rattle.np_lex.specs.Lexers.{items_left};
ghost use Rattle.np_lex.specs.Tokens.{items_of, first_place};
ghost use Rattle.np_lex.specs.declared.token.Place.{Place};
ghost use Rattle.np_read.specs.Faults.{IsFirstFault};
ghost use Rattle.np_read.specs.ItemAnswers.{Gives};
ghost use Rattle.np_read.specs.ItemReaders as steps;
ghost use Rattle.np_cert.specs.ReadingAnswers.{Answers};
ghost use Rattle.np_cert.specs.ReadingForm as form;
ghost use Rattle.np_cert.specs.Text as printed;
ghost use Rattle.np_cert.specs.Text.{IsWritten, Spells};
ghost use Rattle.np_cert.specs.declared.certificate.Certificate.{Certificate};

mod fault;
mod parts;
mod proofs;
mod reasons;
mod words;

use crate::certificate::Certificate;
pub use fault::CertFault;
use np_lex::Lexer;
use np_read::{ReadFault, ends, numeral, open, right};
use parts::{claim, entries};
use proofs::proofs;
use std::alloc::Global;

/// Reads `(certificate 1 (claim limit) (proofs proof ..) (entries entry ..))`.
#[tactic(auto, unfolding(crate::specs::ReadingForm::certificate))]
fn certificate(alloc: Global, lexer: &mut Lexer<'_>) -> Result<Certificate, ReadFault>
    ensures { Gives (λ x. x) (items_left lexer.new) result (form.certificate (items_left lexer.old)) }
{
    open(lexer, b"certificate")?;
    numeral(lexer, b"1")?;
    let claim = claim(lexer)?;
    let proofs = proofs(alloc, lexer)?;
    let entries = entries(alloc, lexer)?;
    right(lexer)?;
    Ok(Certificate {
        claim,
        proofs,
        entries,
    })
}

/// Reads a certificate, and nothing after it.
#[tactic(auto, using(crate::proofs::ReadingTexts::ended_is, crate::proofs::ReadingTexts::followed_is, crate::proofs::ReadingTexts::stopped_is))]
fn whole_certificate(alloc: Global, bytes: &[u8]) -> Result<Certificate, CertFault>
    ensures { Answers result (steps.whole form.certificate (items_of bytes.now)) }
{
    let mut lexer = Lexer::new(bytes);
    match certificate(alloc, &mut lexer) {
        Ok(certificate) if ends(&lexer) => Ok(certificate),
        Err(ReadFault::Memory) => Err(CertFault::Memory),
        _ => Err(CertFault::At(lexer.place())),
    }
}

/// The certificate that the text spells. `At` exactly where it spells none, with the place of the first fault: of the first
/// token, bad byte or end with which no certificate's text begins. `Memory` where memory runs out.
pub fn read_certificate(alloc: Global, bytes: &[u8]) -> Result<Certificate, CertFault>
    ensures spelled { IfOk result (λ certificate. Spells bytes.now certificate) }
    ensures only { IfOk result (λ certificate. (other : Certificate) → Spells bytes.now other → other ≡ certificate) }
    ensures refused { (place : Place) → IsErrOf result (CertFault.At place) → (certificate : Certificate) → Spells bytes.now certificate → ⊥ }
    ensures fault { (place : Place) → IsErrOf result (CertFault.At place) → IsFirstFault IsWritten printed.certificate (items_of bytes.now) place }
{
    whole_certificate(alloc, bytes)
}
