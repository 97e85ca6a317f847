//! The counting proofs of a certificate.

ghost use Rattle.np_lex.specs.Lexers.{items_left};
ghost use Rattle.np_read.specs.ItemAnswers.{Gives};
ghost use Rattle.np_read.specs.ItemReaders as steps;
ghost use Rattle.np_cert.specs.ReadingForm as form;

use super::words::{integer, number};
use np_count::{Proof, Row};
use np_lex::Lexer;
use np_read::{ReadFault, left, name, open, right};
use sqlite_items::Items;
use std::alloc::Global;

/// Reads a number and a closing bracket.
#[tactic(auto, unfolding(crate::specs::ReadingForm::last_number))]
fn last_number(lexer: &mut Lexer<'_>) -> Result<u64, ReadFault>
    ensures { Gives (λ x. x) (items_left lexer.new) result (form.last_number (items_left lexer.old)) }
{
    let number = number(lexer)?;
    right(lexer)?;
    Ok(number)
}

/// Reads what follows the word `demand`.
#[tactic(auto, unfolding(crate::specs::ReadingForm::demand))]
fn demand(lexer: &mut Lexer<'_>) -> Result<Row, ReadFault>
    ensures { Gives (λ x. x) (items_left lexer.new) result (form.demand (items_left lexer.old)) }
{
    let form = last_number(lexer)?;
    Ok(Row::Demand(form))
}

/// Reads what follows the word `flow`.
#[tactic(auto, unfolding(crate::specs::ReadingForm::flow))]
fn flow(lexer: &mut Lexer<'_>) -> Result<Row, ReadFault>
    ensures { Gives (λ x. x) (items_left lexer.new) result (form.flow (items_left lexer.old)) }
{
    let fact = last_number(lexer)?;
    Ok(Row::Flow(fact))
}

/// Reads what follows the word `flow-not`.
#[tactic(auto, unfolding(crate::specs::ReadingForm::flow_not))]
fn flow_not(lexer: &mut Lexer<'_>) -> Result<Row, ReadFault>
    ensures { Gives (λ x. x) (items_left lexer.new) result (form.flow_not (items_left lexer.old)) }
{
    let fact = last_number(lexer)?;
    Ok(Row::FlowNot(fact))
}

/// Reads what follows the word `floor`.
#[tactic(auto, unfolding(crate::specs::ReadingForm::floor))]
fn floor(lexer: &mut Lexer<'_>) -> Result<Row, ReadFault>
    ensures { Gives (λ x. x) (items_left lexer.new) result (form.floor (items_left lexer.old)) }
{
    let form = number(lexer)?;
    let least = integer(lexer)?;
    right(lexer)?;
    Ok(Row::Floor(form, least))
}

/// Reads one number at least, up to a closing bracket.
fn numbers_to_right(alloc: Global, lexer: &mut Lexer<'_>) -> Result<Items<u64>, ReadFault>
    ensures { Gives (λ x. x) (items_left lexer.new) result (steps.further form.number (steps.row form.number) (items_left lexer.old)) }
{
    let mut found = Items::new(alloc);
    let first = number(lexer)?;
    found.push(first)?;
    'row: while !lexer.take_right() {
        let value = number(lexer)?;
        found.push(value)?;
    }
    Ok(found)
}

/// Reads what follows the word `cut`.
#[tactic(auto, unfolding(crate::specs::ReadingForm::cut))]
fn cut(alloc: Global, lexer: &mut Lexer<'_>) -> Result<Row, ReadFault>
    ensures { Gives (λ x. x) (items_left lexer.new) result (form.cut (items_left lexer.old)) }
{
    let subgoals = numbers_to_right(alloc, lexer)?;
    Ok(Row::Cut(subgoals))
}

/// Reads a cut.
#[tactic(auto, unfolding(crate::specs::ReadingForm::from_cut))]
fn from_cut(alloc: Global, lexer: &mut Lexer<'_>) -> Result<Row, ReadFault>
    ensures { Gives (λ x. x) (items_left lexer.new) result (form.from_cut (items_left lexer.old)) }
{
    name(lexer, b"cut")?;
    cut(alloc, lexer)
}

/// Reads a floor or a cut.
fn from_floor(alloc: Global, lexer: &mut Lexer<'_>) -> Result<Row, ReadFault>
    ensures { Gives (λ x. x) (items_left lexer.new) result (form.from_floor (items_left lexer.old)) }
{
    if lexer.take_name(b"floor") {
        return floor(lexer);
    }
    from_cut(alloc, lexer)
}

/// Reads the flow of a negation, a floor or a cut.
fn from_flow_not(alloc: Global, lexer: &mut Lexer<'_>) -> Result<Row, ReadFault>
    ensures { Gives (λ x. x) (items_left lexer.new) result (form.from_flow_not (items_left lexer.old)) }
{
    if lexer.take_name(b"flow-not") {
        return flow_not(lexer);
    }
    from_floor(alloc, lexer)
}

/// Reads a row that isn't a demand.
fn from_flow(alloc: Global, lexer: &mut Lexer<'_>) -> Result<Row, ReadFault>
    ensures { Gives (λ x. x) (items_left lexer.new) result (form.from_flow (items_left lexer.old)) }
{
    if lexer.take_name(b"flow") {
        return flow(lexer);
    }
    from_flow_not(alloc, lexer)
}

/// Reads a row: its kind, its numbers, and a closing bracket.
fn row(alloc: Global, lexer: &mut Lexer<'_>) -> Result<Row, ReadFault>
    ensures { Gives (λ x. x) (items_left lexer.new) result (form.row (items_left lexer.old)) }
{
    if lexer.take_name(b"demand") {
        return demand(lexer);
    }
    from_flow(alloc, lexer)
}

/// Reads `(weight row)`.
#[tactic(auto, unfolding(crate::specs::ReadingForm::item))]
fn item(alloc: Global, lexer: &mut Lexer<'_>) -> Result<(u64, Row), ReadFault>
    ensures { Gives (λ x. x) (items_left lexer.new) result (form.item (items_left lexer.old)) }
{
    left(lexer)?;
    let weight = number(lexer)?;
    let row = row(alloc, lexer)?;
    Ok((weight, row))
}

/// Reads weighted rows up to a closing bracket.
fn items_to_right(alloc: Global, lexer: &mut Lexer<'_>) -> Result<Items<(u64, Row)>, ReadFault>
    ensures { Gives (λ x. x) (items_left lexer.new) result (steps.row form.item (items_left lexer.old)) }
{
    let mut found = Items::new(alloc);
    'row: while !lexer.take_right() {
        let value = item(alloc, lexer)?;
        found.push(value)?;
    }
    Ok(found)
}

/// Reads `(proof divisor item ..)`.
#[tactic(auto, unfolding(crate::specs::ReadingForm::proof))]
fn proof(alloc: Global, lexer: &mut Lexer<'_>) -> Result<Proof, ReadFault>
    ensures { Gives (λ x. x) (items_left lexer.new) result (form.proof (items_left lexer.old)) }
{
    open(lexer, b"proof")?;
    let divisor = number(lexer)?;
    let items = items_to_right(alloc, lexer)?;
    Ok(Proof { divisor, items })
}

/// Reads proofs up to a closing bracket.
fn proofs_to_right(alloc: Global, lexer: &mut Lexer<'_>) -> Result<Items<Proof>, ReadFault>
    ensures { Gives (λ x. x) (items_left lexer.new) result (steps.row form.proof (items_left lexer.old)) }
{
    let mut found = Items::new(alloc);
    'row: while !lexer.take_right() {
        let value = proof(alloc, lexer)?;
        found.push(value)?;
    }
    Ok(found)
}

/// Reads `(proofs proof ..)`.
#[tactic(auto, unfolding(crate::specs::ReadingForm::proofs))]
pub fn proofs(alloc: Global, lexer: &mut Lexer<'_>) -> Result<Items<Proof>, ReadFault>
    ensures { Gives (λ x. x) (items_left lexer.new) result (form.proofs (items_left lexer.old)) }
{
    open(lexer, b"proofs")?;
    proofs_to_right(alloc, lexer)
}
