//! `:init`.
ghost use Rattle.std.specs.Prelude.{◌≡◌, ◌++◌, ◌∷◌, [], List, map, false, if◌then◌else◌};
ghost use Rattle.std.specs.List.{list_any};
ghost use Rattle.np_model.specs.Ground.{same_term};
ghost use Rattle.np_problem.specs.declared.problem.Fact.{Fact};
ghost use Rattle.np_names.specs.Answers.{Answers};
ghost use Rattle.np_typing.specs.Facts.{with_atom, atom_of, term_of, fact_faults};
ghost use Rattle.np_typing.specs.LookUps.{HasFacts};
ghost use Rattle.np_names.specs.Names.{each_after};
ghost use Rattle.np_words.specs.Numbers.{fraction_of};
ghost use Rattle.np_typing.specs.Uses.{fault_at, predicate_faults, function_faults};

use crate::numbers::fraction_of;
use crate::scope::Scope;
use crate::uses::calls::{ground_function, ground_predicate};
use indexmap::{IndexMap, IndexSet};
use np_declared::{TypeFault, TypeWhy};
use np_frac::Frac;
use np_model::{Atom, Term};
use np_problem::Fact;
use np_syntax::{Decimal, Ident, Word};
use std::alloc::Global;

/// What is true at the start, and what has which value.
#[derive(Drop)]
pub struct Facts {
    /// The atoms, each once.
    pub atoms: IndexSet<Atom>,
    /// The values.
    pub values: IndexMap<Term, Frac>,
}

/// Puts an atom, unless it is there.
fn put_atom(
    alloc: Global,
    scope: &Scope<'_>,
    word: &Word,
    words: &[Word],
    atoms: &mut IndexSet<Atom>,
) -> Result<(), TypeFault>
    ensures { Answers (predicate_faults scope.now word.now (map Ident.Name words.now)) (λ _. atoms.new.keys ≡ with_atom scope.now atoms.old.keys (atom_of scope.now word.now words.now)) result }
{
    let call = ground_predicate(alloc, scope, word, words)?;
    let atom = Atom {
        predicate: call.symbol,
        objects: call.objects,
    };
    atoms.insert(atom)?;
    Ok(())
}

/// Types an atom under `not`, which says nothing.
fn negated(alloc: Global, scope: &Scope<'_>, word: &Word, words: &[Word]) -> Result<(), TypeFault>
    ensures { Answers (predicate_faults scope.now word.now (map Ident.Name words.now)) (λ _. Unit {0}) result }
{
    ground_predicate(alloc, scope, word, words)?;
    Ok(())
}

/// Puts a value of a term that has none.
fn put_value(
    alloc: Global,
    scope: &Scope<'_>,
    word: &Word,
    words: &[Word],
    number: &Decimal,
    values: &mut IndexMap<Term, Frac>,
) -> Result<(), TypeFault>
    ensures { let term = term_of scope.now word.now words.now in
        Answers (function_faults scope.now false word.now (map Ident.Name words.now)
        ++ (if list_any (λ v. same_term term v.0) values.old.entries then fault_at scope.now TypeWhy.ValueTwice word.now.place else []))
        (λ _. values.new.entries ≡ values.old.entries ++ (term, fraction_of number.now) ∷ []) result }
{
    let call = ground_function(alloc, scope, word, words)?;
    let term = Term {
        function: call.symbol,
        objects: call.objects,
    };
    let value = fraction_of(number)?;
    match values.insert(term, value)? {
        Some(_) => Err(scope.fault(word.place, TypeWhy::ValueTwice)),
        None => Ok(()),
    }
}

/// Puts what a fact says.
fn put(alloc: Global, scope: &Scope<'_>, fact: &Fact, facts: &mut Facts) -> Result<(), TypeFault>
    ensures { (before : List Fact) → HasFacts scope.now before facts.old
        → Answers (fact_faults scope.now before fact.now) (λ _. HasFacts scope.now (before ++ fact.now ∷ []) facts.new) result }
{
    match fact {
        Fact::Atom(word, words) => {
            put_atom(alloc, scope, word, words.as_slice(), &mut facts.atoms)
        }
        Fact::NotAtom(word, words) => negated(alloc, scope, word, words.as_slice()),
        Fact::Value(word, words, _, number) => put_value(
            alloc,
            scope,
            word,
            words.as_slice(),
            number,
            &mut facts.values,
        ),
    }
}

/// Puts what facts say.
pub fn put_all(
    alloc: Global,
    scope: &Scope<'_>,
    facts: &[Fact],
    all: &mut Facts,
) -> Result<(), TypeFault>
    ensures { (before : List Fact) → HasFacts scope.now before all.old
        → Answers (each_after (fact_faults scope.now) before facts.now) (λ _. HasFacts scope.now (before ++ facts.now) all.new) result }
{
    for fact in facts {
        put(alloc, scope, fact, all)?;
    }
    Ok(())
}
