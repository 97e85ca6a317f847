//! Domains.

use np_conditions::{Condition, Effect};
use np_lex::Place;
use np_words::{Group, Word};
use sqlite_items::Items;

/// A domain: `(define (domain name) section ..)`.
#[derive(Debug, Drop)]
pub struct Domain {
    /// Its name.
    pub name: Word,
    /// Its sections, in the order of the text.
    pub sections: Items<DomainSection>,
}

/// A section of a domain, with the place of its keyword.
#[derive(Debug, Drop)]
pub enum DomainSection {
    /// `(:requirements :keyword ..)`
    Requirements(Place, Items<Word>),
    /// `(:types name .. - name ..)`
    Types(Place, Items<Group>),
    /// `(:constants name .. - name ..)`
    Constants(Place, Items<Group>),
    /// `(:predicates (name ?variable .. - name ..) ..)`
    Predicates(Place, Items<Declared>),
    /// `(:functions (name ?variable .. - name ..) - number ..)`. The flag says that `- number` follows the function.
    Functions(Place, Items<(Declared, bool)>),
    /// `(:action name :parameters (?variable .. - name ..) :precondition condition :effect effect)`, each of the three or not.
    Action(Place, Word, Option<Items<Group>>, Option<Condition>, Option<Effect>),
}

/// A declared predicate or function: `(name ?variable .. - name ..)`.
#[derive(Debug, Drop)]
pub struct Declared {
    /// Its name.
    pub name: Word,
    /// Its parameters.
    pub parameters: Items<Group>,
}
