//! A linear sum.
use np_frac::Frac;
use np_model::Term;
use sqlite_items::Items;

/// A linear sum: a constant, and ground terms with their coefficients, which aren't 0.
#[derive(Debug, Drop)]
pub struct Linear {
    /// The constant.
    pub constant: Frac,
    /// The terms in the order of their first occurrence, each once, with their coefficients.
    pub terms: Items<(Term, Frac)>,
}
