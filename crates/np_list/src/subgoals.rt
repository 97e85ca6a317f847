//! The lines of subgoals.
ghost use Rattle.std.specs.Prelude.{◌≡◌, ◌++◌, string_bytes, OnOk};
ghost use Rattle.std.specs.List.{enumerate_from, flat_map};
ghost use Rattle.np_list.specs.ListText.{form_term_text, form_text, spaced_number, subgoal_text, subgoal_line};

use crate::numbers::{push_line_start, push_number, push_spaced_number, push_spaced_value};
use np_flat::{Form, Subgoal};
use std::alloc::AllocError;

/// Adds a line for each subgoal, by number.
pub fn push_subgoals(text: &mut String, subgoals: &[Subgoal]) -> Result<(), AllocError>
    ensures { OnOk result (string_bytes text.new ≡ string_bytes text.old ++ flat_map (λ p. subgoal_line p.0 p.1) (enumerate_from 0 subgoals.now)) }
{
    for (number, subgoal) in subgoals.iter().enumerate() {
        push_subgoal_line(text, number, subgoal)?;
    }
    Ok(())
}

/// Adds the line of the subgoal of this number.
fn push_subgoal_line(text: &mut String, number: usize, subgoal: &Subgoal) -> Result<(), AllocError>
    ensures { OnOk result (string_bytes text.new ≡ string_bytes text.old ++ subgoal_line number subgoal.now) }
{
    push_line_start(text, "subgoal", number)?;
    push_subgoal(text, subgoal)?;
    text.push_str("\n")?;
    Ok(())
}

/// Adds what a subgoal is.
fn push_subgoal(text: &mut String, subgoal: &Subgoal) -> Result<(), AllocError>
    ensures { OnOk result (string_bytes text.new ≡ string_bytes text.old ++ subgoal_text subgoal.now) }
{
    match subgoal {
        Subgoal::Fact(fact) => push_kind(text, "fact", *fact),
        Subgoal::NotFact(fact) => push_kind(text, "not", *fact),
        Subgoal::Form(form) => push_form(text, form),
    }
}

/// Adds a kind and the number of a fact.
fn push_kind(text: &mut String, kind: &str, fact: u32) -> Result<(), AllocError>
    ensures { OnOk result (string_bytes text.new ≡ string_bytes text.old ++ (kind.now ++ spaced_number fact)) }
{
    text.push_str(kind)?;
    push_spaced_number(text, u64::from(fact))
}

/// Adds a form.
fn push_form(text: &mut String, form: &Form) -> Result<(), AllocError>
    ensures { OnOk result (string_bytes text.new ≡ string_bytes text.old ++ form_text form.now) }
{
    text.push_str("form")?;
    push_spaced_value(text, form.constant)?;
    push_form_terms(text, form.terms.as_slice())
}

/// Adds the terms of a form, each after a space.
fn push_form_terms(text: &mut String, terms: &[(u32, i128)]) -> Result<(), AllocError>
    ensures { OnOk result (string_bytes text.new ≡ string_bytes text.old ++ flat_map form_term_text terms.now) }
{
    for term in terms {
        push_form_term(text, *term)?;
    }
    Ok(())
}

/// Adds a term of a form, after a space.
fn push_form_term(text: &mut String, term: (u32, i128)) -> Result<(), AllocError>
    ensures { OnOk result (string_bytes text.new ≡ string_bytes text.old ++ form_term_text term) }
{
    push_spaced_value(text, term.1)?;
    text.push_str("*")?;
    push_number(text, u64::from(term.0))
}
