//! The text of ground atoms, terms and steps, by the names of a task.
ghost use Rattle.std.specs.Prelude.{◌≡◌, ◌++◌, string_bytes, OnOk};
ghost use Rattle.std.specs.List.{flat_map};
ghost use Rattle.np_list.specs.Names.{predicate_name, function_name, action_name, object_name, spaced_object, call_text, atom_text, term_text, step_text};

use np_model::{Atom, Step, TaskParts, Term};
use std::alloc::AllocError;

/// The name of the predicate of this number.
fn predicate_name(task: &TaskParts, number: u32) -> &str
    ensures { result.now ≡ predicate_name task.now number }
{
    match task.predicates.as_slice().get(number as usize) {
        Some(predicate) => predicate.name.as_str(),
        None => "",
    }
}

/// The name of the function of this number.
fn function_name(task: &TaskParts, number: u32) -> &str
    ensures { result.now ≡ function_name task.now number }
{
    match task.functions.as_slice().get(number as usize) {
        Some(function) => function.name.as_str(),
        None => "",
    }
}

/// The name of the action of this number.
fn action_name(task: &TaskParts, number: u32) -> &str
    ensures { result.now ≡ action_name task.now number }
{
    match task.actions.as_slice().get(number as usize) {
        Some(action) => action.name.as_str(),
        None => "",
    }
}

/// The name of the object of this number.
fn object_name(task: &TaskParts, number: u32) -> &str
    ensures { result.now ≡ object_name task.now number }
{
    match task.objects.as_slice().get(number as usize) {
        Some(object) => object.name.as_str(),
        None => "",
    }
}

/// Adds an object, after a space.
fn push_object(text: &mut String, task: &TaskParts, object: u32) -> Result<(), AllocError>
    ensures { OnOk result (string_bytes text.new ≡ string_bytes text.old ++ spaced_object task.now object) }
{
    text.push_str(" ")?;
    text.push_str(object_name(task, object))
}

/// Adds objects, each after a space.
fn push_objects(text: &mut String, task: &TaskParts, objects: &[u32]) -> Result<(), AllocError>
    ensures { OnOk result (string_bytes text.new ≡ string_bytes text.old ++ flat_map (spaced_object task.now) objects.now) }
{
    for object in objects {
        push_object(text, task, *object)?;
    }
    Ok(())
}

/// Adds `(name object ..)`.
fn push_call(
    text: &mut String,
    task: &TaskParts,
    name: &str,
    objects: &[u32],
) -> Result<(), AllocError>
    ensures { OnOk result (string_bytes text.new ≡ string_bytes text.old ++ call_text task.now name.now objects.now) }
{
    text.push_str("(")?;
    text.push_str(name)?;
    push_objects(text, task, objects)?;
    text.push_str(")")?;
    Ok(())
}

/// Adds a ground atom as `(predicate object ..)`. Out of memory is an error, and then nothing is said of the text.
pub fn push_atom(text: &mut String, task: &TaskParts, atom: &Atom) -> Result<(), AllocError>
    ensures { OnOk result (string_bytes text.new ≡ string_bytes text.old ++ atom_text task.now atom.now) }
{
    let name = predicate_name(task, atom.predicate);
    push_call(text, task, name, atom.objects.as_slice())
}

/// Adds a ground term as `(function object ..)`. Out of memory is an error, and then nothing is said of the text.
pub fn push_term(text: &mut String, task: &TaskParts, term: &Term) -> Result<(), AllocError>
    ensures { OnOk result (string_bytes text.new ≡ string_bytes text.old ++ term_text task.now term.now) }
{
    let name = function_name(task, term.function);
    push_call(text, task, name, term.objects.as_slice())
}

/// Adds a step as `(action object ..)`. Out of memory is an error, and then nothing is said of the text.
pub fn push_step(text: &mut String, task: &TaskParts, step: &Step) -> Result<(), AllocError>
    ensures { OnOk result (string_bytes text.new ≡ string_bytes text.old ++ step_text task.now step.now) }
{
    let name = action_name(task, step.action);
    push_call(text, task, name, step.objects.as_slice())
}
