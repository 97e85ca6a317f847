//! Types, which objects fit which parameters, and static symbols.
ghost use Rattle.std.specs.Prelude.{◌≡◌};
ghost use Rattle.np_model.specs.Types.{parent_of, is_under, type_of, fits};
ghost use Rattle.np_model.specs.Steps.{takes, is_step};
ghost use Rattle.np_model.specs.Tasks.{is_fixed};

use crate::task::{Action, Object, Signature, Step, TaskParts, TypeName};

/// The type that a type lies under; a number that names no type stands for itself.
pub fn parent_of(types: &[TypeName], of: u32) -> u32
    ensures { result ≡ parent_of types.now of }
{
    match types.get(of as usize) {
        Some(name) => name.parent,
        None => of,
    }
}

/// Whether a type is the other or lies under it. It ends on every list, also where types lie under each other in a cycle.
#[tactic(auto, using(crate::proofs::Leading::leads_on, crate::proofs::Leading::leads_here, crate::proofs::Leading::leads_nowhere))]
pub fn is_under(types: &[TypeName], of: u32, over: u32) -> bool
    ensures { result ≡ is_under types.now of over }
{
    let mut at = of;
    for hop in 0..types.len() {
        if at == over {
            return true;
        }
        let parent = parent_of(types, at);
        if parent == at {
            return false;
        }
        at = parent;
    }
    at == over
}

/// The type of an object; None where the number names none.
pub fn type_of(objects: &[Object], number: u32) -> Option<u32>
    ensures { result ≡ type_of objects.now number }
{
    match objects.get(number as usize) {
        Some(object) => Some(object.of),
        None => None,
    }
}

/// Whether an object fits a parameter of this type: it is of the type or of one under it.
fn object_fits(task: &TaskParts, wanted: u32, number: u32) -> bool
    ensures { result ≡ fits task.now.types wanted (type_of task.now.objects number) }
{
    match type_of(task.objects.as_slice(), number) {
        Some(of) => is_under(task.types.as_slice(), of, wanted),
        None => false,
    }
}

/// Whether objects fit the parameters of an action, one for each.
#[tactic(auto, using(crate::proofs::Leading::fit_on, crate::proofs::Leading::fit_past, crate::proofs::Leading::fit_none, crate::proofs::Leading::fit_length))]
pub fn takes(task: &TaskParts, action: &Action, objects: &[u32]) -> bool
    ensures { result ≡ takes task.now action.now objects.now }
{
    let parameters = action.parameters.as_slice();
    if parameters.len() != objects.len() {
        return false;
    }
    for place in 0..parameters.len() {
        if !object_fits(task, parameters[place], objects[place]) {
            return false;
        }
    }
    true
}

/// Whether it is a step of the task: its action is one of the task's, and takes its objects.
pub fn is_step(task: &TaskParts, step: &Step) -> bool
    ensures { result ≡ is_step task.now step.now }
{
    match task.actions.as_slice().get(step.action as usize) {
        Some(action) => takes(task, action, step.objects.as_slice()),
        None => false,
    }
}

/// Whether a predicate or a function of these is static; false where the number names none.
pub fn is_fixed(signatures: &[Signature], symbol: u32) -> bool
    ensures { result ≡ is_fixed signatures.now symbol }
{
    match signatures.get(symbol as usize) {
        Some(signature) => signature.fixed,
        None => false,
    }
}
