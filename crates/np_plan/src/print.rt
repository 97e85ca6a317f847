//! The text of steps.

ghost use Rattle.std.specs.Prelude.{◌≡◌, ◌<◌, ◌++◌, IsTrue, All, IfOk, OnOk, length};
ghost use Rattle.np_model.specs.Steps.{is_step};
ghost use Rattle.np_model.specs.Tasks.{IsTask};
ghost use Rattle.np_plan.specs.Layout.{action_text, object_text, spaced_text, objects_text, step_text, steps_text};
ghost use Rattle.np_plan.specs.Plans.{Spells};

use np_model::{Step, Task, TaskParts};
use std::alloc::{AllocError, Global};

/// The name of an action.
fn action_name(task: &TaskParts, number: u32) -> &str
    requires { number < length task.now.actions }
    ensures { result.now ≡ action_text task.now number }
{
    task.actions.as_slice()[number as usize].name.as_str()
}

/// The name of an object.
fn object_name(task: &TaskParts, number: u32) -> &str
    requires { number < length task.now.objects }
    ensures { result.now ≡ object_text task.now number }
{
    task.objects.as_slice()[number as usize].name.as_str()
}

/// Adds the name of an object, after a space.
fn push_object(text: &mut Vec<u8>, task: &TaskParts, object: u32) -> Result<(), AllocError>
    requires { object < length task.now.objects }
    ensures { OnOk result (text.new.items ≡ text.old.items ++ spaced_text task.now object) }
{
    text.push(b' ')?;
    text.extend_from_slice(object_name(task, object).as_bytes())
}

/// Adds the names of objects, each after a space.
fn push_objects(text: &mut Vec<u8>, task: &TaskParts, objects: &[u32]) -> Result<(), AllocError>
    requires { All (λ n. n < length task.now.objects) objects.now }
    ensures { OnOk result (text.new.items ≡ text.old.items ++ objects_text task.now objects.now) }
{
    for object in objects {
        push_object(text, task, *object)?;
    }
    Ok(())
}

/// Adds a step on a line of its own.
fn push_step(text: &mut Vec<u8>, task: &TaskParts, step: &Step) -> Result<(), AllocError>
    requires task { IsTask task.now }
    requires is_step { IsTrue (is_step task.now step.now) }
    ensures { OnOk result (text.new.items ≡ text.old.items ++ step_text task.now step.now) }
{
    text.push(b'(')?;
    text.extend_from_slice(action_name(task, step.action).as_bytes())?;
    push_objects(text, task, step.objects.as_slice())?;
    text.extend_from_slice(b")\n")?;
    Ok(())
}

/// The text of steps of the task: each on a line `(action object ..)` of its own. It spells the steps, so that `read_plan`
/// gives them back where they aren't too many.
pub fn print_plan(alloc: Global, task: &Task, steps: &[Step]) -> Result<Vec<u8>, AllocError>
    requires { All (λ step. IsTrue (is_step task.now step)) steps.now }
    ensures text { IfOk result (λ text. text.items ≡ steps_text task.now steps.now) }
    ensures read_back { IfOk result (λ text. Spells task.now text.items steps.now) }
{
    let parts = task.parts();
    let mut text = Vec::new(alloc);
    for step in steps {
        push_step(&mut text, parts, step)?;
    }
    Ok(text)
}
