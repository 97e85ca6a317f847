//! The actions and objects of a task by their names.

ghost use Rattle.std.specs.Prelude.{◌≡◌, ◌<◌, ◌^◌, IfOk, length, map};
ghost use Rattle.np_plan.specs.Numbers.{HasNumbers, number_from, numbers_of, step_of};

use crate::plan::PlanLine;
use indexmap::IndexMap;
use np_model::{Action, Name, Object, Objects, Step, TaskParts, is_step};
use np_words::Word;
use std::alloc::{AllocError, Global};

/// What goes by a name.
trait Named {
    ghost use Rattle.std.specs.Prelude.{List, ℕ};

    ghost name_of: { Self → List ℕ };

    /// The name.
    fn name(&self) -> &Name
        ensures { result.now ≡ name_of self.now };
}

impl Named for Action {
    ghost name_of = { λ a. a.name };

    fn name(&self) -> &Name {
        &self.name
    }
}

impl Named for Object {
    ghost name_of = { λ o. o.name };

    fn name(&self) -> &Name {
        &self.name
    }
}

/// The number of each name. Of items with one name the first counts.
fn numbers<'a, N: Named>(
    alloc: Global,
    items: &'a [N],
) -> Result<IndexMap<&'a Name, u32>, AllocError>
    requires { length items.now < 2 ^ 32 }
    ensures { IfOk result (λ numbers. HasNumbers numbers (map N.name_of items.now)) }
{
    let mut numbers = IndexMap::with_capacity(alloc, items.len())?;
    for number in (0..items.len()).rev() {
        numbers.insert(items[number].name(), number as u32)?;
    }
    Ok(numbers)
}

/// A task whose actions and objects are found by name without a walk.
#[derive(Drop)]
pub struct Directory<'a> {
    task: &'a TaskParts,
    actions: IndexMap<&'a Name, u32>,
    objects: IndexMap<&'a Name, u32>,
    ghost actions_numbered: { HasNumbers actions (map (λ a. a.name) task.now.actions) },
    ghost objects_numbered: { HasNumbers objects (map (λ o. o.name) task.now.objects) },
}

impl<'a> Directory<'a> {
    /// The directory of a task.
    pub fn new(alloc: Global, task: &'a TaskParts) -> Result<Directory<'a>, AllocError>
        requires actions { length task.now.actions < 2 ^ 32 }
        requires objects { length task.now.objects < 2 ^ 32 }
        ensures { IfOk result (λ directory. directory.task.now ≡ task.now) }
    {
        Ok(Directory {
            task,
            actions: numbers(alloc, task.actions.as_slice())?,
            objects: numbers(alloc, task.objects.as_slice())?,
        })
    }

    /// The number of the action of this name.
    fn action(&self, name: &Name) -> Option<u32>
        ensures { result ≡ number_from 0 (map (λ a. a.name) self.now.task.now.actions) name.now }
    {
        match self.actions.get(&name) {
            Some(number) => Some(*number),
            None => None,
        }
    }

    /// The number of the object of this name.
    fn object(&self, name: &Name) -> Option<u32>
        ensures { result ≡ number_from 0 (map (λ o. o.name) self.now.task.now.objects) name.now }
    {
        match self.objects.get(&name) {
            Some(number) => Some(*number),
            None => None,
        }
    }

    /// The objects of these names; None where one is the name of no object.
    fn objects_of(&self, alloc: Global, words: &[Word]) -> Result<Option<Objects>, AllocError>
        ensures { IfOk result (λ found. found ≡ numbers_of (map (λ o. o.name) self.now.task.now.objects) words.now) }
    {
        let mut objects = Objects::new(alloc);
        for word in words {
            let Some(number) = self.object(&word.text) else {
                return Ok(None);
            };
            objects.push(number)?;
        }
        Ok(Some(objects))
    }

    /// The step that a line names; None where it names none of the task.
    pub fn step_of(&self, alloc: Global, line: &PlanLine) -> Result<Option<Step>, AllocError>
        ensures { IfOk result (λ found. found ≡ step_of self.now.task.now line.now) }
    {
        let Some(action) = self.action(&line.action.text) else {
            return Ok(None);
        };
        let Some(objects) = self.objects_of(alloc, line.objects.as_slice())? else {
            return Ok(None);
        };
        let step = Step { action, objects };
        if !is_step(self.task, &step) {
            return Ok(None);
        }
        Ok(Some(step))
    }
}
