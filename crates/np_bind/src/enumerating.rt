//! Every binding of every action tried.
ghost use Rattle.std.specs.Prelude.{◌≡◌, ◌++◌, ◌∷◌, ◌<◌, ◌≤◌, ◌^◌, [], true, IfOk, OnOk, length, map, take, nat_lt, if◌then◌else◌, Ok, Err};
ghost use Rattle.std.specs.Option.{option_copied};
ghost use Rattle.np_model.specs.declared.task.Step.{Step};
ghost use Rattle.np_linear.specs.Answers.{Gives};
ghost use Rattle.np_bind.specs.Answers.{Answers};
ghost use Rattle.np_bind.specs.declared.limits.TheConstants.{MOST_STEPS};
ghost use Rattle.np_bind.specs.Bindings.{fitting_objects, bindings, steps_from};
ghost use Rattle.np_bind.specs.Binding.{with_tried, kept_from};
ghost use Rattle.np_bind.specs.Grounding.{bound_step};
ghost use Rattle.np_bind.specs.Looking.{AreLeft, look_past};
ghost use Rattle.np_bind.specs.Trying.{choices, begun, kept_with};

use crate::bound::{BindFault, BoundStep, Spot};
use crate::counting::binding_count;
use crate::grounding::bound_step;
use crate::known::Known;
use crate::limits::MOST_STEPS;
use crate::looking::look_past;
use np_linear::{Finding, Halt, Linear};
use np_model::{Action, Cond, Objects, Step, TaskParts, is_under};
use smallvec::SmallVec;
use sqlite_items::Items;
use std::alloc::{AllocError, Global};
use std::marker::Model;

/// An action whose bindings are tried, with its number.
#[derive(Drop)]
struct Trial<'k, 'a> {
    known: &'k Known<'a>,
    metric: &'k Option<Linear>,
    number: u32,
    action: &'a Action,
}

impl<'k, 'a> Model for Trial<'k, 'a> {
    ghost use Rattle.std.specs.Coded.{codes};
    ghost use Rattle.np_model.specs.contracts.task.Sum as sum;
    ghost use Rattle.np_bind.specs.Trying.{Trial};

    ghost Value = { Trial };

    ghost coded = { Prim.hlevel (codes, sum.the_row.coded) };

    ghost view = { λ t. record {
      task = t.known.now.task;
      values = t.known.now.values;
      metric = t.metric.now;
      number = t.number;
      action = t.action.now;
    } };
}

/// The kept steps and one more; `TooManySteps` where there is no room.
fn with_kept(kept: Items<BoundStep>, step: BoundStep) -> Result<Items<BoundStep>, BindFault>
    ensures { Answers result (if nat_lt (length kept) MOST_STEPS then Ok (kept ++ step ∷ []) else Err BindFault.TooManySteps) }
{
    let mut kept = kept;
    if kept.len() >= MOST_STEPS {
        return Err(BindFault::TooManySteps);
    }
    kept.push(step)?;
    Ok(kept)
}

/// The step of the action of this number and these objects.
fn step_of(alloc: Global, number: u32, objects: &[u32]) -> Result<Step, AllocError>
    ensures { IfOk result (λ step. step ≡ record { action = number; objects = objects.now }) }
{
    let objects = Objects::from_slice(alloc, objects)?;
    Ok(Step {
        action: number,
        objects,
    })
}

impl<'k, 'a> Trial<'k, 'a> {
    /// The action's conditions.
    fn needs(&self) -> &[Cond]
        ensures { result.now ≡ self.now.action.needs }
    {
        self.action.needs.as_slice()
    }

    /// The step of these objects, bound; or the first finding.
    fn bound(&self, alloc: Global, objects: &[u32]) -> Result<BoundStep, Halt<Finding>>
        ensures { Gives result (bound_step self.now.task self.now.values self.now.metric (record { action = self.now.number; objects = objects.now }) self.now.action) }
    {
        bound_step(
            alloc,
            self.known,
            self.metric,
            self.number,
            self.action,
            objects,
        )
    }

    /// What is left of conditions after a look at them; None where no binding that begins with these objects is kept.
    fn look<'c>(
        &self,
        alloc: Global,
        objects: &SmallVec<u32, 8>,
        left: &'c [Cond],
    ) -> Result<Option<&'c [Cond]>, AllocError>
        ensures { IfOk result (λ rest. option_copied rest ≡ look_past self.now.task objects.now.items left.now) }
    {
        look_past(alloc, self.known, objects.as_slice(), left)
    }

    /// Whether some parameter has no object that fits, so that there is no binding.
    #[tactic(auto, using(crate::proofs::Trying::no_bindings))]
    fn has_none(&self) -> bool
        ensures { result ≡ true → bindings self.now.task self.now.action.parameters ≡ [] }
    {
        binding_count(self.known.task(), self.action.parameters.as_slice()) == 0
    }

    /// The objects that fit each parameter.
    fn lists(&self, alloc: Global) -> Result<Items<Items<u32>>, AllocError>
        requires { length self.now.task.objects < 2 ^ 32 }
        ensures { IfOk result (λ lists. lists ≡ map (fitting_objects self.now.task) self.now.action.parameters) }
    {
        lists_for(alloc, self.known.task(), self.action.parameters.as_slice())
    }
}

/// The kept steps after the step of these objects was tried.
fn try_step(
    alloc: Global,
    trial: &Trial<'_, '_>,
    objects: &[u32],
    kept: Items<BoundStep>,
) -> Result<Items<BoundStep>, BindFault>
    ensures { Answers result (with_tried kept (record { action = trial.now.number; objects = objects.now }) (bound_step trial.now.task trial.now.values trial.now.metric (record { action = trial.now.number; objects = objects.now }) trial.now.action)) }
{
    match trial.bound(alloc, objects) {
        Ok(step) => with_kept(kept, step),
        Err(Halt::Cause(Finding::Fails)) => Ok(kept),
        Err(Halt::Cause(Finding::Missing)) => Ok(kept),
        Err(Halt::Cause(Finding::NotLinear)) => {
            let step = step_of(alloc, trial.number, objects)?;
            Err(BindFault::NotLinear(Spot::Step(step)))
        }
        Err(Halt::Cause(Finding::Wide)) => {
            let step = step_of(alloc, trial.number, objects)?;
            Err(BindFault::NumberWide(Spot::Step(step)))
        }
        Err(Halt::Memory) => Err(BindFault::Memory),
    }
}

/// Puts the objects of the first lists that have just one, and gives the lists after those.
fn put_single<'a>(
    lists: &'a [Items<u32>],
    objects: &mut SmallVec<u32, 8>,
) -> Result<&'a [Items<u32>], AllocError>
    ensures same { IfOk result (λ rest. begun objects.old.items (choices lists.now) ≡ begun objects.new.items (choices rest.now)) }
    ensures shorter { IfOk result (λ rest. length rest.now ≤ length lists.now) }
    ensures more { OnOk result (take (length objects.old.items) objects.new.items ≡ objects.old.items) }
{
    for place in 0..lists.len() {
        let list = lists[place].as_slice();
        if list.len() != 1 {
            return Ok(&lists[place..]);
        }
        objects.push(list[0])?;
    }
    Ok(&lists[lists.len()..])
}

/// The kept steps after each binding was tried that begins with these objects and goes on with one of each list. These
/// conditions of the action are left to be looked at. The objects stay as they are.
#[cycle(trying)]
fn try_all(
    alloc: Global,
    trial: &Trial<'_, '_>,
    lists: &[Items<u32>],
    left: &[Cond],
    objects: &mut SmallVec<u32, 8>,
    kept: Items<BoundStep>,
) -> Result<Items<BoundStep>, BindFault>
    requires { AreLeft trial.now.task trial.now.values objects.old.items trial.now.action.needs left.now }
    ensures kept { Answers result (kept_with trial.now kept (begun objects.old.items (choices lists.now))) }
    ensures objects { OnOk result (objects.new.items ≡ objects.old.items) }
{
    match trial.look(alloc, objects, left)? {
        None => Ok(kept),
        Some(left) => try_lists(alloc, trial, lists, left, objects, kept),
    }
}

/// The same after the look at the conditions.
#[cycle(trying)]
fn try_lists(
    alloc: Global,
    trial: &Trial<'_, '_>,
    lists: &[Items<u32>],
    left: &[Cond],
    objects: &mut SmallVec<u32, 8>,
    kept: Items<BoundStep>,
) -> Result<Items<BoundStep>, BindFault>
    requires { AreLeft trial.now.task trial.now.values objects.old.items trial.now.action.needs left.now }
    ensures kept { Answers result (kept_with trial.now kept (begun objects.old.items (choices lists.now))) }
    ensures objects { OnOk result (objects.new.items ≡ objects.old.items) }
{
    let Some((list, rest)) = lists.split_first() else {
        return try_step(alloc, trial, objects.as_slice(), kept);
    };
    let mut kept = kept;
    for object in list.as_slice() {
        kept = try_object(alloc, trial, *object, rest, left, objects, kept)?;
    }
    Ok(kept)
}

/// The same where one more object comes after these.
#[cycle(trying)]
fn try_object(
    alloc: Global,
    trial: &Trial<'_, '_>,
    object: u32,
    lists: &[Items<u32>],
    left: &[Cond],
    objects: &mut SmallVec<u32, 8>,
    kept: Items<BoundStep>,
) -> Result<Items<BoundStep>, BindFault>
    requires { AreLeft trial.now.task trial.now.values objects.old.items trial.now.action.needs left.now }
    ensures kept { Answers result (kept_with trial.now kept (begun (objects.old.items ++ object ∷ []) (choices lists.now))) }
    ensures objects { OnOk result (objects.new.items ≡ objects.old.items) }
{
    let count = objects.len();
    objects.push(object)?;
    let lists = put_single(lists, objects)?;
    let kept = try_all(alloc, trial, lists, left, objects, kept)?;
    objects.truncate(count);
    Ok(kept)
}

/// The objects that fit a parameter of a type, in their order.
fn fitting_objects(alloc: Global, task: &TaskParts, wanted: u32) -> Result<Items<u32>, AllocError>
    requires { length task.now.objects < 2 ^ 32 }
    ensures { IfOk result (λ all. all ≡ fitting_objects task.now wanted) }
{
    let mut all = Items::new(alloc);
    for (number, object) in task.objects.as_slice().iter().enumerate() {
        if is_under(task.types.as_slice(), object.of, wanted) {
            all.push(number as u32)?;
        }
    }
    Ok(all)
}

/// The objects that fit each of several parameters.
fn lists_for(
    alloc: Global,
    task: &TaskParts,
    types: &[u32],
) -> Result<Items<Items<u32>>, AllocError>
    requires { length task.now.objects < 2 ^ 32 }
    ensures { IfOk result (λ all. all ≡ map (fitting_objects task.now) types.now) }
{
    let mut all = Items::new(alloc);
    for wanted in types {
        all.push(fitting_objects(alloc, task, *wanted)?)?;
    }
    Ok(all)
}

/// The kept steps after every binding of an action was tried.
fn try_action(
    alloc: Global,
    trial: &Trial<'_, '_>,
    kept: Items<BoundStep>,
) -> Result<Items<BoundStep>, BindFault>
    requires { length trial.now.task.objects < 2 ^ 32 }
    ensures { Answers result (kept_with trial.now kept (bindings trial.now.task trial.now.action.parameters)) }
{
    if trial.has_none() {
        return Ok(kept);
    }
    let lists = trial.lists(alloc)?;
    let mut objects = SmallVec::new(alloc);
    let rest = put_single(lists.as_slice(), &mut objects)?;
    try_all(alloc, trial, rest, trial.needs(), &mut objects, kept)
}

/// The steps that are kept: every binding of every action is tried, in order of actions and objects.
pub(crate) fn kept_steps<'k, 'a>(
    alloc: Global,
    known: &'k Known<'a>,
    metric: &'k Option<Linear>,
) -> Result<Items<BoundStep>, BindFault>
    requires objects { length known.now.task.objects < 2 ^ 32 }
    requires actions { length known.now.task.actions < 2 ^ 32 }
    ensures { Answers result (kept_from known.now.task known.now.values metric.now [] (steps_from known.now.task 0 known.now.task.actions)) }
{
    let mut kept = Items::new(alloc);
    for (number, action) in known.task().actions.as_slice().iter().enumerate() {
        let trial = Trial {
            known,
            metric,
            number: number as u32,
            action,
        };
        kept = try_action(alloc, &trial, kept)?;
    }
    Ok(kept)
}
