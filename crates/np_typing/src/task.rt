//! A domain and a problem as a task.
ghost use Rattle.std.specs.Prelude.{◌≡◌, ◌++◌, IfOk};
ghost use Rattle.np_names.specs.Answers.{Answers};
ghost use Rattle.np_declared.specs.Rules.{declaration_faults};
ghost use Rattle.np_typing.specs.Rules.{use_faults, problem_use_faults, all_faults};
ghost use Rattle.np_declared.specs.LookUps.{HasTables};
ghost use Rattle.np_typing.specs.TaskOf.{task_of};
ghost use Rattle.np_typing.specs.Typing.{IsSpelledPair};

use crate::uses::{Start, actions_of, atoms_of, start_of, values_of};
use np_declared::{Tables, TypeFault, declared, object, well_sectioned};
use np_model::{Action, Task, TaskParts};
use np_problem::Problem;
use np_syntax::Domain;
use sqlite_items::Items;
use std::alloc::{AllocError, Global};

/// The parts of a task.
fn parts(
    alloc: Global,
    tables: Tables<'_>,
    actions: Items<Action>,
    start: Start,
) -> Result<TaskParts, AllocError>
    ensures { IfOk result (λ parts. parts ≡ record {
      types = tables.entry.types;
      objects = tables.entry.objects;
      predicates = tables.entry.predicates;
      functions = tables.entry.functions;
      actions = actions;
      atoms = start.facts.atoms.keys;
      values = start.facts.values.entries;
      goal = start.goal;
      metric = start.metric;
    }) }
{
    let Start {
        facts,
        goal,
        metric,
    } = start;
    let atoms = atoms_of(alloc, facts.atoms)?;
    let values = values_of(alloc, facts.values)?;
    Ok(TaskParts {
        types: tables.types,
        objects: tables.objects,
        predicates: tables.predicates,
        functions: tables.functions,
        actions,
        atoms,
        values,
        goal,
        metric,
    })
}

/// What both use, where no rule of uses is broken, and so the parts of their task.
fn used(
    alloc: Global,
    domain: &Domain,
    problem: &Problem,
    tables: Tables<'_>,
) -> Result<TaskParts, TypeFault>
    requires { HasTables domain.now problem.now tables }
    ensures { Answers (use_faults domain.now problem.now ++ problem_use_faults domain.now problem.now) (λ parts. parts ≡ task_of domain.now problem.now) result }
{
    let actions = actions_of(alloc, domain, &tables)?;
    let start = start_of(alloc, problem, &tables)?;
    Ok(parts(alloc, tables, actions, start)?)
}

/// The parts of the task of a domain and a problem, where no rule of declarations and uses is broken.
#[tactic(auto, using(np_names::proofs::Answering::first_front, np_names::proofs::Answering::first_after, np_names::proofs::Answering::none_more))]
fn resolved(alloc: Global, domain: &Domain, problem: &Problem) -> Result<TaskParts, TypeFault>
    ensures { Answers (declaration_faults domain.now problem.now ++ (use_faults domain.now problem.now ++ problem_use_faults domain.now problem.now))
        (λ parts. parts ≡ task_of domain.now problem.now) result }
{
    let top = object(alloc)?;
    let tables = declared(alloc, &top, domain, problem)?;
    used(alloc, domain, problem, tables)
}

/// The task that a domain and a problem stand for, where they keep the rules of typing.
///
/// Else the first fault: sections that come again or are missing, another domain's name, names that come again, types in a
/// circle and unknown types, in this order and each over the domain and then the problem in the order of the text, and after
/// these what the two use, in the order of the text, a symbol before its arguments. `Memory` where memory ran out.
#[tactic(auto, using(np_names::proofs::Answering::first_front, np_names::proofs::Answering::first_after, np_names::proofs::Answering::none_more))]
pub fn resolve(alloc: Global, domain: &Domain, problem: &Problem) -> Result<Task, TypeFault>
    requires { IsSpelledPair domain.now problem.now }
    ensures { Answers (all_faults domain.now problem.now) (λ task. task ≡ task_of domain.now problem.now) result }
{
    well_sectioned(domain, problem)?;
    let parts = resolved(alloc, domain, problem)?;
    Ok(Task::new(parts))
}
