//! The start, the goal and the metric of a problem.
ghost use Rattle.std.specs.Prelude.{◌≡◌, ◌++◌, ◌∷◌, [], List, IfOk, false};
ghost use Rattle.np_problem.specs.declared.problem.Fact.{Fact};
ghost use Rattle.np_problem.specs.declared.problem.ProblemSection.{ProblemSection};
ghost use Rattle.np_names.specs.Answers.{Answers};
ghost use Rattle.np_declared.specs.LookUps.{TablesAgree};
ghost use Rattle.np_typing.specs.LookUps.{scope_from, HasFacts, HasStart};
ghost use Rattle.np_typing.specs.Facts.{fact_faults};
ghost use Rattle.np_typing.specs.Resolved.{sum_of, conditions_of};
ghost use Rattle.np_typing.specs.Uses.{condition_faults, expr_faults};
ghost use Rattle.np_names.specs.Names.{each_after};
ghost use Rattle.np_typing.specs.Rules.{problem_section_use_faults};

use crate::scope::Scope;
use crate::uses::conditions::condition;
use crate::uses::exprs::expr;
use crate::uses::facts::{Facts, put_all};
use indexmap::{IndexMap, IndexSet};
use np_declared::{Names, Source, Tables, TypeFault};
use np_frac::Frac;
use np_model::{Atom, Cond, Sum, Term};
use np_problem::{Fact, Problem, ProblemSection};
use np_syntax::{Condition, Expr};
use sqlite_items::Items;
use std::alloc::{AllocError, Global};

/// What a problem says beside its objects.
#[derive(Drop)]
pub struct Start {
    /// What `:init` says.
    pub facts: Facts,
    /// The conditions of the goal.
    pub goal: Items<Cond>,
    /// The metric.
    pub metric: Option<Sum>,
}

/// With what facts say.
fn with_facts(
    alloc: Global,
    scope: &Scope<'_>,
    facts: &[Fact],
    start: Start,
) -> Result<Start, TypeFault>
    ensures { (before : List Fact) → HasFacts scope.now before start.facts
        → Answers (each_after (fact_faults scope.now) before facts.now)
        (λ all. HasFacts scope.now (before ++ facts.now) all.facts × (all.goal ≡ start.goal) × (all.metric ≡ start.metric)) result }
{
    let mut all = start;
    put_all(alloc, scope, facts, &mut all.facts)?;
    Ok(all)
}

/// With what a goal asks for.
fn with_goal(
    alloc: Global,
    scope: &Scope<'_>,
    part: &Condition,
    start: Start,
) -> Result<Start, TypeFault>
    ensures { Answers (condition_faults scope.now part.now)
        (λ all. (all.facts ≡ start.facts) × (all.goal ≡ start.goal ++ conditions_of scope.now part.now) × (all.metric ≡ start.metric)) result }
{
    let Start {
        facts,
        goal,
        metric,
    } = start;
    let goal = condition(alloc, scope, part, goal)?;
    Ok(Start {
        facts,
        goal,
        metric,
    })
}

/// With a metric.
fn with_metric(
    alloc: Global,
    scope: &Scope<'_>,
    part: &Expr,
    start: Start,
) -> Result<Start, TypeFault>
    ensures { Answers (expr_faults scope.now false part.now)
        (λ all. (all.facts ≡ start.facts) × (all.goal ≡ start.goal) × (all.metric ≡ Some (sum_of scope.now part.now))) result }
{
    let mut all = start;
    all.metric = Some(expr(alloc, scope, false, part)?);
    Ok(all)
}

/// Takes in a section.
fn take_in(
    alloc: Global,
    scope: &Scope<'_>,
    section: &ProblemSection,
    start: Start,
) -> Result<Start, TypeFault>
    ensures { (before : List ProblemSection) → HasStart scope.now before start
        → Answers (problem_section_use_faults scope.now before section.now) (λ all. HasStart scope.now (before ++ section.now ∷ []) all) result }
{
    match section {
        ProblemSection::Init(_, facts) => with_facts(alloc, scope, facts.as_slice(), start),
        ProblemSection::Goal(_, part) => with_goal(alloc, scope, part, start),
        ProblemSection::Metric(_, part) => with_metric(alloc, scope, part, start),
        ProblemSection::Domain(_, _)
        | ProblemSection::Requirements(_, _)
        | ProblemSection::Objects(_, _) => Ok(start),
    }
}

/// Takes in sections.
fn take_in_all(
    alloc: Global,
    scope: &Scope<'_>,
    sections: &[ProblemSection],
    start: Start,
) -> Result<Start, TypeFault>
    requires { HasStart scope.now [] start }
    ensures { Answers (each_after (problem_section_use_faults scope.now) [] sections.now) (HasStart scope.now sections.now) result }
{
    let mut all = start;
    for section in sections {
        all = take_in(alloc, scope, section, all)?;
    }
    Ok(all)
}

/// The start, the goal and the metric of a problem.
pub fn start_of(alloc: Global, problem: &Problem, tables: &Tables<'_>) -> Result<Start, TypeFault>
    requires { TablesAgree tables.now }
    ensures { let scope = scope_from Source.Problem tables.now in
        Answers (each_after (problem_section_use_faults scope) [] problem.now.sections) (HasStart scope problem.now.sections) result }
{
    let none = Names::new(alloc);
    let scope = Scope::new(Source::Problem, tables, &none, &[]);
    let start = Start {
        facts: Facts {
            atoms: IndexSet::new(alloc),
            values: IndexMap::new(alloc),
        },
        goal: Items::new(alloc),
        metric: None,
    };
    take_in_all(alloc, &scope, problem.sections.as_slice(), start)
}

/// The atoms in their order.
pub fn atoms_of(alloc: Global, atoms: IndexSet<Atom>) -> Result<Items<Atom>, AllocError>
    ensures { IfOk result (λ all. all ≡ atoms.keys) }
{
    let mut all = Items::new(alloc);
    for atom in atoms {
        all.push(atom)?;
    }
    Ok(all)
}

/// The values in their order.
pub fn values_of(
    alloc: Global,
    values: IndexMap<Term, Frac>,
) -> Result<Items<(Term, Frac)>, AllocError>
    ensures { IfOk result (λ all. all ≡ values.entries) }
{
    let mut all = Items::new(alloc);
    for value in values {
        all.push(value)?;
    }
    Ok(all)
}
