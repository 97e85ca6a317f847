//! What a domain and a problem declare.
ghost use Rattle.std.specs.Prelude.{◌≡◌, IfOk};
ghost use Rattle.np_names.specs.Answers.{Answers};
ghost use Rattle.np_declared.specs.LookUps.{HasTables};
ghost use Rattle.np_names.specs.Names.{object};
ghost use Rattle.np_declared.specs.Rules.{declaration_faults};

use crate::tables::{Tables, numbered};
use crate::types::type_table;
use crate::unknown::known;
use np_model::Name;
use np_names::{TypeFault, declared_names};
use np_problem::Problem;
use np_syntax::Domain;
use std::alloc::{AllocError, Global};

/// The name of the type that all others are under.
pub fn object(alloc: Global) -> Result<Name, AllocError>
    ensures { IfOk result (λ name. name ≡ object) }
{
    Ok(Name::new(String::from_str(alloc, "object")?))
}

/// What both declare, where no rule of declarations is broken.
pub fn declared<'a>(
    alloc: Global,
    top: &'a Name,
    domain: &'a Domain,
    problem: &'a Problem,
) -> Result<Tables<'a>, TypeFault>
    requires { top.now ≡ object }
    ensures { Answers (declaration_faults domain.now problem.now) (HasTables domain.now problem.now) result }
{
    let names = declared_names(alloc, domain, problem)?;
    let types = type_table(alloc, top, domain)?;
    known(&types.names, domain, problem)?;
    numbered(alloc, domain, problem, types, names)
}
