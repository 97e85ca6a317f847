//! Tasks of texts.
use np_bind::bind;
use np_flat::Flat;
use np_model::Task;
use np_problem::read_problem;
use np_scale::scale;
use np_syntax::read_domain;
use np_typing::resolve;
use std::alloc::Global;

/// A file may have so many bytes.
const MOST_BYTES: usize = 1 << 24;

/// The task of a domain and a problem; None where a text is longer than a file may be, or they don't keep the rules.
pub fn task_of(alloc: Global, domain: &str, problem: &str) -> Option<Task> {
    let (domain, problem) = (domain.as_bytes(), problem.as_bytes());
    if domain.len() > MOST_BYTES || problem.len() > MOST_BYTES {
        return None;
    }
    let Ok(domain) = read_domain(alloc, domain) else {
        return None;
    };
    let Ok(problem) = read_problem(alloc, problem) else {
        return None;
    };
    resolve(alloc, &domain, &problem).ok()
}

/// The flat task of a domain and a problem; None where there is no task of them, or a limit is passed.
pub fn flat_of(alloc: Global, domain: &str, problem: &str) -> Option<Flat> {
    let task = task_of(alloc, domain, problem)?;
    let bound = bind(alloc, &task).ok()?;
    scale(alloc, &bound).ok()
}
