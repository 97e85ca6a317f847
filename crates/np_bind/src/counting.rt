//! The number of bindings.
ghost use Rattle.std.specs.Prelude.{◌≡◌, suc, length, min, nat_lt};
ghost use Rattle.np_bind.specs.declared.limits.TheConstants.{MOST_BINDINGS};
ghost use Rattle.np_bind.specs.Bindings.{fitting_objects, binding_count, binding_counts};

use crate::limits::MOST_BINDINGS;
use np_model::{TaskParts, is_under};

/// One more than the most bindings that are tried.
const TOO_MANY: usize = MOST_BINDINGS + 1;

/// How many objects fit a parameter of a type.
fn fitting_count(task: &TaskParts, wanted: u32) -> usize
    ensures { result ≡ length (fitting_objects task.now wanted) }
{
    let mut count = 0;
    for object in task.objects.as_slice() {
        if is_under(task.types.as_slice(), object.of, wanted) {
            count += 1;
        }
    }
    count
}

/// How many bindings parameters of these types have; one more than the most that are tried stands for any larger number.
pub(crate) fn binding_count(task: &TaskParts, types: &[u32]) -> usize
    ensures { result ≡ min (suc MOST_BINDINGS) (binding_count task.now types.now) }
{
    let mut count: usize = 1;
    for wanted in types {
        count = count
            .saturating_mul(fitting_count(task, *wanted))
            .min(TOO_MANY);
    }
    count
}

/// How many bindings the actions have together; one more than the most that are tried stands for any larger number.
fn binding_counts(task: &TaskParts) -> usize
    ensures { result ≡ min (suc MOST_BINDINGS) (binding_counts task.now task.now.actions) }
{
    let mut total: usize = 0;
    for action in task.actions.as_slice() {
        total = (total + binding_count(task, action.parameters.as_slice())).min(TOO_MANY);
    }
    total
}

/// Whether there are more than the most bindings that are tried.
#[tactic(auto, using(crate::proofs::Counts::over_cap))]
pub(crate) fn has_too_many(task: &TaskParts) -> bool
    ensures { result ≡ nat_lt MOST_BINDINGS (binding_counts task.now task.now.actions) }
{
    binding_counts(task) >= TOO_MANY
}
