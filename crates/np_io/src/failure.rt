//! The calls of a shelf that failed.
ghost use Rattle.std.specs.Prelude.{◌≡◌, ◌<◌, ◌++◌, ◌∷◌, [], IfOk, OnOk, vec_len, vec_capacity};
ghost use Rattle.np_io.specs.Failures.{IsFailure};

use std::alloc::AllocError;

/// A call of a shelf that failed.
#[derive(Debug, Drop)]
pub struct Failure {
    /// It was a `put`, and no `fetch`.
    pub write: bool,
    /// The name that it was to read or write.
    pub name: String,
}

/// A failure that is not noted yet, with room for it in the list.
pub(crate) fn prepare(
    failed: &mut Vec<Failure>,
    write: bool,
    name: &str,
) -> Result<Failure, AllocError>
    ensures items { failed.new.items ≡ failed.old.items }
    ensures room { OnOk result (vec_len failed.new < vec_capacity failed.new) }
    ensures failure { IfOk result (λ failure. IsFailure failure write name.now) }
{
    let alloc = *failed.allocator();
    let name = String::from_str(alloc, name)?;
    failed.reserve(1)?;
    Ok(Failure { write, name })
}

/// Notes a failure for which there is room.
pub(crate) fn note(failed: &mut Vec<Failure>, failure: Failure)
    requires { vec_len failed.old < vec_capacity failed.old }
    ensures { failed.new.items ≡ failed.old.items ++ failure ∷ [] }
{
    failed.push(failure).unwrap();
}
