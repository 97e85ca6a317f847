//! Parts of tasks by hand, as a run reads them: names and types are left out.
ghost use Rattle.std.specs.Prelude.{◌≡◌};

use np_frac::Frac;
use np_model::{Action, Cond, Eff, Name, Objects, Step, Sum, TaskParts};
use sqlite_items::{Boxed, Items};
use std::process::Abort;

/// A fraction.
pub fn frac(rt: &(impl Abort + AllocGlobal), num: i128, den: i128) -> Frac {
    Frac::of(num, den).expect(rt, "a fraction")
}

/// The items of an array.
pub fn items<T: Drop, const N: usize>(rt: &(impl Abort + AllocGlobal), array: [T; N]) -> Items<T>
    ensures { result ≡ array }
{
    match Vec::from_array(rt.alloc(), array) {
        Ok(all) => Items::from_vec(all),
        Err(_) => panic!(rt; "memory"),
    }
}

/// These objects.
pub fn objects(rt: &(impl Abort + AllocGlobal), numbers: &[u32]) -> Objects {
    Objects::from_slice(rt.alloc(), numbers).expect(rt, "memory")
}

/// A part of an expression.
pub fn boxed(rt: &(impl Abort + AllocGlobal), x: Sum) -> Boxed<Sum> {
    Boxed::new(rt.alloc(), x).expect(rt, "memory")
}

/// An action without a name.
pub fn action(
    rt: &(impl Abort + AllocGlobal),
    parameters: &[u32],
    needs: Items<Cond>,
    effects: Items<Eff>,
) -> Action {
    Action {
        name: Name::new(String::new(rt.alloc())),
        parameters: Items::from_slice(rt.alloc(), parameters).expect(rt, "memory"),
        needs,
        effects,
    }
}

/// Steps of these actions, without objects.
pub fn steps(rt: &(impl Abort + AllocGlobal), actions: &[u32]) -> Vec<Step> {
    let mut steps = Vec::new(rt.alloc());
    for number in actions {
        let (action, objects) = (*number, objects(rt, &[]));
        steps.push(Step { action, objects }).expect(rt, "memory");
    }
    steps
}

/// A task of nothing.
pub fn nothing(rt: &(impl Abort + AllocGlobal)) -> TaskParts {
    TaskParts {
        types: Items::new(rt.alloc()),
        objects: Items::new(rt.alloc()),
        predicates: Items::new(rt.alloc()),
        functions: Items::new(rt.alloc()),
        actions: Items::new(rt.alloc()),
        atoms: Items::new(rt.alloc()),
        values: Items::new(rt.alloc()),
        goal: Items::new(rt.alloc()),
        metric: None,
    }
}
