//! A task with its types. A name is declared once, in the list of its kind, and named by its place in that list.
use crate::name::Name;
use crate::objects::Objects;
use np_frac::Frac;
use sqlite_items::{Boxed, Items};

/// The parts of a task: its declarations, its start, its goal and its metric.
#[derive(Debug, Drop)]
pub struct TaskParts {
    /// The types. Type 0 is `object`, under which all the others lie.
    pub types: Items<TypeName>,
    /// The objects.
    pub objects: Items<Object>,
    /// The declared predicates.
    pub predicates: Items<Signature>,
    /// The declared functions.
    pub functions: Items<Signature>,
    /// The actions.
    pub actions: Items<Action>,
    /// The ground atoms that are true at the start.
    pub atoms: Items<Atom>,
    /// The ground terms that have a value at the start, with it.
    pub values: Items<(Term, Frac)>,
    /// The goal: all of these conditions hold.
    pub goal: Items<Cond>,
    /// The expression whose growth over a plan is the plan's cost. Without one, each step costs 1.
    pub metric: Option<Sum>,
}

/// A type.
#[derive(Debug, Drop)]
pub struct TypeName {
    /// Its name.
    pub name: Name,
    /// The type that it lies under. Type 0 is its own parent.
    pub parent: u32,
}

/// An object.
#[derive(Debug, Drop)]
pub struct Object {
    /// Its name.
    pub name: Name,
    /// Its type.
    pub of: u32,
}

/// A declared predicate or function.
#[derive(Debug, Drop)]
pub struct Signature {
    /// Its name.
    pub name: Name,
    /// The types of its parameters.
    pub parameters: Items<u32>,
    /// Whether it is static: no action's effect names it as what it adds, deletes or changes.
    pub fixed: bool,
}

/// An action. Objects that fit its parameters make a step of it.
#[derive(Debug, Drop)]
pub struct Action {
    /// Its name.
    pub name: Name,
    /// The types of its parameters.
    pub parameters: Items<u32>,
    /// The conditions that all have to hold where a step of it is applicable.
    pub needs: Items<Cond>,
    /// What a step of it does.
    pub effects: Items<Eff>,
}

/// An object, or the parameter of an action that stands for one, each by its number.
#[derive(Clone, Copy, Debug, PartialEq, Eq)]
pub enum Ref {
    /// The object of this number.
    Object(u32),
    /// The object that a step gives for this parameter.
    Parameter(u32),
}

/// A ground atom: a predicate with its objects.
#[derive(Debug, Drop, PartialEq, Eq, Hash)]
pub struct Atom {
    /// The predicate.
    pub predicate: u32,
    /// The objects, one for each parameter.
    pub objects: Objects,
}

/// A ground term: a function with its objects.
#[derive(Debug, Drop, PartialEq, Eq, Hash)]
pub struct Term {
    /// The function.
    pub function: u32,
    /// The objects, one for each parameter.
    pub objects: Objects,
}

/// A condition.
#[derive(Debug, Drop)]
pub enum Cond {
    /// The atom of this predicate and these objects is true, or false where the flag is.
    Atom(bool, u32, Items<Ref>),
    /// Both are the same object, or different ones where the flag is false.
    Same(bool, Ref, Ref),
    /// Both expressions have values, which compare so.
    Compare(Op, Sum, Sum),
}

/// How two numbers compare.
#[derive(Clone, Copy, Debug, PartialEq, Eq)]
pub enum Op {
    /// The left one is less.
    Less,
    /// The left one is greater.
    Greater,
    /// The left one is less or equal.
    AtMost,
    /// The left one is greater or equal.
    AtLeast,
    /// Both are equal.
    Equal,
}

/// An expression.
#[derive(Debug, Drop)]
pub enum Sum {
    /// A number.
    Number(Frac),
    /// The value of the term of this function and these objects.
    Value(u32, Items<Ref>),
    /// The negated value.
    Minus(Boxed<Sum>),
    /// The first less the second.
    Sub(Boxed<Sum>, Boxed<Sum>),
    /// The first over the second.
    Div(Boxed<Sum>, Boxed<Sum>),
    /// The sum of two or more, added from the left.
    Add(Items<Sum>),
    /// The product of two or more, multiplied from the left.
    Mul(Items<Sum>),
}

/// An effect.
#[derive(Debug, Drop)]
pub enum Eff {
    /// The atom of this predicate and these objects becomes true.
    Add(u32, Items<Ref>),
    /// The atom of this predicate and these objects becomes false, unless the step adds it too.
    Delete(u32, Items<Ref>),
    /// The value of the term of this function and these objects grows by the amount, or falls where the flag is false.
    Change(bool, u32, Items<Ref>, Sum),
}

/// A step: an action with an object for each of its parameters.
#[derive(Debug, Drop, PartialEq, Eq, Hash)]
pub struct Step {
    /// The action.
    pub action: u32,
    /// The objects.
    pub objects: Objects,
}
