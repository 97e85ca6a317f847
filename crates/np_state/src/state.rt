//! States.
use crate::bits::BitRow;
use crate::cell::Cell;

/// A state: which facts hold, and the number in each cell.
///
/// Two states are equal exactly where their facts and their numbers are, and equal ones hash alike.
#[derive(PartialEq, Eq, Hash, Drop)]
pub struct State<C: Cell> {
    pub facts: BitRow,
    pub cells: Vec<C>,
}
