//! The steps that lead to a state.
ghost use Rattle.std.specs.Prelude.{IfOk};
ghost use Rattle.np_evidence.specs.Searches.{HasWayBack, IsWayTo};

use np_search::Node;
use std::alloc::{AllocError, Global};

/// The steps by which the parents lead from the start to the node of this number. There are at most `most` of them.
pub(crate) fn steps_to(
    alloc: Global,
    nodes: &[Node],
    number: usize,
    most: u32,
) -> Result<Vec<u32>, AllocError>
    requires { HasWayBack nodes.now number most }
    ensures { IfOk result (λ steps. IsWayTo nodes.now number steps.items) }
{
    let mut steps = Vec::new(alloc);
    let mut at = number;
    for _ in 0..most {
        let link = nodes[at].parent;
        let Some((parent, step)) = link else {
            break;
        };
        steps.push(step)?;
        at = parent as usize;
    }
    steps.reverse();
    Ok(steps)
}
