//! Subgoals that wait, the one of the least entry first.
ghost use Rattle.std.specs.Prelude.{◌≡◌, ◌<◌, ◌≤◌, ◌==◌, ◌+◌, ℕ, true, false, [], None, length, All};
ghost use Rattle.std.specs.Prelude.{slice_set, IfOk, OnOk, IfSome, if◌then◌else◌};
ghost use Rattle.std.specs.List.{sum_by};
ghost use Rattle.std.specs.BinaryHeap.{heap_items};
ghost use Rattle.np_relax.specs.Closed.{on};
ghost use Rattle.np_table.specs.Waiting.{times, size, IsWaiting};

use std::alloc::{AllocError, Global};
use std::cmp::Reverse;
use std::collections::BinaryHeap;

/// Subgoals that are marked, and a heap of subgoals with entries, in which each of them is.
#[derive(Drop)]
pub struct Waiting {
    heap: BinaryHeap<Reverse<(u64, u32)>>,
    marks: Vec<bool>,
}

impl Waiting {
    /// None of so many subgoals waits.
    pub fn new(alloc: Global, count: usize) -> Result<Waiting, AllocError>
        ensures count { IfOk result (λ waiting. length waiting.marks.items ≡ count) }
        ensures none { IfOk result (λ waiting. (q : ℕ) → on waiting.marks.items q ≡ false) }
        ensures waiting { IfOk result IsWaiting }
    {
        let marks = unmarked(alloc, count)?;
        Ok(Waiting {
            heap: BinaryHeap::new(alloc),
            marks,
        })
    }

    /// Lets a subgoal wait with its entry.
    pub fn put(&mut self, entry: u64, subgoal: u32) -> Result<(), AllocError>
        requires subgoal { subgoal < length self.old.marks.items }
        requires waiting { IsWaiting self.old }
        ensures marks { OnOk result (self.new.marks.items ≡ slice_set self.old.marks.items subgoal true) }
        ensures waiting { OnOk result (IsWaiting self.new) }
        ensures size { OnOk result (size self.new ≡ 1 + size self.old) }
    {
        self.heap.push(Reverse((entry, subgoal)))?;
        self.marks[subgoal as usize] = true;
        Ok(())
    }

    /// Takes out a subgoal that waits, whose entry is least; none where no subgoal waits.
    pub fn take(&mut self) -> Option<u32>
        requires waiting { IsWaiting self.old }
        ensures waiting { IsWaiting self.new }
        ensures taken { IfSome result (λ q. on self.old.marks.items q ≡ true) }
        ensures marks { IfSome result (λ q. self.new.marks.items ≡ slice_set self.old.marks.items q false) }
        ensures size { IfSome result (λ q. size self.new < size self.old) }
        ensures none { result ≡ None → (q : ℕ) → on self.old.marks.items q ≡ false }
    {
        while let Some(subgoal) = pop(&mut self.heap) {
            if self.is_marked(subgoal) {
                self.marks[subgoal as usize] = false;
                return Some(subgoal);
            }
        }
        None
    }

    /// Whether the subgoal is marked.
    fn is_marked(&self, subgoal: u32) -> bool
        ensures { result ≡ on self.now.marks.items subgoal }
    {
        match self.marks.get(subgoal as usize) {
            Some(mark) => *mark,
            None => false,
        }
    }
}

/// So many times false.
fn unmarked(alloc: Global, count: usize) -> Result<Vec<bool>, AllocError>
    ensures count { IfOk result (λ marks. length marks.items ≡ count) }
    ensures none { IfOk result (λ marks. All (λ b. b ≡ false) marks.items) }
{
    let mut marks = Vec::new(alloc);
    for _ in 0..count {
        marks.push(false)?;
    }
    Ok(marks)
}

/// Takes a subgoal of least entry out of the heap.
fn pop(heap: &mut BinaryHeap<Reverse<(u64, u32)>>) -> Option<u32>
    ensures times { IfSome result (λ r. (q : ℕ) →
        sum_by (λ x. if x.0.1 == q then 1 else 0) (heap_items heap.new) + (if r == q then 1 else 0)
        ≡ sum_by (λ x. if x.0.1 == q then 1 else 0) (heap_items heap.old)) }
    ensures size { IfSome result (λ r. sum_by (λ x. 1) (heap_items heap.new) + 1 ≡ sum_by (λ x. 1) (heap_items heap.old)) }
    ensures none { result ≡ None → heap_items heap.old ≡ [] }
{
    match heap.pop() {
        Some(top) => Some(top.0.1),
        None => None,
    }
}
