//! The flat task, and what holds in its states.
ghost use Rattle.std.specs.Prelude.{◌≡◌, ◌<◌, ◌≤◌, ◌^◌, ℕ, true, length, All, unsigned_abs, Some, IfOk, OnOk, ◌&&◌};
ghost use Rattle.std.specs.List.{list_all, list_any};
ghost use Rattle.np_flat.specs.Flats.{IsAscending, IsFlat, IsForm, IsSubgoal, IsStep, IsStateOf, AreWithinLimit, AreSmall};
ghost use Rattle.np_flat.specs.States.{has, holds, is_goal, is_applicable, next};
ghost use Rattle.np_flat.specs.Achieving.{achieves, achieves_at, achieved_by, net_of};
ghost use Rattle.np_flat.specs.Readers.{rows, row};

use crate::net::net_terms;
use crate::numbers::{has, has_wide};
use crate::parts::{FlatStep, Form, Parts, Subgoal};
use crate::readers::{Readers, row_of};
use crate::state::FlatState;
use crate::step::leave_after;
use sqlite_items::Items;
use std::alloc::{AllocError, Global};
use std::marker::Model;

/// A flat task, which contracts see as its parts. Its numbers are in range and within the limits.
#[derive(Debug, Drop)]
pub struct Flat {
    parts: Parts,
    // Which subgoals read each fact and each value.
    readers: Readers,
}

impl Model for Flat {
    ghost use Rattle.np_flat.specs.declared.parts.Parts.{Parts};
    ghost use Rattle.np_flat.specs.Flats.{IsFlat};
    ghost use Rattle.np_flat.specs.Readers.{IsIndex};

    ghost Value = { Parts };

    ghost view = { λ f. f.parts };

    ghost invariant = { λ f. IsFlat f.parts × IsIndex f.parts f.readers };
}

impl Flat {
    /// The flat task with these parts. It takes memory for an index of the subgoals: one entry for each that is a fact or a
    /// fact's negation, and one for each term of a form. Out of memory is an error.
    pub fn new(alloc: Global, parts: Parts) -> Result<Flat, AllocError>
        requires { IsFlat parts }
        ensures { IfOk result (λ flat. flat ≡ parts) }
    {
        let readers = Readers::new(alloc, &parts)?;
        Ok(Flat { parts, readers })
    }

    /// Its parts, which are within the limits.
    pub fn parts(&self) -> &Parts
        ensures parts { result.now ≡ self.now }
        ensures kept { IsFlat self.now }
    {
        &self.parts
    }

    /// Whether the subgoal of this number holds in a state. It takes no memory.
    pub fn holds(&self, subgoal: u32, state: &FlatState) -> bool
        requires number { subgoal < length self.now.subgoals }
        requires state { IsStateOf self.now state.now }
        requires small { AreSmall state.now.values }
        ensures { result ≡ holds self.now state.now subgoal }
    {
        match &self.parts.subgoals.as_slice()[subgoal as usize] {
            Subgoal::Fact(fact) => state.has(*fact),
            Subgoal::NotFact(fact) => !state.has(*fact),
            Subgoal::Form(form) => form.value(state) >= 0,
        }
    }

    /// Whether the goal holds in a state. It takes no memory.
    pub fn is_goal(&self, state: &FlatState) -> bool
        requires state { IsStateOf self.now state.now }
        requires small { AreSmall state.now.values }
        ensures { result ≡ is_goal self.now state.now }
    {
        self.hold(self.parts.goal.as_slice(), state)
    }

    /// Whether the step of this number is applicable in a state. It takes no memory.
    pub fn applicable(&self, step: u32, state: &FlatState) -> bool
        requires number { step < length self.now.steps }
        requires state { IsStateOf self.now state.now }
        requires small { AreSmall state.now.values }
        ensures { result ≡ is_applicable self.now state.now step }
    {
        self.hold(
            self.parts.steps.as_slice()[step as usize].needs.as_slice(),
            state,
        )
    }

    /// The state after an applicable step. Out of memory is an error.
    pub fn after(
        &self,
        alloc: Global,
        step: u32,
        state: &FlatState,
    ) -> Result<FlatState, AllocError>
        requires number { step < length self.now.steps }
        requires state { IsStateOf self.now state.now }
        requires within { AreWithinLimit state.now.values }
        requires applicable { is_applicable self.now state.now step ≡ true }
        ensures after { IfOk result (λ after. next self.now step state.now ≡ Some after) }
        ensures state_of { IfOk result (IsStateOf self.now) }
        ensures small { IfOk result (λ after. AreSmall after.values) }
    {
        let mut after = FlatState {
            facts: Items::new(alloc),
            values: Items::new(alloc),
        };
        self.after_in(alloc, step, state, &mut after)?;
        Ok(after)
    }

    /// Leaves the state after an applicable step in `after`, whatever state was there, and uses its memory again. It
    /// takes no memory where `after` has as many values as the state, and either no fact is true after the step, or the step
    /// names no fact and `after` has the state's facts already. Out of memory is an error, and then nothing is said of `after`.
    pub fn after_in(
        &self,
        alloc: Global,
        step: u32,
        state: &FlatState,
        after: &mut FlatState,
    ) -> Result<(), AllocError>
        requires number { step < length self.now.steps }
        requires state { IsStateOf self.now state.now }
        requires within { AreWithinLimit state.now.values }
        requires applicable { is_applicable self.now state.now step ≡ true }
        ensures after { OnOk result (next self.now step state.now ≡ Some after.new) }
        ensures state_of { OnOk result (IsStateOf self.now after.new) }
        ensures small { OnOk result (AreSmall after.new.values) }
    {
        leave_after(
            alloc,
            &self.parts.steps.as_slice()[step as usize],
            state,
            after,
        )
    }

    /// The exact net change of the step of this number on a form: what the step adds to the form's value. It takes no memory.
    pub fn net(&self, step: u32, form: &Form) -> i128
        requires number { step < length self.now.steps }
        requires form { IsForm (length self.now.values) form.now }
        ensures value { result ≡ net_of self.now step form.now }
        ensures small { unsigned_abs result < 2 ^ 99 }
    {
        net_terms(
            self.parts.steps.as_slice()[step as usize]
                .changes
                .as_slice(),
            form.terms.as_slice(),
        )
    }

    /// Whether the step of this number achieves the subgoal of this number: a fact that it adds, the negation of a fact that
    /// it deletes, or a form on which its net change is above 0. A number without a step or a subgoal gives no. It takes no
    /// memory.
    pub fn achieves(&self, step: u32, subgoal: u32) -> bool
        ensures { result ≡ achieved_by self.now step subgoal }
    {
        let step = self.parts.steps.as_slice().get(step as usize);
        let subgoal = self.parts.subgoals.as_slice().get(subgoal as usize);
        match (step, subgoal) {
            (Some(step), Some(subgoal)) => self.step_achieves(step, subgoal),
            _ => false,
        }
    }

    /// Whether a step achieves a subgoal.
    fn step_achieves(&self, step: &FlatStep, subgoal: &Subgoal) -> bool
        requires step { IsStep (length self.now.facts) (length self.now.values) (length self.now.subgoals) step.now }
        requires subgoal { IsSubgoal (length self.now.facts) (length self.now.values) subgoal.now }
        ensures { result ≡ achieves step.now subgoal.now }
    {
        match subgoal {
            Subgoal::Fact(fact) => has(step.adds.as_slice(), *fact),
            Subgoal::NotFact(fact) => has(step.deletes.as_slice(), *fact),
            Subgoal::Form(form) => 0 < net_terms(step.changes.as_slice(), form.terms.as_slice()),
        }
    }

    /// Whether a step achieves one of the subgoals of these numbers, which ascend. It takes no memory, and looks only at the
    /// subgoals that read a fact or a value that the step touches, however many numbers there are.
    pub fn achieves_one(&self, step: &FlatStep, subgoals: &[u64]) -> bool
        requires step { IsStep (length self.now.facts) (length self.now.values) (length self.now.subgoals) step.now }
        requires ascending { IsAscending subgoals.now }
        ensures { result ≡ list_any (achieves_at self.now step.now) subgoals.now }
    {
        let facts = self.readers.by_fact.as_slice();
        self.one_by_facts(step, subgoals, facts, step.adds.as_slice())
            || self.one_by_facts(step, subgoals, facts, step.deletes.as_slice())
            || self.one_by_changes(step, subgoals, self.readers.by_value.as_slice())
    }

    /// Whether one of these subgoals is read by one of these facts, and achieved by the step.
    fn one_by_facts(
        &self,
        step: &FlatStep,
        subgoals: &[u64],
        table: &[Vec<u32>],
        facts: &[u32],
    ) -> bool
        requires step { IsStep (length self.now.facts) (length self.now.values) (length self.now.subgoals) step.now }
        requires ascending { IsAscending subgoals.now }
        requires facts { All (λ p. p < length (rows table.now)) facts.now }
        ensures { result ≡
            list_any (λ p. list_any (λ q. has subgoals.now q && achieves_at self.now step.now q) (row (rows table.now) p)) facts.now }
    {
        facts
            .iter()
            .any(|fact| self.one_read(step, subgoals, table, *fact))
    }

    /// Whether one of these subgoals reads a value that the step changes, and is achieved by the step.
    fn one_by_changes(&self, step: &FlatStep, subgoals: &[u64], table: &[Vec<u32>]) -> bool
        requires step { IsStep (length self.now.facts) (length self.now.values) (length self.now.subgoals) step.now }
        requires ascending { IsAscending subgoals.now }
        requires values { All (λ c. c.0 < length (rows table.now)) step.now.changes }
        ensures { result ≡
            list_any (λ c. list_any (λ q. has subgoals.now q && achieves_at self.now step.now q) (row (rows table.now) c.0)) step.now.changes }
    {
        step.changes
            .as_slice()
            .iter()
            .any(|change| self.one_read(step, subgoals, table, change.0))
    }

    /// Whether one of the subgoals in the row of this number is among these, and achieved by the step.
    fn one_read(&self, step: &FlatStep, subgoals: &[u64], table: &[Vec<u32>], place: u32) -> bool
        requires step { IsStep (length self.now.facts) (length self.now.values) (length self.now.subgoals) step.now }
        requires ascending { IsAscending subgoals.now }
        requires place { place < length (rows table.now) }
        ensures { result ≡ list_any (λ q. has subgoals.now q && achieves_at self.now step.now q) (row (rows table.now) place) }
    {
        self.one_of(step, subgoals, row_of(table, place as usize))
    }

    /// Whether one of these numbers is among the subgoals, and achieved by the step.
    fn one_of(&self, step: &FlatStep, subgoals: &[u64], numbers: &[u32]) -> bool
        requires step { IsStep (length self.now.facts) (length self.now.values) (length self.now.subgoals) step.now }
        requires ascending { IsAscending subgoals.now }
        ensures { result ≡ list_any (λ q. has subgoals.now q && achieves_at self.now step.now q) numbers.now }
    {
        numbers.iter().any(|number| has_wide(subgoals, u64::from(*number))
            && self.achieves_at(step, *number))
    }

    /// Whether a step achieves the subgoal of this number.
    fn achieves_at(&self, step: &FlatStep, subgoal: u32) -> bool
        requires step { IsStep (length self.now.facts) (length self.now.values) (length self.now.subgoals) step.now }
        ensures { result ≡ achieves_at self.now step.now subgoal }
    {
        match self.parts.subgoals.as_slice().get(subgoal as usize) {
            Some(subgoal) => self.step_achieves(step, subgoal),
            None => false,
        }
    }

    /// The numbers of the subgoals that the step of this number achieves, ascending. It looks only at the subgoals that read a
    /// fact or a value that the step touches. Out of memory is an error.
    pub fn achieved(&self, alloc: Global, step: u32) -> Result<Vec<u32>, AllocError>
        requires { step < length self.now.steps }
        ensures ascending { IfOk result (λ achieved. IsAscending achieved.items) }
        ensures exact { IfOk result (λ achieved. (q : ℕ) → has achieved.items q ≡ achieved_by self.now step q) }
    {
        let mut achieved = Vec::new(alloc);
        self.achieved_in(step, &mut achieved)?;
        Ok(achieved)
    }

    /// Leaves the numbers of the subgoals that the step of this number achieves, ascending, in `achieved`, whatever numbers
    /// were there, and uses its memory again. Out of memory is an error, and then nothing is said of `achieved`.
    pub fn achieved_in(&self, step: u32, achieved: &mut Vec<u32>) -> Result<(), AllocError>
        requires { step < length self.now.steps }
        ensures ascending { OnOk result (IsAscending achieved.new.items) }
        ensures exact { OnOk result ((q : ℕ) → has achieved.new.items q ≡ achieved_by self.now step q) }
    {
        achieved.clear();
        self.readers
            .put_touched(&self.parts.steps.as_slice()[step as usize], achieved)?;
        achieved.sort_unstable();
        achieved.dedup();
        achieved.retain(|subgoal| self.achieves(step, *subgoal));
        Ok(())
    }

    /// Whether all these subgoals hold in a state.
    fn hold(&self, subgoals: &[u32], state: &FlatState) -> bool
        requires numbers { All (λ q. q < length self.now.subgoals) subgoals.now }
        requires state { IsStateOf self.now state.now }
        requires small { AreSmall state.now.values }
        ensures { result ≡ list_all (holds self.now state.now) subgoals.now }
    {
        subgoals.iter().all(|subgoal| self.holds(*subgoal, state))
    }
}
