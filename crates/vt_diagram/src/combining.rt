//! What an operation makes of two diagrams.
ghost use Rattle.std.specs.Prelude.{◌≡◌, ◌*◌, ◌<◌, IfOk, IfSome, None};
ghost use Rattle.vt_diagram.specs.declared.operation.Operation.TheVariants.{Both, Either, Without};
ghost use Rattle.vt_diagram.specs.Answers.{IsSplit, IsAnswer, question};
ghost use Rattle.vt_diagram.specs.Tables.{Holds, Grows};

use crate::operation::Operation;
use crate::question::Question;
use crate::spending::spent;
use crate::split::Split;
use crate::{DiagramId, Entry, Table};
use std::alloc::AllocError;

impl<const N: usize> Table<N> {
    /// What the operation makes of two diagrams, at each decision within the budget. A `Right` costs
    /// one of the budget, and what is 0 within it is not looked at.
    pub(crate) fn combined(
        &mut self,
        budget: Option<u32>,
        operation: Operation,
        one: DiagramId,
        other: DiagramId,
    ) -> Result<DiagramId, AllocError>
        requires { Holds self.old one × Holds self.old other }
        ensures grows { Grows self.old self.new }
        ensures is { IfOk result (IsAnswer (64 * N) self.new (question budget operation one other)) }
    {
        if let Some(quick) = self.quick(budget, operation, one, other) {
            return Ok(quick);
        }
        if let Some(known) = self.answered(budget, operation, one, other) {
            return Ok(known);
        }
        let id = match self.split(budget, one, other) {
            Split::Values(value, own) => self.leaf(operation.of(value, own))?,
            Split::Parts(dim, lefts, rights) => {
                let left = self.combined(budget, operation, lefts.0, lefts.1)?;
                let right = self.combined(spent(budget), operation, rights.0, rights.1)?;
                self.choice(dim, left, right)?
            }
        };
        self.remember(budget, operation, one, other, id)
    }

    // The answer to a question that was asked before.
    fn answered(
        &self,
        budget: Option<u32>,
        operation: Operation,
        one: DiagramId,
        other: DiagramId,
    ) -> Option<DiagramId>
        ensures { IfSome result (IsAnswer (64 * N) self.now (question budget operation one other)) }
    {
        let asked = Question {
            budget,
            operation,
            one,
            other,
        };
        self.known.get(&asked).copied()
    }

    fn remember(
        &mut self,
        budget: Option<u32>,
        operation: Operation,
        one: DiagramId,
        other: DiagramId,
        id: DiagramId,
    ) -> Result<DiagramId, AllocError>
        requires { IsAnswer (64 * N) self.old (question budget operation one other) id }
        ensures same { self.new ≡ self.old }
        ensures is { IfOk result (IsAnswer (64 * N) self.new (question budget operation one other)) }
    {
        let asked = Question {
            budget,
            operation,
            one,
            other,
        };
        self.known.insert(asked, id)?;
        Ok(id)
    }

    // Within an empty budget there is one decision, and each diagram has one value.
    fn split(&self, budget: Option<u32>, one: DiagramId, other: DiagramId) -> Split
        requires { Holds self.now one × Holds self.now other }
        ensures { IsSplit (64 * N) self.now budget one other result }
    {
        if let Some(0) = budget {
            return Split::Values(self.entries.first(one), self.entries.first(other));
        }
        self.sides(one, other)
    }

    fn sides(&self, one: DiagramId, other: DiagramId) -> Split
        requires { Holds self.now one × Holds self.now other }
        ensures { IsSplit (64 * N) self.now None one other result }
    {
        match self.top(one) {
            Entry::Leaf(value) => match self.top(other) {
                Entry::Leaf(own) => Split::Values(value, own),
                Entry::Choice(dim, left, right) => Split::Parts(dim, (one, left), (one, right)),
            },
            Entry::Choice(dim, left, right) => match self.top(other) {
                Entry::Leaf(_) => Split::Parts(dim, (left, other), (right, other)),
                Entry::Choice(own, first, second) => {
                    if dim < own {
                        Split::Parts(dim, (left, other), (right, other))
                    } else if own < dim {
                        Split::Parts(own, (one, first), (one, second))
                    } else {
                        Split::Parts(dim, (left, first), (right, second))
                    }
                }
            },
        }
    }

    // An answer that needs no walk, where there is one.
    fn quick(
        &self,
        budget: Option<u32>,
        operation: Operation,
        one: DiagramId,
        other: DiagramId,
    ) -> Option<DiagramId>
        requires { Holds self.now one × Holds self.now other }
        ensures { IfSome result (IsAnswer (64 * N) self.now (question budget operation one other)) }
    {
        match operation {
            Operation::Both => self.quick_both(budget, one, other),
            Operation::Either => self.quick_either(budget, one, other),
            Operation::Without => self.quick_without(budget, one, other),
            Operation::Same => None,
            Operation::Write(_) => {
                if self.entries.is_nothing(one, budget) {
                    Some(other)
                } else {
                    None
                }
            }
        }
    }

    fn quick_both(&self, budget: Option<u32>, one: DiagramId, other: DiagramId) -> Option<DiagramId>
        requires { Holds self.now one × Holds self.now other }
        ensures { IfSome result (IsAnswer (64 * N) self.now (question budget Both one other)) }
    {
        if self.entries.is_nothing(one, budget) {
            return Some(self.zero());
        }
        if self.entries.is_nothing(other, budget) {
            return Some(self.zero());
        }
        if self.entries.is_full(other) {
            return Some(one);
        }
        if one == other { Some(one) } else { None }
    }

    fn quick_either(
        &self,
        budget: Option<u32>,
        one: DiagramId,
        other: DiagramId,
    ) -> Option<DiagramId>
        requires { Holds self.now one × Holds self.now other }
        ensures { IfSome result (IsAnswer (64 * N) self.now (question budget Either one other)) }
    {
        if self.entries.is_nothing(one, budget) {
            return Some(other);
        }
        if self.entries.is_nothing(other, budget) {
            return Some(one);
        }
        if self.entries.is_full(one) {
            return Some(one);
        }
        if one == other { Some(one) } else { None }
    }

    fn quick_without(
        &self,
        budget: Option<u32>,
        one: DiagramId,
        other: DiagramId,
    ) -> Option<DiagramId>
        requires { Holds self.now one × Holds self.now other }
        ensures { IfSome result (IsAnswer (64 * N) self.now (question budget Without one other)) }
    {
        if self.entries.is_nothing(one, budget) {
            return Some(self.zero());
        }
        if self.entries.is_nothing(other, budget) {
            return Some(one);
        }
        if self.entries.is_full(other) {
            return Some(self.zero());
        }
        if one == other {
            Some(self.zero())
        } else {
            None
        }
    }
}
