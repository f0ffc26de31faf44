//! The state of the walk over a program, and the nodes that it makes.
ghost use Rattle.std.specs.Prelude.{◌≡◌, List, [], ◌∷◌, Some, None, MatchResult, slice_get};
ghost use Rattle.vt_syntax.specs.declared.expr.ExprForm as form;
ghost use Rattle.vt_syntax.specs.SurfaceTrees.{expr};
ghost use Rattle.vt_syntax.specs.CoreTrees.{core, choice_form};
ghost use Rattle.vt_scope.specs.declared.fault.ScopeFault.{ScopeFault};
ghost use Rattle.vt_scope.specs.Faults.{Dimension, with_dim, refused, first_fault, IsFault};
ghost use Rattle.vt_syntax.specs.Leaves.{leaf};
ghost use Rattle.vt_scope.specs.Cores.{applied, function, constant};
ghost use Rattle.vt_scope.specs.Walking.{numbered, noted, Answers};

use crate::ScopeFault;
use crate::scope::Scope;
use sqlite_items::{Boxed, Items};
use std::alloc::Global;
use vt_dec::{Dim, NodeId};
use vt_lex::{Span, Word};
use vt_syntax::{Class, Core, Form, Leaf, Lit};
use vt_type::{ConstId, Constants, Names};

/// How many dimensions a program may have.
const MOST_DIMENSIONS: usize = 64;

/// What a walk over a program knows: the next free number, the binders around the place that it has
/// come to, the dimensions that it has met, and the leaves before this place.
#[derive(Drop)]
pub struct Walk {
    pub next: u32,
    pub scope: Scope,
    pub dims: Names,
    pub leaves: Items<Leaf>,
}

impl Walk {
    /// The next number.
    pub fn number(&mut self) -> Result<NodeId, ScopeFault>
        ensures { MatchResult result (λ node. (node ≡ self.old.next) × (self.new ≡ numbered self.old)) (λ fault. fault ≡ ScopeFault.Memory) }
    {
        let node = NodeId(self.next);
        match self.next.checked_add(1) {
            Some(next) => {
                self.next = next;
                Ok(node)
            }
            None => Err(ScopeFault::Memory),
        }
    }

    /// Notes a leaf.
    pub fn note(&mut self, span: Span, class: Class, node: NodeId) -> Result<(), ScopeFault>
        ensures { MatchResult result (λ _. self.new ≡ noted self.old (leaf span class node)) (λ fault. fault ≡ ScopeFault.Memory) }
    {
        self.leaves.push(Leaf {
            span,
            class: class.number(),
            node,
        })?;
        Ok(())
    }

    /// A core expression without parts.
    pub fn part(&mut self, alloc: Global, span: Span, form: Form) -> Result<Boxed<Core>, ScopeFault>
        ensures { MatchResult result (λ c. (c ≡ core self.old.next span form) × (self.new ≡ numbered self.old)) (λ fault. fault ≡ ScopeFault.Memory) }
    {
        let node = self.number()?;
        Ok(Core::leaf(alloc, node, span, form)?)
    }

    /// A constant that no text writes.
    pub fn implied(
        &mut self,
        alloc: Global,
        span: Span,
        id: ConstId,
    ) -> Result<Boxed<Core>, ScopeFault>
        ensures { MatchResult result (λ c. (c ≡ constant self.old.next span id) × (self.new ≡ numbered self.old)) (λ fault. fault ≡ ScopeFault.Memory) }
    {
        self.part(alloc, span, Form::Const(id))
    }

    /// A core expression without parts that is a leaf.
    pub fn leaf(
        &mut self,
        alloc: Global,
        span: Span,
        class: Class,
        form: Form,
    ) -> Result<Boxed<Core>, ScopeFault>
        ensures { MatchResult result (λ c. (c ≡ core self.old.next span form) × (self.new ≡ noted (numbered self.old) (leaf span class self.old.next))) (λ fault. fault ≡ ScopeFault.Memory) }
    {
        let node = self.number()?;
        self.note(span, class, node)?;
        Ok(Core::leaf(alloc, node, span, form)?)
    }

    pub fn literal(
        &mut self,
        alloc: Global,
        span: Span,
        literal: Lit,
    ) -> Result<Boxed<Core>, ScopeFault>
        ensures { MatchResult result (λ c. (c ≡ core self.old.next span (Form.Literal literal)) × (self.new ≡ noted (numbered self.old) (leaf span Class.Literal self.old.next))) (λ fault. fault ≡ ScopeFault.Memory) }
    {
        self.leaf(alloc, span, Class::Literal, Form::Literal(literal))
    }

    pub fn applied(
        &mut self,
        alloc: Global,
        span: Span,
        function: Boxed<Core>,
        argument: Boxed<Core>,
    ) -> Result<Boxed<Core>, ScopeFault>
        ensures { MatchResult result (λ c. (c ≡ applied self.old.next span function argument) × (self.new ≡ numbered self.old)) (λ fault. fault ≡ ScopeFault.Memory) }
    {
        let node = self.number()?;
        Ok(Core::app(alloc, node, span, function, argument)?)
    }

    pub fn function(
        &mut self,
        alloc: Global,
        span: Span,
        body: Boxed<Core>,
    ) -> Result<Boxed<Core>, ScopeFault>
        ensures { MatchResult result (λ c. (c ≡ function self.old.next span body) × (self.new ≡ numbered self.old)) (λ fault. fault ≡ ScopeFault.Memory) }
    {
        let node = self.number()?;
        Ok(Core::fun(alloc, node, span, body)?)
    }

    pub fn choice(
        &mut self,
        alloc: Global,
        span: Span,
        dim: Dim,
        left: Boxed<Core>,
        right: Boxed<Core>,
    ) -> Result<Boxed<Core>, ScopeFault>
        ensures { MatchResult result (λ c. (c ≡ core self.old.next span (choice_form dim left right)) × (self.new ≡ numbered self.old)) (λ fault. fault ≡ ScopeFault.Memory) }
    {
        let node = self.number()?;
        Ok(Core::choice(alloc, node, span, dim, left, right)?)
    }

    /// The number of a dimension whose name stands in the token at this span.
    pub fn dimension(&mut self, name: &Word, span: Span) -> Result<Dim, ScopeFault>
        ensures { MatchResult result
            (λ dim. (slice_get self.new.dims dim ≡ Some name.now) × (self.new ≡ record self.old { dims = with_dim self.old.dims name.now }) × (refused self.old.dims (Dimension name.now span) ≡ None))
            (IsFault (first_fault self.old.dims (Dimension name.now span ∷ []))) }
    {
        if let Some(number) = self.dims.number_of(name.as_str()) {
            return Ok(Dim(number));
        }
        if self.dims.len() >= MOST_DIMENSIONS {
            return Err(ScopeFault::TooManyDimensions { span });
        }
        let number = self.dims.add(name.as_str())?;
        Ok(Dim(number))
    }

    /// A name that is written.
    pub fn name(
        &mut self,
        alloc: Global,
        constants: &Constants,
        span: Span,
        name: &Word,
    ) -> Result<Boxed<Core>, ScopeFault>
        ensures { Answers constants.now (expr span (form.Name name.now)) self.old self.new result }
    {
        if let Some(found) = self.scope.find(name.as_str()) {
            return self.leaf(alloc, span, found.class, Form::Name(found.distance));
        }
        match constants.find(name.as_str()) {
            Some(id) => self.leaf(alloc, span, Class::Constant, Form::Const(id)),
            None => Err(ScopeFault::Unbound { span }),
        }
    }
}
