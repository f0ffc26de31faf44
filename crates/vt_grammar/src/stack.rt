ghost use Rattle.std.specs.Prelude.{◌≡◌, ◌↔◌, ◌≤◌, [], ◌∷◌, true, false, drop, None, IsTrue, OnOk, MatchOption};
ghost use Rattle.vt_syntax.specs.Spelling.{most_depth};
ghost use Rattle.vt_grammar.specs.Machine.{may_join, may_state, depth_over, depth_wanted};
ghost use Rattle.vt_grammar.specs.Frames.{IsAdmitted};
ghost use Rattle.vt_grammar.specs.Seen.{square_of, element_of, naming_of, closes, is_list, innermost, is_innermost};

use crate::depth::deeper;
use crate::frame::{Frame, Naming};
use crate::operand::Operand;
use crate::seen::{
    closes, element_of, is_element, is_list, is_naming, joins_after, naming_of, square_of,
    states_after,
};
use std::alloc::{AllocError, Global};
use std::collections::VecDeque;
use std::marker::Model;
use vt_lex::Span;
use vt_syntax::Op;

/// The constructs that are open, the innermost first.
#[derive(Drop)]
pub struct Stack {
    frames: VecDeque<Frame>,
}

impl Model for Stack {
    ghost use Rattle.std.specs.Prelude.{List};
    ghost use Rattle.std.specs.Coded.{codes};
    ghost use Rattle.vt_grammar.specs.declared.frame.Frame.{Frame};
    ghost use Rattle.vt_syntax.specs.contracts.expr.Expr as shape;

    ghost Value = { List Frame };

    ghost coded = { Prim.hlevel (codes, shape.the_row.coded) };

    ghost view = { λ s. s.frames.items };
}

impl Stack {
    pub fn new(alloc: Global) -> Stack
        ensures { result ≡ [] }
    {
        let frames = VecDeque::new(alloc);
        Stack { frames }
    }

    pub fn push(&mut self, frame: Frame) -> Result<(), AllocError>
        ensures { OnOk result (self.new ≡ frame ∷ self.old) }
    {
        self.frames.push_front(frame)?;
        Ok(())
    }

    pub fn pop(&mut self) -> Option<Frame>
        ensures { MatchOption result ((self.old ≡ []) × (self.new ≡ [])) (λ frame. self.old ≡ frame ∷ self.new) }
    {
        self.frames.pop_front()
    }

    /// Takes off the innermost construct, if an operand closes it without a sign at this level.
    pub fn pop_closed(&mut self, least: u8) -> Option<Frame>
        ensures { MatchOption result ((is_innermost (closes least) self.old ≡ false) × (self.new ≡ self.old)) (λ frame. (closes least frame ≡ true) × (self.old ≡ frame ∷ self.new)) }
    {
        match self.frames.front() {
            None => None,
            Some(frame) => {
                if closes(least, frame) {
                    self.frames.pop_front()
                } else {
                    None
                }
            }
        }
    }

    /// Takes off the innermost construct, if it waits for a name.
    pub fn pop_naming(&mut self) -> Option<Naming>
        ensures { MatchOption result ((innermost naming_of self.old ≡ None) × (self.new ≡ self.old)) (λ naming. self.old ≡ Frame.Naming naming ∷ self.new) }
    {
        match self.frames.front() {
            None => None,
            Some(frame) => {
                if is_naming(frame) {
                    naming_of(self.frames.pop_front()?)
                } else {
                    None
                }
            }
        }
    }

    /// Takes off the innermost construct, if it is an element of a list.
    pub fn pop_element(&mut self) -> Option<Operand>
        ensures { MatchOption result ((innermost element_of self.old ≡ None) × (self.new ≡ self.old)) (λ before. self.old ≡ Frame.Element before ∷ self.new) }
    {
        match self.frames.front() {
            None => None,
            Some(frame) => {
                if is_element(frame) {
                    element_of(self.frames.pop_front()?)
                } else {
                    None
                }
            }
        }
    }

    /// Takes off the innermost construct, if it is a list in its first element.
    pub fn pop_square(&mut self) -> Option<Span>
        ensures { MatchOption result ((innermost square_of self.old ≡ None) × (self.new ≡ self.old)) (λ from. self.old ≡ Frame.Square from ∷ self.new) }
    {
        let from = match self.frames.front() {
            None => None,
            Some(frame) => square_of(frame),
        };
        if from.is_some() {
            drop(self.frames.pop_front());
        }
        from
    }

    /// Whether a list in brackets goes on in the innermost construct.
    pub fn is_list(&self) -> bool
        ensures { result ≡ is_innermost is_list self.now }
    {
        match self.frames.front() {
            None => false,
            Some(frame) => is_list(frame),
        }
    }

    pub fn is_empty(&self) -> bool
        ensures { IsTrue result ↔ self.now ≡ [] }
    {
        self.frames.is_empty()
    }

    /// Whether what has been read may be joined at this level to what follows.
    pub fn may_join(&self, op: Option<Op>) -> bool
        ensures { result ≡ may_join op self.now }
    {
        match self.frames.front() {
            None => true,
            Some(frame) => joins_after(op, frame),
        }
    }

    /// Whether a form that is no operand may begin.
    pub fn may_state(&self) -> bool
        ensures { result ≡ may_state self.now }
    {
        match self.frames.front() {
            None => true,
            Some(frame) => states_after(frame),
        }
    }

    /// How deep the whole is at least, where the part inside so many of the innermost constructs is this
    /// deep; nothing where that is too deep.
    pub fn depth_over(&self, inside: usize, depth: usize) -> Option<usize>
        requires { depth ≤ most_depth }
        ensures { IsAdmitted (depth_over (drop inside self.now) depth) result }
    {
        let mut whole = depth;
        for i in inside..self.frames.len() {
            whole = deeper(&self.frames[i], whole)?;
        }
        Some(whole)
    }

    /// The same where an expression or a name is still to come.
    pub fn depth_wanted(&self) -> Option<usize>
        ensures { IsAdmitted (depth_wanted self.now) result }
    {
        match self.frames.front() {
            None => self.depth_over(0, 1),
            Some(frame) => match square_of(frame) {
                None => self.depth_over(0, 1),
                Some(_) => self.depth_over(1, 1),
            },
        }
    }
}
