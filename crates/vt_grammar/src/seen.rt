//! What is seen of the innermost construct.
ghost use Rattle.std.specs.Prelude.{◌≡◌, is_some};
ghost use Rattle.vt_grammar.specs.Seen.{square_of, element_of, naming_of, closes, is_list, joins_after, states_after};

use crate::frame::{Frame, Naming};
use crate::operand::Operand;
use vt_lex::Span;
use vt_syntax::{Op, level, right_level};

/// Whether what has been read inside of this construct may be joined at this level to what follows.
pub(crate) fn joins_after(op: Option<Op>, frame: &Frame) -> bool
    ensures { result ≡ joins_after op frame.now }
{
    match frame {
        Frame::Joint(pending, _, _) => right_level(*pending) <= level(op),
        _ => true,
    }
}

/// Whether a form that is no operand may begin inside of this construct.
pub(crate) fn states_after(frame: &Frame) -> bool
    ensures { result ≡ states_after frame.now }
{
    match frame {
        Frame::Joint(_, _, _) => false,
        _ => true,
    }
}

/// The bracket of a list in its first element.
pub(crate) fn square_of(frame: &Frame) -> Option<Span>
    ensures { result ≡ square_of frame.now }
{
    match frame {
        Frame::Square(from) => Some(*from),
        _ => None,
    }
}

/// Whether an operand closes this construct without a sign, where its level is at least this one.
pub(crate) fn closes(least: u8, frame: &Frame) -> bool
    ensures { result ≡ closes least frame.now }
{
    match frame {
        Frame::Joint(op, _, _) => least <= level(*op),
        Frame::Tail(_) => least == 0,
        _ => false,
    }
}

/// Whether the construct waits for a name.
pub(crate) fn is_naming(frame: &Frame) -> bool
    ensures { result ≡ is_some (naming_of frame.now) }
{
    match frame {
        Frame::Naming(_) => true,
        _ => false,
    }
}

/// The construct that waits for a name.
pub(crate) fn naming_of(frame: Frame) -> Option<Naming>
    ensures { result ≡ naming_of frame }
{
    match frame {
        Frame::Naming(naming) => Some(naming),
        other => {
            drop(other);
            None
        }
    }
}

/// Whether this is an element of a list, before the one that is being read.
pub(crate) fn is_element(frame: &Frame) -> bool
    ensures { result ≡ is_some (element_of frame.now) }
{
    match frame {
        Frame::Element(_) => true,
        _ => false,
    }
}

/// The element of a list, before the one that is being read.
pub(crate) fn element_of(frame: Frame) -> Option<Operand>
    ensures { result ≡ element_of frame }
{
    match frame {
        Frame::Element(before) => Some(before),
        other => {
            drop(other);
            None
        }
    }
}

/// Whether a list in brackets goes on in this construct.
pub(crate) fn is_list(frame: &Frame) -> bool
    ensures { result ≡ is_list frame.now }
{
    match frame {
        Frame::Square(_) => true,
        Frame::Element(_) => true,
        _ => false,
    }
}
