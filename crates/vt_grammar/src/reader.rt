//! What the reader knows between two tokens.
ghost use Rattle.std.specs.Prelude.{◌≡◌, ◌∷◌, IfOk};
ghost use Rattle.vt_grammar.specs.Machine.{initial, moved};

use crate::definitions::Definitions;
use crate::frame::{Frame, Next};
use crate::stack::Stack;
use std::alloc::{AllocError, Global};

/// What has been read: the definitions with the depth of the deepest of them, and, of the definition or
/// main expression that is being read, the open constructs and what comes next.
#[derive(Drop)]
pub struct Reader {
    pub defs: Definitions,
    pub deepest: usize,
    pub stack: Stack,
    pub next: Next,
}

impl Reader {
    /// Before the first token.
    pub fn new(alloc: Global) -> Reader
        ensures { result ≡ initial }
    {
        Reader {
            defs: Definitions::new(alloc),
            deepest: 0,
            stack: Stack::new(alloc),
            next: Next::Wanted,
        }
    }

    /// In the same constructs, and something else comes next.
    pub fn placed(self, next: Next) -> Reader
        ensures { result ≡ moved self self.stack next }
    {
        let Reader {
            defs,
            deepest,
            stack,
            next: before,
        } = self;
        drop(before);
        Reader {
            defs,
            deepest,
            stack,
            next,
        }
    }

    /// In one more construct.
    pub fn opened(self, frame: Frame, next: Next) -> Result<Reader, AllocError>
        ensures { IfOk result (λ reader. reader ≡ moved self (frame ∷ self.stack) next) }
    {
        let mut reader = self.placed(next);
        match reader.stack.push(frame) {
            Ok(()) => Ok(reader),
            Err(fault) => {
                drop(reader);
                Err(fault)
            }
        }
    }
}
