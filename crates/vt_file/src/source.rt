use vt_scope::Resolved;
use vt_syntax::Program;
use vt_type::Constants;

/// A file whose program is in scope.
#[derive(Drop)]
pub struct Source<'a> {
    /// The whole file. The spans of the program, its core and its leaves lie in it.
    pub text: &'a str,
    /// The program as it is written.
    pub program: Program,
    /// Its core, the names of its dimensions and its leaves.
    pub resolved: Resolved,
    /// The constants that it was resolved over, and that it is to be typed over.
    pub constants: Constants,
}
