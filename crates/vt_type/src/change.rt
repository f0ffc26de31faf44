use crate::Plain;

/// A change that cures a program: one leaf is given another type, and the program then has a type.
/// The variables of the two types are those of the canonical form of their pair.
#[derive(Drop)]
pub struct ChangeLine {
    /// The number of the leaf.
    pub leaf: u32,
    /// The class of the leaf, by which changes are ordered.
    pub class: u8,
    /// The type that the leaf has after the change.
    pub wanted: Plain,
    /// The type that the program has after the change.
    pub result: Plain,
}
