use crate::environment::Environment;
use vt_store::{Pattern, Store};

/// What inference works on: the cells, what became of each decision, and the names in scope.
#[derive(Drop)]
pub(crate) struct Work<const N: usize> {
    pub(crate) store: Store<N>,
    pub(crate) pattern: Pattern<N>,
    pub(crate) environment: Environment<N>,
}
