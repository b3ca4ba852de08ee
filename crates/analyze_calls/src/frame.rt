//! Parts of a run.
use crate::{Call, Done, Entered, Pending};

/// The calls after a body, and whether they share the table in which its recipe runs.
#[derive(Drop)]
pub(crate) struct Subsequents {
    pub(crate) calls: Pending,
    pub(crate) are_shared: bool,
}

/// Calls in order; what follows a call's priors; and what follows its subsequents, with the calls
/// that were done before those, unless the subsequents shared them.
#[derive(Drop)]
pub(crate) enum Frame<'m, 'src> {
    Calls {
        pending: Pending,
        are_dependencies: bool,
    },
    Body {
        call: Call,
        entered: Box<Entered<'m, 'src>>,
    },
    After {
        call: Call,
        outer: Option<Box<Done>>,
    },
}
