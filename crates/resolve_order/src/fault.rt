//! Why things have no order.

use std::alloc::{AllocError, AllocFailed};

/// Why things have no order.
#[derive(Debug, Drop)]
pub enum OrderFault {
    /// Memory ran out.
    OutOfMemory,
    /// Places of two things or more: each needs the next one, and the last is the first again.
    Cycle(Vec<usize>),
}

impl From<AllocError> for OrderFault {
    ghost use Rattle.std.specs.Prelude.{◌≡◌};
    ghost use Rattle.resolve_order.specs.declared.fault.OrderFault.TheVariants.{OutOfMemory};

    ghost from_gives = { λ _ fault. fault ≡ OutOfMemory };

    fn from(_refused: AllocError) -> OrderFault {
        OrderFault::OutOfMemory
    }
}

impl<T: Drop> From<AllocFailed<T>> for OrderFault {
    ghost use Rattle.std.specs.Prelude.{◌≡◌};
    ghost use Rattle.resolve_order.specs.declared.fault.OrderFault.TheVariants.{OutOfMemory};

    ghost from_gives = { λ _ fault. fault ≡ OutOfMemory };

    fn from(_refused: AllocFailed<T>) -> OrderFault {
        OrderFault::OutOfMemory
    }
}
