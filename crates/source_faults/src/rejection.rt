//! What the front end says of a source that has no program.

ghost use Rattle.std.specs.Prelude.{◌≡◌, None};
ghost use Rattle.source_faults.specs.declared.fault.FrontError.TheVariants.{Fault};

use crate::element::NamedElement;
use crate::fault::{FrontError, FrontFault};

/// Why the front end gives no program, and of what in the source.
#[derive(Drop)]
pub struct Rejection {
    pub error: FrontError,
    /// The line of the fault, from 1. That a source is too long or has no main has none.
    pub line: Option<u64>,
    /// The element that the fault is about, where it is about one.
    pub element: Option<NamedElement>,
}

impl From<FrontFault> for Rejection {
    ghost from_gives = { λ fault rejection. rejection ≡ record { error = Fault fault; line = None; element = None } };

    fn from(fault: FrontFault) -> Self {
        Rejection {
            error: FrontError::Fault(fault),
            line: None,
            element: None,
        }
    }
}
