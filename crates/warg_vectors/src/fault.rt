//! Why a line has no answer of its own.

ghost use Rattle.std.specs.Prelude.{◌↔◌, IsOk, IsTrue};

use std::alloc::{AllocError, AllocFailed, Global};
use warg_bundle::BundleError;
use warg_map::MapError;
use warg_protobuf::{DecodeError, EncodeError};

/// The answer where memory is refused.
pub(crate) const MEMORY: &str = "Memory";

/// Why a line has no answer of its own.
#[derive(Drop)]
pub(crate) enum Fault {
    /// It isn't a call, or the call's condition isn't met.
    BadCall,
    /// Memory was refused.
    Memory,
    /// The call was refused: the name of its error.
    Refused(String),
    /// A value was refused its bytes, which would be too many.
    TooLarge,
    /// The call doesn't keep a promise.
    Broken(Promise),
}

/// What a call promises of its answers, and of what it was made on.
#[derive(Clone, Copy, Debug)]
pub(crate) enum Promise {
    /// A bundle, a map, a page or a proof comes to be, since all that it needs is there.
    Answer,
    /// Each way to the value, also out of its bytes or by a clone, leads to the same one.
    SameValue,
    /// A call that was refused, or that only reads, leaves what it was made on as it was.
    Unchanged,
    /// A proof leads to the root.
    SameRoot,
    /// Each push returns the node of its entry, and makes the log longer by one.
    NextNode,
    /// A run that is refused writes nothing.
    NothingWritten,
}

/// What a call leaves: its answer, or why there is none.
pub(crate) type Answered = Result<(), Fault>;

impl Fault {
    /// A fault unless the promise is kept.
    pub(crate) fn unless(kept: bool, promise: Promise) -> Answered
        ensures { IsOk result ↔ IsTrue kept }
    {
        if kept {
            Ok(())
        } else {
            Err(Fault::Broken(promise))
        }
    }

    /// The line's answer.
    pub(crate) fn text(&self, alloc: Global) -> Result<String, AllocError> {
        match self {
            Fault::BadCall => String::from_str(alloc, "bad call"),
            Fault::Memory => String::from_str(alloc, MEMORY),
            Fault::Refused(name) => format!(in alloc; "refused {name}"),
            Fault::TooLarge => String::from_str(alloc, "refused TooLarge"),
            Fault::Broken(promise) => format!(in alloc; "broken {promise:?}"),
        }
    }
}

impl From<AllocError> for Fault {
    fn from(_error: AllocError) -> Fault {
        Fault::Memory
    }
}

impl<T: Drop> From<AllocFailed<T>> for Fault {
    fn from(_error: AllocFailed<T>) -> Fault {
        Fault::Memory
    }
}

impl From<BundleError> for Fault {
    fn from(fault: BundleError) -> Fault {
        match fault {
            BundleError::Memory => Fault::Memory,
            _ => Fault::Broken(Promise::Answer),
        }
    }
}

impl From<EncodeError> for Fault {
    fn from(fault: EncodeError) -> Fault {
        match fault {
            EncodeError::Memory => Fault::Memory,
            EncodeError::TooLarge => Fault::TooLarge,
        }
    }
}

impl From<DecodeError> for Fault {
    fn from(fault: DecodeError) -> Fault {
        match fault {
            DecodeError::Memory => Fault::Memory,
            _ => Fault::Broken(Promise::SameValue),
        }
    }
}

impl From<MapError> for Fault {
    fn from(fault: MapError) -> Fault {
        match fault {
            MapError::Memory => Fault::Memory,
            MapError::Full => Fault::Broken(Promise::Answer),
        }
    }
}
