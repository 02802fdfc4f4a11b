//! Why a line isn't answered.

ghost use Rattle.std.specs.Prelude.{◌≡◌};

use std::alloc::AllocError;
use warg_crypto::HashLength;
use warg_map::MapError;

/// Why a line isn't answered.
#[derive(Drop)]
pub(super) enum LineError {
    /// It isn't one of the commands.
    BadLine,
    /// Memory was refused.
    Memory,
    /// There is no room for what it pushes or inserts.
    Full,
}

impl From<AllocError> for LineError {
    ghost use Rattle.warg_program.specs.declared.line_error.LineError.TheVariants.{Memory};

    ghost from_gives = { λ _ e. e ≡ Memory };

    fn from(_error: AllocError) -> LineError {
        LineError::Memory
    }
}

impl From<HashLength> for LineError {
    ghost use Rattle.warg_program.specs.declared.line_error.LineError.TheVariants.{BadLine};

    ghost from_gives = { λ _ e. e ≡ BadLine };

    fn from(_error: HashLength) -> LineError {
        LineError::BadLine
    }
}

impl From<MapError> for LineError {
    ghost use Rattle.warg_program.specs.Private.Errors.{map_error};

    ghost from_gives = { λ error e. e ≡ map_error error };

    fn from(error: MapError) -> LineError {
        match error {
            MapError::Full => LineError::Full,
            MapError::Memory => LineError::Memory,
        }
    }
}
