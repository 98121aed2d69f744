// Why no row was made of a line.
ghost use Rattle.std.specs.Prelude.{◌≡◌, alloc_error};
ghost use Rattle.vectors.specs.declared.fault.Fault.TheVariants.{NoMemory};

use std::alloc::{AllocError, AllocFailed};
use std::char::ParseCharError;
use std::num::ParseIntError;
use thiserror::Error;

#[derive(Debug, Drop, Error)]
pub enum Fault {
    #[error("a column is missing or malformed")]
    Malformed,
    #[error(transparent)]
    Letter(#[from] ParseCharError),
    #[error(transparent)]
    Number(#[from] ParseIntError),
    #[error(transparent)]
    NoMemory(#[from] AllocError),
}

// By hand, since a derived `From` has no contract that says which fault `?` makes.
impl<T: Drop> From<AllocFailed<T>> for Fault {
    ghost from_gives = { λ _ fault. fault ≡ NoMemory alloc_error };

    fn from(failed: AllocFailed<T>) -> Fault {
        Fault::NoMemory(AllocError::from(failed))
    }
}
