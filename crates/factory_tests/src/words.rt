//! Configurations and errors of the tests.
ghost use Rattle.std.specs.Prelude.{⊤};

use service_core::NoMemory;
use std::alloc::AllocError;

/// Why a service of the tests gave no response.
#[derive(Clone, Copy, Drop, PartialEq)]
pub(crate) enum Fault {
    Bad,
    Memory,
}

impl NoMemory for Fault {
    ghost use Rattle.factory_tests.specs.declared.words.Fault.TheVariants.{Memory};

    ghost refusal = { Memory };

    fn no_memory() -> Fault {
        Fault::Memory
    }
}

/// Why no service of the tests was made.
#[derive(Clone, Copy, Drop, PartialEq)]
pub(crate) enum Denial {
    First,
    Second,
    Unready,
    Memory,
}

impl NoMemory for Denial {
    ghost use Rattle.factory_tests.specs.declared.words.Denial.TheVariants.{Memory};

    ghost refusal = { Memory };

    fn no_memory() -> Denial {
        Denial::Memory
    }
}

impl From<Fault> for Denial {
    ghost from_gives = { λ _ _. ⊤ };

    fn from(_: Fault) -> Denial {
        Denial::Unready
    }
}

/// An error of a program's own, and of the transform of the tests.
#[derive(Clone, Copy, Drop, PartialEq)]
pub(crate) enum Failure {
    Mapped,
    Turned,
    Broken,
    NoRoom,
}

impl NoMemory for Failure {
    ghost use Rattle.factory_tests.specs.declared.words.Failure.TheVariants.{NoRoom};

    ghost refusal = { NoRoom };

    fn no_memory() -> Failure {
        Failure::NoRoom
    }
}

impl From<Denial> for Failure {
    ghost from_gives = { λ _ _. ⊤ };

    fn from(_: Denial) -> Failure {
        Failure::Turned
    }
}

/// The settings of a program, of which services are made. A clone is on, and has a step of its own or cannot be had.
#[derive(Drop)]
pub(crate) struct Settings {
    pub(crate) step: u32,
    pub(crate) is_on: bool,
    pub(crate) cloned: Option<u32>,
}

impl Settings {
    /// The settings as they were.
    pub(crate) fn again(&self) -> Settings {
        Settings {
            step: self.step,
            is_on: self.is_on,
            cloned: self.cloned,
        }
    }
}

impl Clone for Settings {
    ghost is_clone = { λ _ _. ⊤ };

    fn clone(&self) -> Result<Settings, AllocError> {
        match self.cloned {
            Some(step) => Ok(stepping(step)),
            None => Err(AllocError),
        }
    }
}

/// Settings with a step, whose clones are as they are.
pub(crate) fn stepping(step: u32) -> Settings {
    Settings {
        step,
        is_on: true,
        cloned: Some(step),
    }
}

/// What a factory of the tests can be configured by.
pub(crate) trait Configures: Drop {
    /// The step of a service, if one is to be made.
    fn step(&self) -> Option<u32>;
}

impl Configures for Settings {
    fn step(&self) -> Option<u32> {
        if self.is_on { Some(self.step) } else { None }
    }
}

impl Configures for () {
    fn step(&self) -> Option<u32> {
        Some(0)
    }
}
