// Why words are not read.
use cause_core::OutOfMemory;
use std::alloc::AllocFailed;
use thiserror::Error;

/// Why a list of words gives no plan.
#[derive(Clone, Copy, Debug, PartialEq, Eq, Error)]
pub enum WordsFault {
    /// The list is not valid. The index, from 0, is that of the first word with which no valid list
    /// goes on, or the number of words where more are needed.
    #[error("usage at word {0}")]
    Usage(usize),
    /// The machine had no memory for the call.
    #[error("out of memory")]
    OutOfMemory,
}

impl From<OutOfMemory> for WordsFault {
    ghost use Rattle.std.specs.Prelude.{◌≡◌};
    ghost use Rattle.keyd_words.specs.declared.fault.WordsFault.TheVariants.{OutOfMemory};

    ghost from_gives = { λ _ e. e ≡ OutOfMemory };

    fn from(_e: OutOfMemory) -> WordsFault {
        WordsFault::OutOfMemory
    }
}

impl<T: Drop> From<AllocFailed<T>> for WordsFault {
    ghost use Rattle.std.specs.Prelude.{◌≡◌};
    ghost use Rattle.keyd_words.specs.declared.fault.WordsFault.TheVariants.{OutOfMemory};

    ghost from_gives = { λ _ e. e ≡ OutOfMemory };

    fn from(_e: AllocFailed<T>) -> WordsFault {
        WordsFault::OutOfMemory
    }
}

// Why an option and its value can't stand behind others.
#[derive(Clone, Copy, Debug, PartialEq, Eq, Error)]
pub(crate) enum SettingFault {
    // The option's word.
    #[error("option")]
    Name,
    // Its value, which may be missing.
    #[error("value")]
    Value,
    #[error("out of memory")]
    OutOfMemory,
}

impl From<OutOfMemory> for SettingFault {
    ghost use Rattle.std.specs.Prelude.{◌≡◌};
    ghost use Rattle.keyd_words.specs.declared.fault.SettingFault.TheVariants.{OutOfMemory};

    ghost from_gives = { λ _ e. e ≡ OutOfMemory };

    fn from(_e: OutOfMemory) -> SettingFault {
        SettingFault::OutOfMemory
    }
}

impl<T: Drop> From<AllocFailed<T>> for SettingFault {
    ghost use Rattle.std.specs.Prelude.{◌≡◌};
    ghost use Rattle.keyd_words.specs.declared.fault.SettingFault.TheVariants.{OutOfMemory};

    ghost from_gives = { λ _ e. e ≡ OutOfMemory };

    fn from(_e: AllocFailed<T>) -> SettingFault {
        SettingFault::OutOfMemory
    }
}
