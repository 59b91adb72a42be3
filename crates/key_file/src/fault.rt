// Why a key file does not read.

ghost use Rattle.std.specs.Prelude.{◌≡◌};
ghost use Rattle.key_file.specs.declared.fault.KeyFault.TheVariants.{OutOfMemory};

use std::alloc::{AllocError, AllocFailed};
use thiserror::Error;

/// Why a key file does not read. Lines are counted from 1.
#[derive(Clone, Copy, Debug, PartialEq, Eq, Error)]
pub enum KeyFault {
    /// The line begins with no decimal digit.
    #[error("line {0}: no id")]
    NoDigits(usize),
    /// The id of the line is not from 1 to 4294967295.
    #[error("line {0}: id out of range")]
    IdRange(usize),
    /// No semicolon follows the id of the line.
    #[error("line {0}: no semicolon")]
    NoSemicolon(usize),
    /// The key of the line has this many hex digits, and not 32, 48 or 64.
    #[error("line {0}: key of {1} hex digits")]
    KeyLength(usize, usize),
    /// No line has id 1.
    #[error("no key 1")]
    NoKeyOne,
    /// The file has more than 1,048,576 bytes.
    #[error("key file too large")]
    TooLarge,
    /// The file is enciphered, and no filekey was given.
    #[error("no filekey")]
    NoSecret,
    /// The file of the password has more than 1,048,576 bytes.
    #[error("secret too large")]
    SecretTooLarge,
    /// The password has this many bytes, and not 1 to 256.
    #[error("secret of {0} bytes")]
    BadSecret(usize),
    /// The enciphered file has this many bytes, and fewer than 16.
    #[error("salted file of {0} bytes")]
    ShortSalted(usize),
    /// This many bytes follow the salt, and they are no positive multiple of 16.
    #[error("cipher text of {0} bytes")]
    CipherLength(usize),
    /// The deciphered text does not end in padding: the password, the digest or the file is another.
    #[error("bad padding")]
    Padding,
    /// The machine had no memory for the call.
    #[error("out of memory")]
    OutOfMemory,
}

impl From<AllocError> for KeyFault {
    ghost from_gives = { λ _ e. e ≡ OutOfMemory };

    fn from(_e: AllocError) -> KeyFault {
        KeyFault::OutOfMemory
    }
}

impl<T: Drop> From<AllocFailed<T>> for KeyFault {
    ghost from_gives = { λ _ e. e ≡ OutOfMemory };

    fn from(_e: AllocFailed<T>) -> KeyFault {
        KeyFault::OutOfMemory
    }
}
