//! Why a request gets an error.

ghost use Rattle.std.specs.Prelude.{◌≡◌};
ghost use Rattle.language_server.specs.declared.failure.Failure.TheVariants.{Memory};

use std::alloc::{AllocError, AllocFailed};

/// The kind of an error (JSON-RPC 2.0, "Error object"; Language Server Protocol 3.17, "ErrorCodes").
#[derive(Clone, Copy)]
pub enum ErrorKind {
    /// The message is no JSON.
    NoJson,
    /// It is no message, or may not be sent any more.
    NoMessage,
    /// The server has no such method.
    NoMethod,
    /// The parameters are not those of the method.
    NoParameters,
    /// The client has not initialized the server.
    NotInitialized,
    /// What is asked for can't be done.
    Refused,
}

impl ErrorKind {
    /// Its number.
    pub fn code(self) -> i32 {
        match self {
            ErrorKind::NoJson => -32_700,
            ErrorKind::NoMessage => -32_600,
            ErrorKind::NoMethod => -32_601,
            ErrorKind::NoParameters => -32_602,
            ErrorKind::NotInitialized => -32_002,
            ErrorKind::Refused => -32_803,
        }
    }
}

/// Why a request has no result.
#[derive(Clone, Copy)]
pub enum Failure {
    /// It gets an error with this sentence.
    Told(ErrorKind, &'static str),
    /// Out of memory.
    Memory,
}

impl From<AllocError> for Failure {
    ghost from_gives = { λ _ e. e ≡ Memory };

    fn from(_error: AllocError) -> Failure {
        Failure::Memory
    }
}

impl<T: Drop> From<AllocFailed<T>> for Failure {
    ghost from_gives = { λ _ e. e ≡ Memory };

    fn from(_failed: AllocFailed<T>) -> Failure {
        Failure::Memory
    }
}

/// The failure of a request whose parameters lack something.
pub const NO_PARAMETERS: Failure = Failure::Told(
    ErrorKind::NoParameters,
    "the parameters are not those of the method",
);
