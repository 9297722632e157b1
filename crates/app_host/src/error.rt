//! Why the executive refuses.

ghost use Rattle.std.specs.Prelude.{◌≡◌};
ghost use Rattle.app_host.specs.Error.{error_code};

use thiserror::Error;

/// Why an executive command is refused, or a host is not created.
#[derive(Clone, Copy, Debug, PartialEq, Eq, Error)]
pub enum HostError {
    /// No application of this name runs.
    #[error("no such application runs")]
    NoSuchApp,
    /// There is no spare of this name.
    #[error("no spare of that name")]
    NoSpare,
    /// An application of this name runs already.
    #[error("the application runs already")]
    AlreadyRunning,
    /// Eight applications run.
    #[error("eight applications run")]
    TooManyApps,
    /// No memory for the services; only `Host::new` returns it.
    #[error("out of memory")]
    Memory,
}

impl HostError {
    /// Returns the refusal's number, 121 to 124, or `None` for `Memory`.
    pub fn code(self) -> Option<u8>
        ensures { result ≡ error_code self }
    {
        match self {
            HostError::NoSuchApp => Some(121),
            HostError::NoSpare => Some(122),
            HostError::AlreadyRunning => Some(123),
            HostError::TooManyApps => Some(124),
            HostError::Memory => None,
        }
    }
}

/// A failed write, which closes the host.
#[derive(Clone, Copy, Debug, PartialEq, Eq, Error)]
#[error("a write failed behind {sent} bytes")]
pub struct WriteFault {
    /// The bytes of this step that the writer took before; 0 if the write failed in an earlier step.
    pub sent: u64,
}
