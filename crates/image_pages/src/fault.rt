// Why a page isn't recovered.
use cause_core::OutOfMemory;
use thiserror::Error;

/// Why what a page is read from doesn't give it.
#[derive(Clone, Copy, Debug, PartialEq, Eq, Error)]
pub enum TextFault {
    /// The LSN of its text is above that of the run's end.
    #[error("an LSN behind the run")]
    BehindTheRun,
    /// The keys don't have the version of the space's key that its text names.
    #[error("no key of version {version}")]
    NoKey { version: u32 },
    /// Its text isn't that of this page: under the keys, or of page 0 as the head of a space, it is
    /// none, or it is that of another space's page.
    #[error("not the page's text")]
    NotItsText,
    /// It is a page 0, and unused.
    #[error("an unused page 0")]
    UnusedHead,
}

/// Why a page isn't recovered.
#[derive(Clone, Copy, Debug, PartialEq, Eq, Error)]
pub enum PageFault {
    /// The page is read from nothing: its home is no page text and not zero bytes, and no slot has a
    /// copy of it.
    #[error("read from nothing")]
    NotChosen,
    /// What it is read from doesn't give it.
    #[error("{0}")]
    Text(TextFault),
    /// The machine had no memory for the call.
    #[error("out of memory")]
    OutOfMemory,
}

impl From<OutOfMemory> for PageFault {
    ghost use Rattle.std.specs.Prelude.{◌≡◌};
    ghost use Rattle.image_pages.specs.declared.fault.PageFault.TheVariants.{OutOfMemory};

    ghost from_gives = { λ _ e. e ≡ OutOfMemory };

    fn from(_: OutOfMemory) -> PageFault {
        PageFault::OutOfMemory
    }
}
