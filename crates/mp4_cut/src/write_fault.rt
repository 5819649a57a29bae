//! Why something wasn't written.

use thiserror::Error;

/// The writer failed. It may have taken some of the bytes, from the first on.
#[derive(Clone, Copy, Debug, PartialEq, Eq, Error)]
#[error("the writer failed")]
pub struct WriteFault;
