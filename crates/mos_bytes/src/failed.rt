//! The one answer of the outside that isn't a result.

use std::error::Error;
use std::fmt;

/// A fault of the outside. The object that answers it has counted it.
#[derive(Clone, Copy, Debug, PartialEq, Eq)]
pub struct Failed;

impl fmt::Display for Failed {
    fn fmt<W: fmt::Write>(&self, f: &mut fmt::Formatter<W>) -> fmt::Result {
        f.write_str("fault of the outside")
    }
}

impl Error for Failed {}
