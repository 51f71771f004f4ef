//! The text of a diagnosis.

use std::alloc::{AllocError, Global};
use std::fmt::{Display, Write};

/// A text that grows. Once memory is refused, nothing more is added, and `finish` says so.
#[derive(Drop)]
pub struct Text {
    text: String,
    is_refused: bool,
}

impl Text {
    /// An empty text.
    pub fn new(alloc: Global) -> Text {
        Text {
            text: String::new(alloc),
            is_refused: false,
        }
    }

    /// The whole text, or that memory was refused for a piece of it.
    pub fn finish(self) -> Result<String, AllocError> {
        if self.is_refused {
            return Err(AllocError);
        }
        Ok(self.text)
    }

    /// Adds a piece unchanged.
    pub(crate) fn push_str(&mut self, piece: &str) {
        if !self.is_refused {
            self.is_refused = self.text.push_str(piece).is_err();
        }
    }

    /// Adds what `write!` and `writeln!` print.
    pub(crate) fn write_fmt<D: Display + Drop>(&mut self, piece: D) {
        if !self.is_refused {
            self.is_refused = write!(self.text, "{piece}").is_err();
        }
    }

    /// Adds the path of a list and an index in it.
    pub(crate) fn push_index(&mut self, list: &str, index: usize) {
        write!(self, "{list}{index}");
    }
}
