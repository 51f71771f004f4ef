//! Whether an item fails a test, and the number that is expected there.

use crate::items::Item;

/// Whether an item fails a test, and the number that is expected there.
#[derive(Clone, Copy)]
pub(crate) struct Verdict {
    pub(crate) fails: bool,
    pub(crate) expected: Option<u64>,
}

/// An item that fails a test.
#[derive(Clone, Copy)]
pub(crate) struct Finding {
    pub(crate) item: Item,
    pub(crate) verdict: Verdict,
}

/// A verdict without a number.
pub(crate) fn plain(fails: bool) -> Verdict {
    Verdict {
        fails,
        expected: None,
    }
}

/// A verdict with one.
pub(crate) fn due(fails: bool, expected: u64) -> Verdict {
    Verdict {
        fails,
        expected: Some(expected),
    }
}
