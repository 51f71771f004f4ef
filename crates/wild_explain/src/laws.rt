//! The first line of the text is that of `link`.
ghost use Rattle.wild_explain.specs.Explain.{LinkLineIsFirst};

/// A plan's explanation and the answer of `link` begin with the same line.
pub fn link_line_is_first()
    ensures { LinkLineIsFirst }
{}
