//! The lines of warnings that precede an image's bytes.
ghost use Rattle.std.specs.Prelude.{◌≡◌, ◌++◌, IfOk, OnOk, string_bytes, slice_get};
ghost use Rattle.std.specs.List.{flat_map, list_any};
ghost use Rattle.wild_text.specs.Answer.{is_control, shown_name, name_of, warning_text, warning_line};

use std::alloc::{AllocError, Global};
use std::fmt::Write;
use wild_types::{EntryWarning, Layout, SymbolIndex};

/// Whether a name has a control character of ASCII: a newline would end the line of the warning.
fn has_control(name: &[u8]) -> bool
    ensures { result ≡ list_any is_control name.now }
{
    name.iter().any(|byte| *byte < b' ' || *byte == 0x7f)
}

/// The printed form of a name: unchanged if it is text without control characters, else in hex.
fn name_text(alloc: Global, name: &[u8]) -> Result<String, AllocError>
    ensures { IfOk result (λ s. string_bytes s ≡ shown_name name.now) }
{
    if has_control(name) {
        return hex::encode(alloc, name);
    }
    match str::from_utf8(name) {
        Ok(text) => String::from_str(alloc, text),
        Err(_) => hex::encode(alloc, name),
    }
}

/// The printed form of a symbol's name.
fn symbol_text(alloc: Global, layout: &Layout, symbol: SymbolIndex) -> Result<String, AllocError>
    ensures { IfOk result (λ s. string_bytes s ≡ shown_name (name_of (slice_get layout.now.symbols symbol))) }
{
    match layout.symbols.as_slice().get(symbol.0) {
        Some(found) => name_text(alloc, found.name.as_slice()),
        None => name_text(alloc, b""),
    }
}

/// The warning for an entry symbol without an address.
fn warning_words(
    alloc: Global,
    layout: &Layout,
    warning: EntryWarning,
) -> Result<String, AllocError>
    ensures { IfOk result (λ s. string_bytes s ≡ warning_text layout.now warning) }
{
    match warning {
        EntryWarning::Defaulted { symbol, address } => {
            let name = symbol_text(alloc, layout, symbol)?;
            let text = format!(in alloc;
                "cannot find entry symbol `{name}`, defaulting to 0x{address:x}"
            )?;
            Ok(text)
        }
        EntryWarning::EmptyText { symbol } => {
            let name = symbol_text(alloc, layout, symbol)?;
            let text = format!(in alloc;
                "cannot find entry symbol `{name}` and .text is empty, not setting entry point"
            )?;
            Ok(text)
        }
    }
}

/// Adds a line for each warning.
pub(crate) fn push_warnings(
    out: &mut String,
    alloc: Global,
    layout: &Layout,
    warnings: &[EntryWarning],
) -> Result<(), AllocError>
    ensures { OnOk result (string_bytes out.new ≡ string_bytes out.old ++ flat_map (warning_line layout.now) warnings.now) }
{
    for warning in warnings {
        let text = warning_words(alloc, layout, *warning)?;
        writeln!(out, "warning {text}")?;
    }
    Ok(())
}
