//! A limited front part of the tables' unwritten room, lent to one producer of symbols.
ghost use Rattle.std.specs.Prelude.{◌≡◌, ◌+◌, ◌*◌, ◌≤◌, length, IfOk, IfErr, Ok, Err};
ghost use Rattle.std.specs.Borrow.{sem};
ghost use Rattle.wild_records.specs.SymtabEntry.{symtab_entry_size};
ghost use Rattle.wild_table_formats.specs.Symbols.{symbols_used};
ghost use Rattle.wild_symbols.specs.TableRoom.{room_for_prefix, reserved_bytes, prefix_of, with_reserved_room};
ghost use Rattle.wild_symbols.specs.Lending.{PrefixOrNone};

use crate::writer::SymbolTableWriter;
use wild_types::Error;

/// The number of bytes of each table that are reserved after a prefix.
#[derive(Clone, Copy)]
pub struct ReservedBytes {
    pub locals: usize,
    pub globals: usize,
    pub local_indexes: usize,
    pub global_indexes: usize,
    pub strings: usize,
}

/// A writer whose room is limited to a number of global symbols and of bytes of strings, without local symbols. It appends
/// to what the writer had. When the prefix is dropped, the writer gets the rest of its room back and continues after what
/// was written.
pub struct SymbolTablePrefix<'a> {
    /// The writer, limited to the prefix.
    pub writer: &'a mut SymbolTableWriter,
    kept: ReservedBytes,
}

impl<'a> Drop for SymbolTablePrefix<'a> {
    fn drop(self)
        ensures { self.exit.0.now ≡ with_reserved_room self.entry.kept self.entry.writer.now }
    {
        let SymbolTablePrefix { writer, kept } = self;
        writer.join(kept);
    }
}

impl SymbolTableWriter {
    /// Checks that this many more global symbols and bytes of strings fit.
    fn check_prefix(&self, symbols: u32, strings: u32) -> Result<(), Error>
        ensures { result ≡ room_for_prefix symbols strings self.now }
    {
        self.globals.check_entries(symbols)?;
        self.global_indexes.check_indexes(symbols)?;
        self.strtab.check_bytes(strings)
    }

    /// Limits the room to these, and returns the number of bytes reserved after them.
    fn take_front(&mut self, symbols: u32, strings: u32) -> ReservedBytes
        requires { room_for_prefix symbols strings self.old ≡ Ok tt }
        ensures front { self.new ≡ prefix_of symbols strings self.old }
        ensures kept { result ≡ reserved_bytes symbols strings self.old }
    {
        ReservedBytes {
            locals: self.locals.close(),
            globals: self.globals.take_front(symbols),
            local_indexes: self.local_indexes.close(),
            global_indexes: self.global_indexes.take_front(symbols),
            strings: self.strtab.take_front(strings),
        }
    }

    /// Makes the reserved bytes usable again.
    fn join(&mut self, kept: ReservedBytes)
        ensures { self.new ≡ with_reserved_room kept self.old }
    {
        self.locals.join(kept.locals);
        self.globals.join(kept.globals);
        self.local_indexes.join(kept.local_indexes);
        self.global_indexes.join(kept.global_indexes);
        self.strtab.join(kept.strings);
    }

    /// Returns a prefix: the writer with room for `symbols` global symbols and `strings` bytes of strings only. Nothing is
    /// allocated.
    ///
    /// # Errors
    ///
    /// `InsufficientAllocation` exactly if the symbols do not fit in the rest of their share, or otherwise their extended
    /// section indexes where every symbol has one, or otherwise the bytes of strings. Then nothing changes.
    pub fn take_prefix_global(
        &mut self,
        symbols: u32,
        strings: u32,
    ) -> Result<SymbolTablePrefix<'_>, Error>
        ensures* kept_at_error { sem 𝓛 (PrefixOrNone self.entry result) }
        ensures refused { IfErr result (λ e. room_for_prefix symbols strings self.old ≡ Err e) }
        ensures taken { IfOk result (λ p. room_for_prefix symbols strings self.old ≡ Ok tt) }
        ensures same_reference { IfOk result (λ p. p.writer.ghost_name ≡ self.entry.ghost_name) }
        ensures front { IfOk result (λ p. p.writer.now ≡ prefix_of symbols strings self.old) }
        ensures reserved_room { IfOk result (λ p. p.kept ≡ reserved_bytes symbols strings self.old) }
    {
        self.check_prefix(symbols, strings)?;
        let kept = self.take_front(symbols, strings);
        Ok(SymbolTablePrefix { writer: self, kept })
    }
}
