//! The decision on a relocation: what it writes.
use wild_relax::Row;
use wild_reloc::RelocationSize;

/// What a relocation writes into the bytes of its section, and what it leaves to the dynamic linker.
#[derive(Clone, Copy)]
pub enum Decision {
    /// Nothing.
    Nothing,
    /// A value into a field of that size, at the relocation's offset.
    Field {
        size: RelocationSize,
        value: u64,
    },
    /// The address `value`, which moves with the load bias, in 8 bytes. If it is packed in `.relr.dyn` it is written there, and the loader
    /// adds the load bias; otherwise 0 is written, and the loader stores the sum by a RELATIVE entry.
    RelativeAddress {
        value: u64,
        packed: bool,
    },
    /// 0 into a field of that size, which the dynamic linker fills by an entry of type `number`, with an index in the dynamic symbol
    /// table (0: none) and an addend.
    DynamicField {
        size: RelocationSize,
        number: u32,
        symbol: u64,
        /// Modulo 2^64.
        addend: u64,
    },
    /// The whole instruction of the input, as the row writes it, with a value in its field; the value is 0 if the row has none.
    Rewritten {
        row: Row,
        value: u64,
    },
    /// Nothing: the relocation is that of a sequence's call, which is written with the previous relocation.
    Partner,
}
