//! Symbols and their resolutions.
ghost use Rattle.std.specs.Prelude.{⊤, ◌≡◌, ◌∷◌, [], codes};
ghost use Rattle.wild_types.specs.Flags.{has_flag, interposable, has_link_time_address, absolute, dynamic, ifunc, undefined_weak, got_slot, plt_stub, got_tls_offset, got_tls_module, got_tls_descriptor, copy_relocation, export_dynamic, downgrade_to_local, canonical_plt, ifunc_got_for_address, canonical_plt_got_for_address};
ghost use Rattle.wild_types.specs.SymbolSlots.{lacks_slots, slots_address, got_of, plt_of, has_dynamic_symbol, has_thread_slot, is_own};

use crate::index::{SectionIndex, SymbolIndex};
use crate::search::Test;
use bitflags::{Flag, Flags, bitflag_items};
use wild_words::Bytes;

/// The properties of a symbol's value, one bit each.
#[derive(Clone, Copy)]
pub struct ValueFlags(pub u32);

bitflag_items! {
    impl ValueFlags: u32 {
        const ABSOLUTE = 1;
        const DYNAMIC = 2;
        const IFUNC = 4;
        const NON_INTERPOSABLE = 8;
        const UNDEFINED_WEAK = 16;
        const GOT = 32;
        const PLT = 64;
        const GOT_TLS_OFFSET = 128;
        const GOT_TLS_MODULE = 256;
        const GOT_TLS_DESCRIPTOR = 512;
        const COPY_RELOCATION = 1024;
        const EXPORT_DYNAMIC = 2048;
        const DOWNGRADE_TO_LOCAL = 4096;
        const CANONICAL_PLT = 8192;
        const IFUNC_GOT_FOR_ADDRESS = 16384;
        const CANONICAL_PLT_GOT_FOR_ADDRESS = 32768;
    }
}

impl Flags for ValueFlags {
    type Bits = u32;

    ghost exact = { ⊤ };

    ghost table = { (codes "ABSOLUTE", 1) ∷ (codes "DYNAMIC", 2) ∷ (codes "IFUNC", 4) ∷ (codes "NON_INTERPOSABLE", 8) ∷ (codes "UNDEFINED_WEAK", 16) ∷ (codes "GOT", 32) ∷ (codes "PLT", 64) ∷ (codes "GOT_TLS_OFFSET", 128) ∷ (codes "GOT_TLS_MODULE", 256) ∷ (codes "GOT_TLS_DESCRIPTOR", 512) ∷ (codes "COPY_RELOCATION", 1024) ∷ (codes "EXPORT_DYNAMIC", 2048) ∷ (codes "DOWNGRADE_TO_LOCAL", 4096) ∷ (codes "CANONICAL_PLT", 8192) ∷ (codes "IFUNC_GOT_FOR_ADDRESS", 16384) ∷ (codes "CANONICAL_PLT_GOT_FOR_ADDRESS", 32768) ∷ [] };

    ghost set_of = { λ p. p.0 };

    fn flags<'a>() -> &'a [Flag<ValueFlags>] {
        ValueFlags::FLAGS
    }

    fn bits(&self) -> u32 {
        self.0
    }

    fn from_bits_retain(bits: u32) -> ValueFlags {
        ValueFlags(bits)
    }
}

impl ValueFlags {
    /// Whether another module's definition may replace this one at run time.
    #[tactic(auto, unfolding(crate::specs::Flags::has_flag))]
    pub fn is_interposable(self) -> bool
        ensures { result ≡ interposable self }
    {
        !self.contains(ValueFlags::NON_INTERPOSABLE)
    }

    /// Whether the value does not change with the load bias.
    #[tactic(auto, unfolding(crate::specs::Flags::has_flag))]
    pub fn is_absolute(self) -> bool
        ensures { result ≡ has_flag self absolute }
    {
        self.contains(ValueFlags::ABSOLUTE)
    }

    /// Whether another module defines the symbol.
    #[tactic(auto, unfolding(crate::specs::Flags::has_flag))]
    pub fn is_dynamic(self) -> bool
        ensures { result ≡ has_flag self dynamic }
    {
        self.contains(ValueFlags::DYNAMIC)
    }

    /// Whether the symbol is an IFUNC: its value is the address of a resolver, which returns the address of the code.
    #[tactic(auto, unfolding(crate::specs::Flags::has_flag))]
    pub fn is_ifunc(self) -> bool
        ensures { result ≡ has_flag self ifunc }
    {
        self.contains(ValueFlags::IFUNC)
    }

    /// Whether the symbol is undefined and weak, so that no definition is needed.
    #[tactic(auto, unfolding(crate::specs::Flags::has_flag))]
    pub fn is_undefined_weak(self) -> bool
        ensures { result ≡ has_flag self undefined_weak }
    {
        self.contains(ValueFlags::UNDEFINED_WEAK)
    }

    /// Whether a GOT slot holds the symbol's address.
    #[tactic(auto, unfolding(crate::specs::Flags::has_flag))]
    pub fn needs_got(self) -> bool
        ensures { result ≡ has_flag self got_slot }
    {
        self.contains(ValueFlags::GOT)
    }

    /// Whether the symbol has a PLT stub.
    #[tactic(auto, unfolding(crate::specs::Flags::has_flag))]
    pub fn needs_plt(self) -> bool
        ensures { result ≡ has_flag self plt_stub }
    {
        self.contains(ValueFlags::PLT)
    }

    /// Whether a GOT slot holds the symbol's offset from the thread pointer.
    #[tactic(auto, unfolding(crate::specs::Flags::has_flag))]
    pub fn needs_got_tls_offset(self) -> bool
        ensures { result ≡ has_flag self got_tls_offset }
    {
        self.contains(ValueFlags::GOT_TLS_OFFSET)
    }

    /// Whether a pair of GOT slots holds the symbol's module and its offset in that module.
    #[tactic(auto, unfolding(crate::specs::Flags::has_flag))]
    pub fn needs_got_tls_module(self) -> bool
        ensures { result ≡ has_flag self got_tls_module }
    {
        self.contains(ValueFlags::GOT_TLS_MODULE)
    }

    /// Whether a pair of GOT slots is the symbol's TLS descriptor.
    #[tactic(auto, unfolding(crate::specs::Flags::has_flag))]
    pub fn needs_got_tls_descriptor(self) -> bool
        ensures { result ≡ has_flag self got_tls_descriptor }
    {
        self.contains(ValueFlags::GOT_TLS_DESCRIPTOR)
    }

    /// Whether the loader copies the symbol's bytes into this output.
    #[tactic(auto, unfolding(crate::specs::Flags::has_flag))]
    pub fn needs_copy_relocation(self) -> bool
        ensures { result ≡ has_flag self copy_relocation }
    {
        self.contains(ValueFlags::COPY_RELOCATION)
    }

    /// Whether the dynamic symbol table exports the symbol to other modules.
    #[tactic(auto, unfolding(crate::specs::Flags::has_flag))]
    pub fn needs_export_dynamic(self) -> bool
        ensures { result ≡ has_flag self export_dynamic }
    {
        self.contains(ValueFlags::EXPORT_DYNAMIC)
    }

    /// Whether the symbol table lists the symbol as a local one.
    #[tactic(auto, unfolding(crate::specs::Flags::has_flag))]
    pub fn is_downgraded_to_local(self) -> bool
        ensures { result ≡ has_flag self downgrade_to_local }
    {
        self.contains(ValueFlags::DOWNGRADE_TO_LOCAL)
    }

    /// Whether the stub's address is the symbol's address in every module.
    #[tactic(auto, unfolding(crate::specs::Flags::has_flag))]
    pub fn needs_canonical_plt(self) -> bool
        ensures { result ≡ has_flag self canonical_plt }
    {
        self.contains(ValueFlags::CANONICAL_PLT)
    }

    /// Whether a second slot holds the stub's address, for references to the address of an IFUNC.
    #[tactic(auto, unfolding(crate::specs::Flags::has_flag))]
    pub fn needs_ifunc_got_for_address(self) -> bool
        ensures { result ≡ has_flag self ifunc_got_for_address }
    {
        self.contains(ValueFlags::IFUNC_GOT_FOR_ADDRESS)
    }

    /// Whether a second slot holds the address of the canonical stub.
    #[tactic(auto, unfolding(crate::specs::Flags::has_flag))]
    pub fn needs_canonical_plt_got_for_address(self) -> bool
        ensures { result ≡ has_flag self canonical_plt_got_for_address }
    {
        self.contains(ValueFlags::CANONICAL_PLT_GOT_FOR_ADDRESS)
    }

    /// Whether the value is an address in this output: neither absolute nor in another module.
    pub fn has_link_time_address(self) -> bool
        ensures { result ≡ has_link_time_address self }
    {
        !self.is_absolute() && !self.is_dynamic()
    }
}

/// Where a symbol is defined.
#[derive(Clone, Copy)]
pub enum Place {
    Undefined,
    Absolute,
    Common,
    /// In that input section of its own file.
    Section(usize),
    /// In that output section.
    Output(SectionIndex),
}

/// The resolution of a symbol: its value, slots and stub.
#[derive(Clone, Copy)]
pub struct Resolution {
    pub raw_value: u64,
    /// The symbol's own flags.
    pub flags: ValueFlags,
    /// The index in the dynamic symbol table.
    pub dynamic_symbol_index: Option<u64>,
    /// The address of its first slot.
    pub got_address: Option<u64>,
    /// The address of its stub.
    pub plt_address: Option<u64>,
}

/// A symbol of an input file, or of the linker.
#[derive(Drop)]
pub struct Symbol {
    pub name: Bytes,
    /// The symbol that defines it, if that is another one.
    pub definition: Option<SymbolIndex>,
    pub info: u8,
    pub other: u8,
    pub size: u64,
    pub value: u64,
    pub place: Place,
    pub flags: ValueFlags,
    pub version: u16,
    /// Whether `.symtab` contains it.
    pub emit: bool,
    pub resolution: Option<Resolution>,
}

/// The address of the symbol's first slot.
pub fn got_of(symbol: &Symbol) -> Option<u64>
    ensures { result ≡ got_of symbol.now }
{
    symbol.resolution?.got_address
}

/// The address of the symbol's stub.
pub fn plt_of(symbol: &Symbol) -> Option<u64>
    ensures { result ≡ plt_of symbol.now }
{
    symbol.resolution?.plt_address
}

/// Whether a loader looks the symbol up by name.
pub fn has_dynamic_symbol(flags: ValueFlags) -> bool
    ensures { result ≡ has_dynamic_symbol flags }
{
    flags.is_dynamic() || flags.needs_export_dynamic() && flags.is_interposable()
}

/// Whether there is a slot or pair for a thread-local symbol.
pub fn has_thread_slot(flags: ValueFlags) -> bool
    ensures { result ≡ has_thread_slot flags }
{
    flags.needs_got_tls_offset() || flags.needs_got_tls_module() || flags.needs_got_tls_descriptor()
}

/// Whether a symbol has no slot.
pub fn lacks_slots(symbol: &Symbol) -> bool
    ensures { result ≡ lacks_slots symbol.now }
{
    got_of(symbol).is_none()
}

impl Symbol {
    /// The address of the first of the symbol's slots; 0 if it has none.
    pub fn slots_address(&self) -> u64
        ensures { result ≡ slots_address self.now }
    {
        got_of(self).unwrap_or(0)
    }
}

/// Whether no other symbol defines the symbol with that number.
pub(crate) fn is_own(symbol: &Symbol, index: usize) -> bool
    ensures { result ≡ is_own symbol.now.definition index }
{
    match symbol.definition {
        Some(definition) => definition.0 == index,
        None => true,
    }
}

/// The test that a symbol has no slot.
pub struct LacksSlots;

impl Test<Symbol> for LacksSlots {
    ghost test = { λ t. lacks_slots };

    fn passes(&self, symbol: &Symbol) -> bool {
        lacks_slots(symbol)
    }
}
