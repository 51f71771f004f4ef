//! The types of a finished layout, and look-ups in them: flags, roles, the rows of relocation types, the addresses of symbols and
//! sections, and the faults of a layout.
#![tactic(auto)]

mod address;
mod empty;
mod extent;
mod fault;
mod file;
mod index;
mod input;
mod item;
mod kind;
mod layout;
mod lookups;
mod options;
mod part;
mod rows;
mod search;
mod section;
mod shares;
mod symbol;
mod warning;

pub use extent::{all_but_first, wide_sum};
pub use fault::{At, Clause, Error, Fault, FrameFault, Missing};
pub use file::{File, FileRole, Group, NeededVersion, VersionNeeds};
pub use index::{SectionIndex, SymbolIndex};
pub use input::{InputRelocation, InputSection, MergedString, Slot};
pub use item::ItemRef;
pub use kind::{Machine, OutputKind, RelocationModel};
pub use layout::{
    DynamicSymbol, Entry, GnuHash, Identity, Layout, Merged, Property, PropertyValue,
    SortedSection, SysvHash, THUNK_SIZE, Thunk, Tls, VersionDefinition,
};
pub use lookups::{is_allocated, is_executable, is_thread_local, is_writable, symbols_in_range};
pub use options::Options;
pub use part::{Part, Role, has_role, is_there, part_with, place_of};
pub use rows::{field_bytes, row_of};
pub use search::{Test, all_pass, first_failing};
pub use section::{Section, Segment};
pub use shares::{excessive, insufficient, part_of, share_of};
pub use symbol::{
    LacksSlots, Place, Resolution, Symbol, ValueFlags, got_of, has_dynamic_symbol, has_thread_slot,
    lacks_slots, plt_of,
};
pub use warning::EntryWarning;
