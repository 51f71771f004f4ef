//! A layout as a C program gives it: structs of numbers and of pointers with lengths, and the layout that they represent.
#![tactic(auto)]

mod codes;
mod decode;
mod error;
mod extras;
mod fault;
mod input;
mod laws;
mod layout;
mod options;
mod output;
mod symbol;
mod text;
mod values;
mod warning;

pub use codes::KnownCodes;
pub use decode::{Decode, DecodePlain, decode_all, decode_plain};
pub use error::error_of;
pub use extras::{
    CDynamicSymbol, CMerged, CProperty, CSortedSection, CThunk, CThunkBlock, CVersionDefinition,
};
pub use fault::{CFault, fault_of};
pub use input::{CFile, CGroup, CInputSection, CMergedString, CNeededVersion, CRelocation};
pub use laws::{
    frames_have_the_size, resolutions_have_their_flags, roles_have_their_indexes,
    structs_keep_faults,
};
pub use layout::{CLayout, VERSION, decode_frame, decode_layout, is_layout};
pub use options::COptions;
pub use output::{CPart, CSection, CSegment};
pub use symbol::CSymbol;
pub use text::put_text;
pub use values::{ABSENT, CBytes, bytes_of};
pub use warning::{CWarning, warning_of};
