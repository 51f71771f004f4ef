//! Explanations of faults in relocations, slots, copies and symbols.

use crate::items::{Item, SectionPlace, push_decided, push_found, push_item, section_at};
use crate::names::{push_name, push_symbol, push_type};
use crate::symbol_places::push_lacking;
use crate::text::Text;
use crate::thunks::refused_thunk;
use wild_reloc::RelocationSize;
use wild_slot::{SlotFault, SymbolSlots};
use wild_types::{
    At, Fault, FrameFault, InputSection, Layout, Machine, Missing, field_bytes, row_of,
};

/// What is wrong with a section of frames, and the remedy.
fn frame_words(why: FrameFault) -> (&'static str, &'static str) {
    match why {
        FrameFault::Malformed => (
            "the reader of the input failed at a relocation of frames",
            "give the relocation as the input has it",
        ),
        FrameFault::Unsorted => (
            "a relocation of frames stands before the one in front of it",
            "sort the relocations of the section by `offset`",
        ),
        FrameFault::Cut => (
            "an entry of frames ends behind its section",
            "give the section all its bytes, or correct the entry's length",
        ),
        FrameFault::Short => (
            "an entry of frames has no room for its id, or one that is kept none for where its code begins",
            "correct the entry's length; only the last one may be 0",
        ),
        FrameFault::PcBegin => (
            "where the code of a frame begins is told by no symbol, or by one that stands in no input section",
            "give the relocation at byte 8 of the entry the symbol of its code",
        ),
        FrameFault::Cie => (
            "an entry's id leads to no CIE of its section",
            "correct the id: the distance from itself back to the CIE",
        ),
        FrameFault::Field => (
            "the field of a relocation ends behind its entry of frames",
            "correct its `offset` or its `number`",
        ),
    }
}

/// What is wrong with a symbol that lacks a member, and the remedy.
fn missing_words(what: Missing) -> (&'static str, &'static str) {
    match what {
        Missing::Address => (
            "the symbol has no address: its definition has no resolution, and it stands in no input section with an address",
            "resolve the symbol (`resolution`, or `definition` where another symbol defines it), or place its section",
        ),
        Missing::Slot => (
            "the relocation takes a slot, and the symbol's definition has none of that sort",
            "give the symbol the flag and the slot (`got`; GOT, GOT_TLS_OFFSET, GOT_TLS_MODULE or GOT_TLS_DESCRIPTOR), its `definition` where another symbol has it, or the plan `tlsld`",
        ),
        Missing::Stub => (
            "a stub is needed, and the symbol's definition has none",
            "give the symbol PLT and a stub (`plt`), its `definition`, or on x86-64 write a call of a function that is known as R_X86_64_PC32",
        ),
        Missing::DynamicSymbol => (
            "a loader looks the symbol up, and its definition has no index in the dynamic symbol table",
            "give it `dynsym` (and list it in `dynsyms` where the output defines it), or the flag NON_INTERPOSABLE where no other module may have it",
        ),
        Missing::Section => (
            "the symbol's entry has no output section",
            "correct `place`, or the name of the section (.bss, .tbss)",
        ),
    }
}

/// What is wrong with an address that is too far away or in the wrong place, and the remedy. Any other fault is that memory was refused.
fn distance_words(fault: Fault) -> (&'static str, &'static str) {
    match fault {
        Fault::NoThunk { .. } => (
            "the target of a branch is out of its range, and the block of its file has no thunk of the symbol's definition",
            "give the block one, or move the sections nearer",
        ),
        Fault::ThunkOutOfRange { .. } => (
            "a thunk is out of the range of a branch, or its target is 4 GiB or more from it",
            "move the sections nearer, or give the file a block of its own",
        ),
        Fault::ThunkAddend { .. } => (
            "the target of a branch is out of its range, and a thunk has nothing to add to it",
            "branch to a symbol at the place itself, or move the sections nearer",
        ),
        Fault::PltTooFar { .. } => (
            "a stub is too far from its slot",
            "move the parts plt_got and got nearer",
        ),
        Fault::TlsOutOfSegment { .. } => (
            "the address of a thread-local symbol with a slot is not in the thread-local data",
            "correct `tls` or `raw_value`",
        ),
        Fault::FrameOffsetOverflow { .. } => (
            "the search table of frames tells distances of four signed bytes, and one is greater",
            "move the parts eh_frame_hdr and eh_frame, and the code, nearer",
        ),
        Fault::OutOfRange { .. } => (
            "the value does not fit the field",
            "move the sections nearer, or use a wider type",
        ),
        _ => ("memory was refused", "give it more memory"),
    }
}

/// What is wrong with a relocation type in a section, and the remedy.
fn type_words(is_debug: bool) -> (&'static str, &'static str) {
    if is_debug {
        (
            "the relocation type is not known, or is not of an address, of a place in the thread-local data or of one from the thread pointer: no other is told in a debug section",
            "resolve the relocation to a type that is known, with its symbol",
        )
    } else {
        (
            "the relocation type is not known, or it needs a symbol and names none",
            "resolve the relocation to a type that is known, or give it its symbol",
        )
    }
}

/// What is wrong, and the remedy, for a fault that may be in a debug section.
pub(crate) fn words_of(fault: Fault, is_debug: bool) -> (&'static str, &'static str) {
    match fault {
        Fault::BadFrameData { why } => frame_words(why),
        Fault::MissingResolution { what, .. } => missing_words(what),
        Fault::UnsupportedRelocation { .. } => type_words(is_debug),
        Fault::RecompileWithPic { .. } => (
            "the field cannot hold an address that is known only where the image is loaded",
            "compile position-independent code (-fPIE, for a shared object -fPIC), or give the symbol NON_INTERPOSABLE, or ABSOLUTE where its value does not move; another module's symbol a stub or a copy",
        ),
        Fault::UnknownSequence { .. } => (
            "an instruction is to be rewritten, and its bytes, its addend or the relocation of its call are not what that needs",
            "keep the sequences of the ABI whole, with all their relocations, one behind the other",
        ),
        Fault::IfuncAddend { .. } => (
            "an entry stores what a resolver answers, and has nothing to add to it",
            "take the function's address itself, and add in code",
        ),
        Fault::StaticTlsDesc { .. } => (
            "a static executable has nothing that fills a descriptor",
            "take another model of thread-local storage",
        ),
        Fault::OverlappingSites { .. } => (
            "two relocations write one byte of the section",
            "remove one of them",
        ),
        _ => distance_words(fault),
    }
}

/// Adds a relocation: its type, its offset, its symbol and its addend.
pub fn push_relocation(out: &mut Text, layout: &Layout, section: &InputSection, index: usize) {
    let Some(relocation) = section.relocations.as_slice().get(index) else {
        return;
    };
    let offset = relocation.offset;
    let addend = relocation.addend;
    push_type(out, layout.machine, relocation.number);
    write!(out, " at offset {offset} of ");
    push_name(out, section.name.as_slice());
    write!(out, ", addend {addend}");
    if let Some(symbol) = relocation.symbol {
        out.push_str(", ");
        push_symbol(out, layout, symbol.0);
        let definition = layout.canonical(symbol).0;
        if definition != symbol.0 {
            write!(out, ", defined by symbol {definition}");
        }
    }
}

/// Adds the values that the field of a relocation at an offset takes, and the next type's machine.
fn push_range(out: &mut Text, layout: &Layout, at: SectionPlace, offset: Option<u64>) {
    if let Some(section) = section_at(layout, at)
        && let Some(offset) = offset
        && let Some(index) = relocation_at(section, offset)
        && let Some(relocation) = section.relocations.as_slice().get(index)
        && let Some(row) = row_of(layout.machine, relocation.number)
    {
        let (below, above) = (row.range.below, row.range.above.saturating_sub(1));
        let multiple = row.alignment;
        write!(out, ", expected from -{below} to {above}");
        if multiple > 1 {
            write!(out, ", and a multiple of {multiple}");
        }
    }
}

/// The first relocation of a section at an offset.
pub(crate) fn relocation_at(section: &InputSection, offset: u64) -> Option<usize> {
    for (i, relocation) in section.relocations.as_slice().iter().enumerate() {
        if relocation.offset == offset {
            return Some(i);
        }
    }
    None
}

/// The first two relocations of a section whose fields have a byte.
fn fields_with(layout: &Layout, section: &InputSection, byte: u64) -> Option<(usize, usize)> {
    let mut first = None;
    for (i, relocation) in section.relocations.as_slice().iter().enumerate() {
        let width = field_bytes(layout.machine, relocation.number) as u64;
        let end = relocation.offset.saturating_add(width);
        if relocation.offset <= byte && byte < end {
            if let Some(first) = first {
                return Some((first, i));
            }
            first = Some(i);
        }
    }
    None
}

/// Adds two relocations whose fields have a byte.
fn push_overlap(out: &mut Text, layout: &Layout, at: SectionPlace, byte: u64) {
    if let Some(section) = section_at(layout, at)
        && let Some((first, second)) = fields_with(layout, section, byte)
    {
        out.push_str("where: ");
        push_item(out, Item::Input(at));
        write!(out, "/relocations/{second}/offset\nfound: ");
        push_relocation(out, layout, section, second);
        write!(out, "; /relocations/{first}: ");
        push_relocation(out, layout, section, first);
    }
}

/// Adds the relocations of AArch64 instructions with a byte whose offset is no multiple of 4.
fn push_odd(out: &mut Text, layout: &Layout, at: SectionPlace, byte: u64) {
    let Some(section) = section_at(layout, at) else {
        return;
    };
    for (i, relocation) in section.relocations.as_slice().iter().enumerate() {
        let offset = relocation.offset;
        if offset <= byte
            && byte < offset.saturating_add(4)
            && offset % 4 != 0
            && let Some(row) = row_of(Machine::AArch64, relocation.number)
            && matches!(row.size, RelocationSize::BitMasking(_))
        {
            let even = offset / 4 * 4;
            out.push_str("likely: ");
            push_item(out, Item::Input(at));
            writeln!(
                out,
                "/relocations/{i}/offset is {offset}, expected a multiple of 4 (such as {even}): an instruction has four bytes"
            );
        }
    }
}

/// Adds the numbers of a fault.
fn push_numbers(out: &mut Text, layout: &Layout, fault: Fault) {
    match fault {
        Fault::OutOfRange { value }
        | Fault::NoThunk { value }
        | Fault::ThunkOutOfRange { value }
        | Fault::FrameOffsetOverflow { value }
        | Fault::PltTooFar { value } => {
            let signed = value.cast_signed();
            write!(out, "; value {signed}");
        }
        Fault::TlsOutOfSegment { value } => {
            let (start, end) = (layout.tls.start, layout.tls.end);
            write!(out, "; address {value}, expected from {start} to {end}");
        }
        Fault::OverlappingSites { byte } => write!(out, "; byte {byte}"),
        Fault::IfuncAddend { addend } => write!(out, "; addend {addend}, expected 0"),
        Fault::ThunkAddend { addend } => write!(out, "; addend {addend}, expected 0"),
        _ => {}
    }
}

/// The first symbol of a file whose slots are refused with that value.
fn refused_slot(layout: &Layout, at: At, fault: Fault) -> Option<usize> {
    let found = layout.groups.as_slice().get(at.group?)?;
    let file = found.files.as_slice().get(at.file?)?;
    let first = file.first_symbol.0;
    for (i, symbol) in layout.own_symbols(file).iter().enumerate() {
        let is_it = match (SymbolSlots::of(layout, symbol).fault(), fault) {
            (Some(SlotFault::TlsOutOfSegment { value: own }), Fault::TlsOutOfSegment { value }) => {
                own == value
            }
            (Some(SlotFault::PltTooFar { value: own }), Fault::PltTooFar { value }) => own == value,
            _ => false,
        };
        if is_it {
            return Some(first.saturating_add(i));
        }
    }
    None
}

/// Adds the place of a fault that is in no input section.
fn push_outside(out: &mut Text, layout: &Layout, fault: Fault, at: At) {
    if let Fault::ThunkOutOfRange { value } = fault
        && let Some(thunk) = refused_thunk(layout, at, value)
    {
        out.push_str("where: ");
        push_item(out, thunk);
        out.push_str("\nfound: ");
        return push_found(out, layout, thunk);
    }
    let symbol = match fault {
        Fault::MissingResolution { symbol, .. } | Fault::StaticTlsDesc { symbol } => Some(symbol),
        _ => refused_slot(layout, at, fault),
    };
    if let Some(symbol) = symbol {
        write!(out, "where: /symbols/{symbol}/resolution\nfound: ");
        return push_decided(out, layout, symbol);
    }
    if let (Some(group), Some(file)) = (at.group, at.file) {
        let item = Item::File(group, file);
        out.push_str("where: ");
        push_item(out, item);
        out.push_str("\nfound: ");
        push_found(out, layout, item);
    }
}

/// Adds the place of a fault in an input section, and what the plan has there.
fn push_inside(out: &mut Text, layout: &Layout, at: SectionPlace, offset: Option<u64>) {
    let Some(section) = section_at(layout, at) else {
        return;
    };
    out.push_str("where: ");
    push_item(out, Item::Input(at));
    out.push_str("/relocations");
    let index = match offset {
        Some(offset) => relocation_at(section, offset),
        None => None,
    };
    match index {
        Some(index) => {
            write!(out, "/{index}\nfound: ");
            push_relocation(out, layout, section, index)
        }
        None => {
            out.push_str("\nfound: ");
            push_name(out, section.name.as_slice())
        }
    }
}

/// Adds that a relocation type is one of the other machine.
fn push_other_machine(out: &mut Text, layout: &Layout, number: u32) {
    let (other, word) = match layout.machine {
        Machine::X86_64 => (Machine::AArch64, "aarch64"),
        Machine::AArch64 => (Machine::X86_64, "x86_64"),
    };
    if row_of(layout.machine, number).is_none() && row_of(other, number).is_some() {
        write!(
            out,
            "likely: /machine is expected to be `{word}`, which has the type "
        );
        push_type(out, other, number);
        out.push_str("\n");
    }
}

/// Adds why a relocation, a slot, a copy or a symbol is refused: what is wrong, its path, what the plan has there, and the remedy.
pub(crate) fn push_fault(out: &mut Text, layout: &Layout, fault: Fault, at: At) {
    let place = match (at.group, at.file, at.section) {
        (Some(group), Some(file), Some(section)) => Some(SectionPlace {
            group,
            file,
            section,
        }),
        _ => None,
    };
    let is_debug = match place {
        Some(place) => match section_at(layout, place) {
            Some(section) => section.slot.is_debug(),
            None => false,
        },
        None => false,
    };
    let (what, remedy) = words_of(fault, is_debug);
    writeln!(out, "what: {what}");
    match (place, fault) {
        (Some(place), Fault::OverlappingSites { byte }) => push_overlap(out, layout, place, byte),
        (Some(place), _) => push_inside(out, layout, place, at.offset),
        (None, _) => push_outside(out, layout, fault, at),
    }
    push_numbers(out, layout, fault);
    if let Some(place) = place
        && matches!(fault, Fault::OutOfRange { .. } | Fault::NoThunk { .. })
    {
        push_range(out, layout, place, at.offset);
    }
    out.push_str("\n");
    push_lacking(out, layout, fault);
    if let (Some(place), Fault::OverlappingSites { byte }, Machine::AArch64) = (
        place,
        fault,
        layout.machine,
    ) {
        push_odd(out, layout, place, byte);
    }
    if let Fault::UnsupportedRelocation { number } = fault {
        push_other_machine(out, layout, number);
    }
    writeln!(out, "remedy: {remedy}");
}
