//! Whether code that was rewritten has the effect that the instruction of the input requires.
//!
//! The code in memory is read by the templates of the loader's model. Its operand is compared with the value that the instruction's slot represents,
//! as a term: so code that computes an address relative to its own place is right at every base.
//! A template is one instruction or a sequence; only `nop` may follow it, because a linker fills up with it.
//! Read x86-64 psABI, "Linker Optimization", and Intel SDM, "RIP-Relative Addressing".
ghost use Rattle.std.specs.Prelude.{◌≡◌, ◌+◌, ◌≤◌, ◌^◌, ◌%◌, ◌<◌, [], length, option_map, take, IfSome};
ghost use Rattle.wild_words.specs.Words.{word};
ghost use Rattle.wild_loader.specs.Instruction.{are_idle, template_fills};
ghost use Rattle.wild_loader.specs.Rows.{template_of};
ghost use Rattle.wild_checker.specs.Loaded.{loaded_now};
ghost use Rattle.wild_checker.specs.Rewritten.{shape_of, sort_of, nop, code_action, code_bytes, same_deed, operand_term, is_no_difference, is_low, is_stub_in_slot, is_offset, is_required, is_operand, same_effect, is_rewrite, is_rewritten, bytes_after, next_cursor, begins_none, is_in_code, rewritten_start};

use crate::files::file_for;
use crate::instructions::{SlotInstruction, SlotUse, instruction_before};
use crate::loaded::LoadedRef;
use crate::references::{addend, knows_offsets};
use crate::slots::{is_at_stub, stub_term};
use crate::symbols::loaded_term;
use crate::threads::{may_be_zero, thread_term};
use wild_loader::{Action, Deed, Operand, Template, template_x86_64};
use wild_records::abi::relocation::{
    R_X86_64_PLTOFF64, R_X86_64_TLSDESC_CALL, R_X86_64_TLSGD, R_X86_64_TLSLD,
};
use wild_records::abi::section::SHF_EXECINSTR;
use wild_terms::{Atom, Outline, Term, TermMemory};
use wild_types::{File, InputRelocation, InputSection, Machine, Symbol, SymbolIndex, field_bytes};

/// The one-byte instruction that does nothing (Intel SDM, "NOP").
const NOP: u8 = 0x90;

// ---- code

/// Whether code has only instructions that do nothing.
fn is_idle(code: &[u8]) -> bool
    ensures { result ≡ are_idle nop [] code.now }
{
    for byte in code {
        if *byte != NOP {
            return false;
        }
    }
    true
}

/// Whether code is a template, with only instructions that do nothing after it.
fn is_filled(template: &Template, code: &[u8]) -> bool
    ensures { result ≡ template_fills nop (template_of template.now) code.now }
{
    let length = template.cells().len();
    length <= code.len() && template.is_match(code) && is_idle(&code[length..])
}

/// The action of code at an address, if only `nop` follows the longest instruction that it starts with.
fn code_action(address: u64, code: &[u8]) -> Option<Action>
    ensures { result ≡ code_action address code.now }
{
    let template = template_x86_64(code)?;
    if is_filled(&template, code) {
        Some(template.action(address, code))
    } else {
        None
    }
}

/// The bytes of a number, the lowest first.
fn bytes_of(number: u64) -> [u8; 8]
    ensures { result ≡ word 8 (number % 2 ^ 64) }
{
    number.to_le_bytes()
}

/// At most eight bytes of memory, if they are the same in every world; the other bytes of the array are not asked.
fn code_bytes(memory: &TermMemory, address: u64, count: usize) -> Option<[u8; 8]>
    ensures bytes { option_map (take count) result ≡ code_bytes memory.now address count }
    ensures few { IfSome result (λ bytes. count ≤ 8) }
{
    if count > 8 {
        return None;
    }
    let term = memory.term(address, count as u8)?;
    match term.atom {
        Atom::Zero => Some(bytes_of(term.plus)),
        _ => None,
    }
}

/// Whether two deeds are the same.
fn is_same_deed(a: Deed, b: Deed) -> bool
    ensures { result ≡ same_deed a b }
{
    match (a, b) {
        (Deed::Set(i), Deed::Set(j)) => i == j,
        (Deed::Add(i), Deed::Add(j)) => i == j,
        (Deed::Subtract(i), Deed::Subtract(j)) => i == j,
        (Deed::Compare(i), Deed::Compare(j)) => i == j,
        (Deed::Call, Deed::Call) => true,
        (Deed::Jump, Deed::Jump) => true,
        _ => false,
    }
}

/// A number that is an operand, as a term; `next` is the operand of the same code at the next address.
fn operand_term(outline: &Outline, operand: Operand, next: Operand) -> Option<Term>
    ensures { result ≡ operand_term outline.now operand next }
{
    match (operand, next) {
        (Operand::Number(n), Operand::Number(m)) => {
            let origin = if m == n {
                Term::number(0)
            } else {
                outline.based(0)
            };
            Some(origin.plus(n))
        }
        _ => None,
    }
}

// ---- what is required

/// Whether a difference is 0 in the low bits that an instruction of that width uses.
fn is_no_difference(width: u64, difference: Option<u64>) -> bool
    ensures { result ≡ is_no_difference width difference }
{
    match difference {
        Some(d) if width == 32 => d % (1 << 32) == 0,
        Some(d) => width == 64 && d == 0,
        None => false,
    }
}

/// Whether the low bits of a term are those of another in every world.
fn is_low(width: u64, x: Term, y: Option<Term>) -> bool
    ensures { result ≡ is_low width x y }
{
    match y {
        Some(y) => is_no_difference(width, y.minus(x)),
        None => false,
    }
}

/// Whether the stub's address is in a slot for a symbol's address.
fn is_stub_in_slot(
    loaded: &LoadedRef,
    file: &File,
    symbol: SymbolIndex,
    definition: &Symbol,
) -> bool
    ensures { result ≡ is_stub_in_slot (loaded_now loaded.now) file.now symbol definition.now }
{
    is_at_stub(loaded, file, symbol, definition) || definition.flags.needs_ifunc_got_for_address()
}

/// Whether a term is a symbol's offset from the thread pointer.
fn is_offset(
    loaded: &LoadedRef,
    file: &File,
    symbol: SymbolIndex,
    definition: &Symbol,
    width: u64,
    x: Term,
) -> bool
    ensures { result ≡ is_offset (loaded_now loaded.now) file.now symbol definition.now width x }
{
    is_low(width, x, thread_term(loaded, file, symbol, definition))
        || (may_be_zero(loaded, file, symbol, definition)
            && is_low(width, x, Some(Term::number(0))))
}

/// Whether a term is what the slot of a symbol represents.
fn is_required(
    loaded: &LoadedRef,
    file: &File,
    slot_use: SlotUse,
    symbol: SymbolIndex,
    width: u64,
    x: Term,
) -> bool
    ensures { result ≡ is_required (loaded_now loaded.now) file.now (sort_of slot_use) symbol width x }
{
    let symbols = loaded.layout.symbols.as_slice();
    let Some(definition) = symbols.get(loaded.layout.canonical(symbol).0) else {
        return false;
    };
    match slot_use {
        SlotUse::Branch => {
            is_low(width, x, loaded_term(loaded, file, symbol, definition))
                || is_low(width, x, stub_term(loaded, file, symbol))
        }
        SlotUse::Address => {
            is_low(width, x, loaded_term(loaded, file, symbol, definition))
                || (is_stub_in_slot(loaded, file, symbol, definition)
                    && is_low(width, x, stub_term(loaded, file, symbol)))
        }
        SlotUse::Offset => is_offset(loaded, file, symbol, definition, width, x),
        SlotUse::Descriptor => {
            knows_offsets(
                loaded.layout.machine,
                loaded.layout.kind,
                loaded.layout.options.relax,
            ) && is_offset(loaded, file, symbol, definition, width, x)
        }
    }
}

/// Whether an operand is known, and what the slot of a symbol represents.
fn is_operand(
    loaded: &LoadedRef,
    file: &File,
    slot_use: SlotUse,
    symbol: SymbolIndex,
    width: u64,
    operand: Option<Term>,
) -> bool
    ensures { result ≡ is_operand (loaded_now loaded.now) file.now (sort_of slot_use) symbol width operand }
{
    match operand {
        Some(x) => is_required(loaded, file, slot_use, symbol, width, x),
        None => false,
    }
}

/// Whether `count` bytes of code in memory have the effect that an instruction of the input at that address requires, in every world.
fn is_same_effect(
    loaded: &LoadedRef,
    file: &File,
    slot_use: SlotUse,
    symbol: Option<SymbolIndex>,
    address: u64,
    old: &[u8],
    count: usize,
) -> bool
    requires { address + 1 < 2 ^ 64 }
    ensures { result ≡ same_effect (loaded_now loaded.now) file.now (sort_of slot_use) symbol address old.now (code_bytes loaded.now.memory.now address count) }
{
    let Some(symbol) = symbol else {
        return false;
    };
    let Some(bytes) = code_bytes(loaded.memory, address, count) else {
        return false;
    };
    let new = &bytes[..count];
    let before = code_action(address, old);
    let after = code_action(address, new);
    let next = code_action(address + 1, new);
    match (before, after, next) {
        (Some(x), Some(y), Some(z)) => {
            let operand = operand_term(loaded.outline, y.operand, z.operand);
            is_same_deed(x.deed, y.deed)
                && x.width == y.width
                && is_operand(loaded, file, slot_use, symbol, y.width, operand)
        }
        _ => false,
    }
}

// ---- a walk over the relocations of a section

/// Where a walk over a section's relocations is.
#[derive(Clone, Copy)]
pub struct Cursor {
    /// The end of the last field.
    pub end: u128,
    /// No instruction of an earlier relocation has a byte at this offset or after it.
    pub clear: u128,
    /// The type of the last relocation that has a field.
    pub last: u32,
}

/// Before the first relocation.
pub(crate) const FIRST: Cursor = Cursor {
    end: 0,
    clear: 0,
    last: 0,
};

/// The number of bytes after a relocation's field that belong to the same instructions.
fn bytes_after(number: u32) -> u64
    ensures after { result ≡ bytes_after number }
    ensures few { result ≤ 5 }
{
    if number == R_X86_64_PLTOFF64 {
        5
    } else if number == R_X86_64_TLSDESC_CALL {
        2
    } else {
        0
    }
}

/// The walk after a relocation.
pub(crate) fn next_cursor(machine: Machine, cursor: Cursor, relocation: &InputRelocation) -> Cursor
    ensures { result ≡ next_cursor machine cursor relocation.now }
{
    let width = field_bytes(machine, relocation.number);
    let end = relocation.offset as u128 + width as u128;
    let last = if width == 0 {
        cursor.last
    } else {
        relocation.number
    };
    Cursor {
        end,
        clear: cursor
            .clear
            .max(end + bytes_after(relocation.number) as u128),
        last,
    }
}

/// Whether a relocation of that type begins no sequence.
fn begins_none(number: u32) -> bool
    ensures { result ≡ begins_none number }
{
    number != R_X86_64_TLSGD && number != R_X86_64_TLSLD
}

/// Whether a relocation is in code and in no sequence, and its addend only compensates for the origin of its field's distance.
fn is_in_code(
    loaded: &LoadedRef,
    section: &InputSection,
    cursor: Cursor,
    relocation: &InputRelocation,
) -> bool
    ensures { result ≡ is_in_code (loaded_now loaded.now) section.now cursor relocation.now }
{
    matches!(loaded.layout.machine, Machine::X86_64)
        && section.flags / SHF_EXECINSTR % 2 == 1
        && begins_none(cursor.last)
        && addend(relocation).wrapping_add(4) == 0
        && relocation.offset as u128 + 4 <= section.bytes.len() as u128
        && section.address as u128 + relocation.offset as u128 + 5 < 1 << 64
}

/// Whether the code in place of an instruction of the input has the effect that this requires.
fn is_rewrite(
    loaded: &LoadedRef,
    file: &File,
    section: &InputSection,
    relocation: &InputRelocation,
    instruction: &SlotInstruction,
    start: usize,
) -> bool
    requires inside { relocation.now.offset + 4 ≤ length section.now.bytes }
    requires before { start ≤ relocation.now.offset + 4 }
    requires low { section.now.address + relocation.now.offset + 5 < 2 ^ 64 }
    ensures { result ≡ is_rewrite (loaded_now loaded.now) file.now section.now relocation.now (shape_of instruction.now) start }
{
    let home = file_for(loaded, file, relocation.symbol);
    let end = relocation.offset as usize + 4;
    let old = &section.bytes.as_slice()[start..end];
    let address = section.address + start as u64;
    is_same_effect(
        loaded,
        home,
        instruction.slot_use,
        relocation.symbol,
        address,
        old,
        instruction.size(),
    )
}

/// Whether an instruction of the input that ends at an offset starts after all earlier ones, and was rewritten.
fn is_rewritten(
    loaded: &LoadedRef,
    file: &File,
    section: &InputSection,
    cursor: Cursor,
    relocation: &InputRelocation,
    instruction: &SlotInstruction,
) -> bool
    requires inside { relocation.now.offset + 4 ≤ length section.now.bytes }
    requires low { section.now.address + relocation.now.offset + 5 < 2 ^ 64 }
    ensures { result ≡ is_rewritten (loaded_now loaded.now) file.now section.now cursor relocation.now (shape_of instruction.now) (relocation.now.offset + 4) }
{
    let size = instruction.size();
    let end = relocation.offset as usize + 4;
    if size > end {
        return false;
    }
    let start = end - size;
    cursor.clear <= start as u128
        && is_rewrite(loaded, file, section, relocation, instruction, start)
}

/// The start of a relocation's instruction, if that was rewritten and has the effect that it requires.
#[tactic(auto, unfolding(crate::specs::Rewritten::rewritten_start))]
pub(crate) fn rewritten_start(
    loaded: &LoadedRef,
    file: &File,
    section: &InputSection,
    cursor: Cursor,
    relocation: &InputRelocation,
) -> Option<usize>
    ensures { result ≡ rewritten_start (loaded_now loaded.now) file.now section.now cursor relocation.now }
{
    if !is_in_code(loaded, section, cursor, relocation) {
        return None;
    }
    let end = relocation.offset as usize + 4;
    let instruction = instruction_before(relocation.number, section.bytes.as_slice(), end)?;
    if is_rewritten(loaded, file, section, cursor, relocation, &instruction) {
        Some(end - instruction.size())
    } else {
        None
    }
}
