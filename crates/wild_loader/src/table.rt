//! The x86-64 instructions that relocations refer to, and those that linkers write in their place, as data.
//!
//! Instructions differ in length and have prefixes, so templates are tried from the longest to the shortest.
//! A displacement is relative to the end of its instruction, which in a sequence is not the end of the template.
//! A `call` may have a prefix 67, which makes it as long as the `call` through a slot that it replaces.
//! Each sequence that calls `__tls_get_addr` is one template, because its parts have no meaning without each other.
//! REX2 (Intel APX) has a form for each instruction that REX has.
//! Read Intel SDM, volume 2; x86-64 psABI, "Procedure Linkage Table" and "Linker Optimization"; "ELF Handling For Thread-Local
//! Storage", "Thread-Local Storage Access Models".
ghost use Rattle.std.specs.Prelude.{◌≡◌, ◌++◌, map, option_map};
ghost use Rattle.wild_loader.specs.CodeX86_64.{no_prefix, rex, rex2, with_prefix};
ghost use Rattle.wild_loader.specs.InstructionX86_64.{whole_sequences, branches, short, templates_x86_64};
ghost use Rattle.wild_loader.specs.Effect.{first_match};
ghost use Rattle.wild_loader.specs.Rows.{template_of};

use crate::instruction::Cell::{self, Any, Digit, Is, Slot};
use crate::template::Operation::{
    Add, Call, CallDescriptor, Compare, Jump, Nothing, Set, SetThreadAddress, Subtract,
};
use crate::template::Place::{Absent, Immediate, Relative};
use crate::template::Prefix::{NoPrefix, Rex, Rex2};
use crate::template::Register::{Accumulator, Reg, Rm};
use crate::template::{Sort, Template};

/// Cells, one for each byte and four for a field; padded with cells up to the length of the longest template.
macro_rules! cells {
    (@ [$($done:expr,)*] [$($hole:tt)*]) => { [$($done,)* $(cells!(# $hole)),*] };
    (@ [$($done:expr,)*] [_ _ _ _ $($hole:tt)*] field $($more:tt)*) => {
        cells!(@ [$($done,)* Any, Any, Any, Any,] [$($hole)*] $($more)*)
    };
    (@ [$($done:expr,)*] [_ $($hole:tt)*] slot $($more:tt)*) => {
        cells!(@ [$($done,)* Slot,] [$($hole)*] $($more)*)
    };
    (@ [$($done:expr,)*] [_ $($hole:tt)*] ($cell:expr) $($more:tt)*) => {
        cells!(@ [$($done,)* $cell,] [$($hole)*] $($more)*)
    };
    (@ [$($done:expr,)*] [_ $($hole:tt)*] $byte:literal $($more:tt)*) => {
        cells!(@ [$($done,)* Is($byte),] [$($hole)*] $($more)*)
    };
    (# _) => { Any };
    ($($cell:tt)*) => { cells!(@ [] [_ _ _ _ _ _ _ _ _ _ _ _ _ _ _ _ _ _ _ _ _ _] $($cell)*) };
}

macro_rules! row {
    ($length:literal [$($cell:tt)*] $operation:expr, $register:expr, $operand:expr) => {
        Template {
            length: $length,
            cells: cells!($($cell)*),
            operation: $operation,
            register: $register,
            operand: $operand,
        }
    };
}

/// A prefix, an opcode, and a register with either `[rip + displacement]` or, with a digit, an immediate.
macro_rules! one_register {
    (NoPrefix $($form:tt)*) => { one_register!(@ 6 [] 2 NoPrefix $($form)*) };
    (Rex $($form:tt)*) => { one_register!(@ 7 [(Cell::From(0x48, 0x4f))] 3 Rex $($form)*) };
    (Rex2 $($form:tt)*) => { one_register!(@ 8 [0xd5 (Cell::From(0, 0x7f))] 4 Rex2 $($form)*) };
    (@ $length:literal [$($prefix:tt)*] $field:literal $name:ident $opcode:literal $sort:ident $operation:ident) => {
        row!($length [$($prefix)* $opcode slot field] $operation, Reg($name), Relative { sort: Sort::$sort, field: $field, end: $field + 4 })
    };
    (@ $length:literal [$($prefix:tt)*] $field:literal $name:ident $opcode:literal / $digit:literal $operation:ident) => {
        row!($length [$($prefix)* $opcode (Digit($digit)) field] $operation, Rm($name), Immediate { field: $field })
    };
}

/// `mov rax, fs:0` and the code after it: rax gets a thread address.
macro_rules! thread_address {
    ($length:literal [$($cell:tt)*] $operand:expr) => {
        row!($length [0x64 0x48 0x8b 0x04 0x25 0 0 0 0 $($cell)*] SetThreadAddress, Accumulator, $operand)
    };
}

/// Cells, `lea rdi, [rip + displacement]` with its field at an offset, and a call: rax gets the address of a pair's data.
macro_rules! pair_address {
    ($length:literal [$($front:tt)*] $field:literal [$($cell:tt)*]) => {
        row!($length [$($front)* 0x48 0x8d 0x3d field $($cell)*] SetThreadAddress, Accumulator, Relative { sort: Sort::Pair, field: $field, end: $field + 4 })
    };
}

/// An opcode followed by a displacement.
macro_rules! branch {
    ($length:literal [$($opcode:literal)*] $field:literal $sort:ident $operation:ident) => {
        row!($length [$($opcode)* field] $operation, Accumulator, Relative { sort: Sort::$sort, field: $field, end: $field + 4 })
    };
}

// Sequences, the longest first.
const SEQUENCES: [Template; 12] = [
    pair_address!(22 [] 3 [0x48 0xb8 field field 0x48 0x01 0xd8 0xff 0xd0]),
    thread_address!(22 [0x48 0x8d 0x80 field 0x90 0x90 0x90 0x90 0x90 0x90] Immediate { field: 12 }),
    thread_address!(22 [0x90 0x90 0x90 0x90 0x90 0x90 0x90 0x90 0x90 0x90 0x90 0x90 0x90] Absent),
    pair_address!(16 [0x66] 4 [0x66 0x66 0x48 0xe8 field]),
    pair_address!(16 [0x66] 4 [0x66 0x48 0xff 0x15 field]),
    thread_address!(16 [0x48 0x8d 0x80 field] Immediate { field: 12 }),
    thread_address!(16 [0x48 0x03 0x05 field] Relative { sort: Sort::Word, field: 12, end: 16 }),
    row!(16 [0xf3 0x0f 0x1e 0xfa 0xf2 0xff 0x25 field 0x0f 0x1f 0x44 0 0] Jump, Accumulator, Relative { sort: Sort::Word, field: 7, end: 11 }),
    pair_address!(13 [] 3 [0xff 0x15 field]),
    thread_address!(13 [0x90 0x90 0x90 0x90] Absent),
    pair_address!(12 [] 3 [0xe8 field]),
    row!(12 [0x66 0x66 0x66 0x64 0x48 0x8b 0x04 0x25 0 0 0 0] SetThreadAddress, Accumulator, Absent),
];

const IN_REX2: [Template; 9] = [
    one_register!(Rex2 0x8b Word Set),
    one_register!(Rex2 0x03 Word Add),
    one_register!(Rex2 0x2b Word Subtract),
    one_register!(Rex2 0x3b Word Compare),
    one_register!(Rex2 0x8d Address Set),
    one_register!(Rex2 0xc7 / 0 Set),
    one_register!(Rex2 0x81 / 0 Add),
    one_register!(Rex2 0x81 / 5 Subtract),
    one_register!(Rex2 0x81 / 7 Compare),
];

const IN_REX: [Template; 9] = [
    one_register!(Rex 0x8b Word Set),
    one_register!(Rex 0x03 Word Add),
    one_register!(Rex 0x2b Word Subtract),
    one_register!(Rex 0x3b Word Compare),
    one_register!(Rex 0x8d Address Set),
    one_register!(Rex 0xc7 / 0 Set),
    one_register!(Rex 0x81 / 0 Add),
    one_register!(Rex 0x81 / 5 Subtract),
    one_register!(Rex 0x81 / 7 Compare),
];

const WITHOUT_PREFIX: [Template; 9] = [
    one_register!(NoPrefix 0x8b Word Set),
    one_register!(NoPrefix 0x03 Word Add),
    one_register!(NoPrefix 0x2b Word Subtract),
    one_register!(NoPrefix 0x3b Word Compare),
    one_register!(NoPrefix 0x8d Address Set),
    one_register!(NoPrefix 0xc7 / 0 Set),
    one_register!(NoPrefix 0x81 / 0 Add),
    one_register!(NoPrefix 0x81 / 5 Subtract),
    one_register!(NoPrefix 0x81 / 7 Compare),
];

// Branches, and instructions without a field.
const OTHERS: [Template; 8] = [
    branch!(6 [0x67 0xe8] 2 Address Call),
    branch!(6 [0xff 0x15] 2 Word Call),
    branch!(6 [0xff 0x25] 2 Word Jump),
    branch!(5 [0xe8] 1 Address Call),
    branch!(5 [0xe9] 1 Address Jump),
    row!(2 [0xff 0x10] CallDescriptor, Accumulator, Absent),
    row!(2 [0x66 0x90] Nothing, Accumulator, Absent),
    row!(1 [0x90] Nothing, Accumulator, Absent),
];

/// The first template that matches the start of the bytes.
#[tactic(auto, unfolding(crate::specs::Effect::first_match))]
fn first_of(templates: &[Template], bytes: &[u8]) -> Option<Template>
    ensures { option_map template_of result ≡ first_match (map template_of templates.now) bytes.now }
{
    for template in templates {
        if template.is_match(bytes) {
            return Some(*template);
        }
    }
    None
}

fn sequence(bytes: &[u8]) -> Option<Template>
    ensures { option_map template_of result ≡ first_match whole_sequences bytes.now }
{
    first_of(&SEQUENCES, bytes)
}

fn template_after_rex2(bytes: &[u8]) -> Option<Template>
    ensures { option_map template_of result ≡ first_match (with_prefix rex2) bytes.now }
{
    first_of(&IN_REX2, bytes)
}

fn template_after_rex(bytes: &[u8]) -> Option<Template>
    ensures { option_map template_of result ≡ first_match (with_prefix rex) bytes.now }
{
    first_of(&IN_REX, bytes)
}

fn template_without_prefix(bytes: &[u8]) -> Option<Template>
    ensures { option_map template_of result ≡ first_match (with_prefix no_prefix) bytes.now }
{
    first_of(&WITHOUT_PREFIX, bytes)
}

fn other(bytes: &[u8]) -> Option<Template>
    ensures { option_map template_of result ≡ first_match (branches ++ short) bytes.now }
{
    first_of(&OTHERS, bytes)
}

/// The longest x86-64 template that matches the start of the bytes.
pub fn template_x86_64(bytes: &[u8]) -> Option<Template>
    ensures { option_map template_of result ≡ first_match templates_x86_64 bytes.now }
{
    sequence(bytes)
        .or(template_after_rex2(bytes))
        .or(template_after_rex(bytes))
        .or(template_without_prefix(bytes))
        .or(other(bytes))
}
