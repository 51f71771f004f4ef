//! Checks that sizes of parts are those that a resolution needs.
ghost use Rattle.std.specs.Prelude.{◌≡◌, ◌*◌, ◌≤◌, length};
ghost use Rattle.wild_records.specs.Relocations.{rela_size};
ghost use Rattle.wild_tables.specs.Verify.{open_setting, words_size, entries_size, content_sizes, needed_sizes, first_difference};

use wild_records::{Rela, Relr};
use wild_slot::{
    EntryPart, STUB_SIZE, Setting, SlotWord, SymbolSlots, WORD_SIZE, WordPart, count_entries,
    count_relr_slots, count_words, slot_of,
};
use wild_types::{Error, Machine, Options, OutputKind, Resolution, Tls, excessive, insufficient};

/// The number of roles that a part can have.
pub const ROLES: usize = 30;

/// The output's settings that slots depend on, with a TLS segment that contains every address.
fn open_setting(kind: OutputKind, options: &Options) -> Setting
    ensures { result ≡ open_setting kind options.now }
{
    Setting {
        kind,
        relr: options.relr,
        tls: Tls {
            start: 0,
            end: u64::MAX,
            align: 1,
        },
        thread_pointer: 0,
    }
}

/// The bytes of the words that belong to a part.
fn words_size(part: WordPart, options: &Options, place: u64, words: &[SlotWord]) -> u64
    requires { length words.now ≤ 5 }
    ensures { result ≡ words_size part options.now place words.now }
{
    (WORD_SIZE * count_words(part, options.relr, place, words)) as u64
}

/// The bytes of the RELA entries that belong to a part.
fn entries_size(part: EntryPart, options: &Options, place: u64, words: &[SlotWord]) -> u64
    requires { length words.now ≤ 5 }
    ensures { result ≡ entries_size part options.now place words.now }
{
    let count = count_entries(part, Machine::X86_64, options.relr, place, words);
    (Rela::SIZE * count) as u64
}

/// The bytes that slots need of each part, in the order of roles.
#[tactic(auto, unfolding(crate::specs::Verify::content_sizes))]
fn content_sizes(options: &Options, place: u64, slot: &SymbolSlots) -> [u64; ROLES]
    ensures { result ≡ content_sizes options.now place slot.now }
{
    let words = slot.words();
    let got = words_size(WordPart::Got, options, place, words);
    let block = words_size(WordPart::RelrGot, options, place, words);
    let stub = if slot.has_stub() { STUB_SIZE as u64 } else { 0 };
    let plt = entries_size(EntryPart::Plt, options, place, words);
    let relative = entries_size(EntryPart::Relative, options, place, words);
    let general = entries_size(EntryPart::General, options, place, words);
    let packed = (Relr::SIZE * count_relr_slots(options.relr, place, words)) as u64;
    [
        0, 0, 0, 0, 0, got, block, stub, plt, relative, general, packed, 0, 0, 0, 0, 0, 0, 0, 0, 0,
        0, 0, 0, 0, 0, 0, 0, 0, 0,
    ]
}

/// The bytes that a resolution's slots need of each part, in the order of roles.
fn needed_sizes(kind: OutputKind, options: &Options, resolution: &Resolution) -> [u64; ROLES]
    ensures { result ≡ needed_sizes kind options.now resolution.now }
{
    let slot = slot_of(&open_setting(kind, options), None, resolution);
    content_sizes(options, resolution.got_address.unwrap_or(0), &slot)
}

/// The fault of the first size that differs from what is needed.
fn first_difference(given: &[u64], needed: &[u64]) -> Result<(), Error>
    requires { length given.now ≡ length needed.now }
    ensures { result ≡ first_difference 0 given.now needed.now }
{
    for (part, size) in given.iter().enumerate() {
        let need = needed[part];
        if *size < need {
            return Err(insufficient(part, 0, *size, need));
        }
        if need < *size {
            return Err(excessive(part, 0, *size, need));
        }
    }
    Ok(())
}

/// Checks that the sizes of the parts, one for each role in order, are those that the slots of a resolution need. These are
/// its words, its stub, its RELA entries, and the RELR words of addresses outside `got_relr`. A thread-local symbol is
/// assumed to lie in the TLS segment, and the stub to be in range of its slot.
///
/// # Errors
///
/// `InsufficientAllocation` or `ExcessiveAllocation` for the first role whose size differs. Its part is the index of the
/// role, and its group is 0.
pub fn verify_resolution_allocation(
    kind: OutputKind,
    sizes: &[u64; ROLES],
    resolution: &Resolution,
    options: &Options,
) -> Result<(), Error>
    ensures { result ≡ first_difference 0 sizes.now (needed_sizes kind options.now resolution.now) }
{
    first_difference(sizes, &needed_sizes(kind, options, resolution))
}
