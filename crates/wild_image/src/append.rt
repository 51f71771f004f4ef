//! Copies the bytes of the groups from their buffers to their places in the image, of which `out` has the first bytes.
ghost use Rattle.std.specs.Prelude.{◌≡◌, ◌==◌, ◌&&◌, not, ◌+◌, ◌<◌, ◌≤◌, ◌^◌, ℕ, true, false, Some, if◌then◌else◌, length, take, drop, replicate, slice_get, OnOk, All};
ghost use Rattle.std.specs.List.{flat_map};
ghost use Rattle.wild_types.specs.declared.file.File.{File};
ghost use Rattle.wild_types.specs.declared.file.Group.{Group};
ghost use Rattle.wild_types.specs.FileRoles.{is_prelude, is_epilogue};
ghost use Rattle.wild_types.specs.Faults.{Answers};
ghost use Rattle.wild_placement.specs.PlacedSections.{of_last_file};
ghost use Rattle.wild_types.specs.Lookups.{image_size, is_header_only_at, is_header_only_part};
ghost use Rattle.wild_types.specs.FilePlaces.{given};
ghost use Rattle.wild_types.specs.FileThunks.{thunks_of};
ghost use Rattle.wild_layout.specs.Image.{unless_omitted, merged_bytes, front_piece, merged_and_identity_pieces, thunk_piece, thunk_pieces, of_first_file, shares_before, table_piece, table_pieces, group_pieces};
ghost use Rattle.wild_layout.specs.SectionPlaces.{FrontLies};
ghost use Rattle.wild_layout.specs.ThunkPlaces.{ThunkLies};
ghost use Rattle.wild_layout.specs.Thunks.{thunk_bytes, file_thunks};
ghost use Rattle.wild_image.specs.Pieces.{has_some, has_room, some_by, ranged_room, table_given, written, place_in, file_sections, sorted_owned, all_sorted, merged_and_identity_bytes, trailer_bytes, file_bytes, group_tables, group_files};
ghost use Rattle.wild_image.specs.Prefix.{place_in_prefix, overlay_prefix};
ghost use Rattle.wild_image.specs.Owners.{ranged_pieces, sorted_pieces, all_sorted_pieces, merged_piece, trailer_pieces, file_pieces_in_order};
ghost use Rattle.wild_image.specs.Append.{BeginsWith, HasRest, HasStarts, EachPartLies, RangedLies, SortedLies, SomeLies, MergedLies, FileLies, EachFileLies};
ghost use Rattle.wild_image.specs.Batches.{AreBatches, IsWithin, GivesBatch, HasBatch, batch_errors, batch_pieces};
ghost use Rattle.wild_image.specs.declared.job.Outcome.{Outcome};

use crate::batch::Batch;
use crate::buffer::GroupBytes;
use crate::job::Outcome;
use crate::marks::strings_size;
use crate::prefix::put_in_prefix;
use wild_placement::sorted_input;
use wild_sections::offset_of;
use wild_types::{
    Error, File, Group, InputSection, Layout, Merged, Part, Role, Slot, SortedSection, THUNK_SIZE,
    Thunk, has_role,
};

/// Whether there are bytes to write at the front of a part.
pub(crate) fn writes_front(layout: &Layout, part: usize, own: &[u8]) -> bool
    ensures { result ≡ (not (length own.now == 0) && not (is_header_only_part layout.now part)) }
{
    own.len() != 0 && !layout.is_header_only_part(part)
}

/// Whether a loaded, sorted or debug section has a size, and bytes of its own or an output section with data.
fn has_some(layout: &Layout, section: &InputSection) -> bool
    ensures { result ≡ has_some layout.now section.now }
{
    section.size != 0 && (!section.nobits || layout.has_data(layout.section_of(section.part)))
}

/// Whether `has_some` holds, and more than the header of the output section is written.
pub(crate) fn owns_room(layout: &Layout, section: &InputSection) -> bool
    ensures { result ≡ has_room layout.now section.now }
{
    has_some(layout, section) && !layout.is_header_only_part(section.part)
}

/// Whether a loaded or debug section, a relocation table or a section group has bytes in the image, as the plan gives its place.
fn has_range(layout: &Layout, section: &InputSection) -> bool
    ensures { result ≡ some_by section.now.slot layout.now section.now }
{
    match section.slot {
        Slot::Loaded | Slot::Debug => has_some(layout, section),
        Slot::Rela => !section.nobits && section.size != 0,
        Slot::Group => !section.nobits && section.bytes.len() != 0,
        _ => false,
    }
}

/// Whether `has_range` holds, and more than the header of the output section is written.
pub(crate) fn owns_range(layout: &Layout, section: &InputSection) -> bool
    ensures { result ≡ ranged_room layout.now section.now }
{
    has_range(layout, section) && !layout.is_header_only_part(section.part)
}

/// Copies the bytes of a section, the first of `bytes`, to their place if the section has some; returns the rest.
fn append_own<'b>(
    layout: &Layout,
    section: &InputSection,
    owns: bool,
    bytes: &'b [u8],
    out: &mut [u8],
) -> &'b [u8]
    requires own { owns ≡ true → section.now.size ≤ length bytes.now }
    requires offset { owns ≡ true → place_in layout.now section.now < 2 ^ 64 }
    ensures image { out.new ≡ (if owns then place_in_prefix (place_in layout.now section.now) (take section.now.size bytes.now) out.old else out.old) }
    ensures rest { result.now ≡ (if owns then drop section.now.size bytes.now else bytes.now) }
{
    if !owns {
        return bytes;
    }
    let start = offset_of(layout.parts.as_slice(), section.part, section.address) as usize;
    let (own, rest) = bytes.split_at(section.size as usize);
    put_in_prefix(out, start, own);
    rest
}

/// Copies the bytes of the sections of a file to their places; returns the rest.
fn append_sections<'b>(layout: &Layout, file: &File, bytes: &'b [u8], out: &mut [u8]) -> &'b [u8]
    requires lies { All (RangedLies layout.now file.now) file.now.sections }
    requires fits { image_size layout.now ≤ 2 ^ 62 }
    requires own { BeginsWith (file_sections layout.now file.now) bytes.now }
    ensures image { out.new ≡ overlay_prefix (ranged_pieces layout.now file.now) out.old }
    ensures rest { HasRest (file_sections layout.now file.now) bytes.now result.now }
{
    let mut rest = bytes;
    for section in file.sections.as_slice() {
        rest = append_own(layout, section, owns_range(layout, section), rest, out);
    }
    rest
}

/// Copies the bytes of one sorted input section to their place; returns the rest.
fn append_sorted_section<'b>(
    layout: &Layout,
    entry: &SortedSection,
    bytes: &'b [u8],
    out: &mut [u8],
) -> &'b [u8]
    requires lies { SortedLies layout.now entry.now }
    requires fits { image_size layout.now ≤ 2 ^ 62 }
    requires own { BeginsWith (sorted_owned layout.now entry.now) bytes.now }
    ensures image { out.new ≡ overlay_prefix (sorted_pieces layout.now entry.now) out.old }
    ensures rest { HasRest (sorted_owned layout.now entry.now) bytes.now result.now }
{
    match sorted_input(layout, *entry) {
        Some(input) => {
            let owns = owns_room(layout, input.section);
            append_own(layout, input.section, owns, bytes, out)
        }
        None => bytes,
    }
}

/// Copies the bytes of the sorted input sections to their places; returns the rest.
fn append_sorted<'b>(layout: &Layout, bytes: &'b [u8], out: &mut [u8]) -> &'b [u8]
    requires lies { All (SortedLies layout.now) layout.now.sorted }
    requires fits { image_size layout.now ≤ 2 ^ 62 }
    requires own { BeginsWith (all_sorted layout.now) bytes.now }
    ensures image { out.new ≡ overlay_prefix (all_sorted_pieces layout.now) out.old }
    ensures rest { HasRest (all_sorted layout.now) bytes.now result.now }
{
    let mut rest = bytes;
    for entry in layout.sorted.as_slice() {
        rest = append_sorted_section(layout, entry, rest, out);
    }
    rest
}

/// Copies bytes to the front of a part.
#[tactic(auto, using(crate::proofs::FrontLemmas::front_part, crate::proofs::FrontLemmas::front_put))]
fn put_some(layout: &Layout, part: usize, own: &[u8], out: &mut [u8])
    requires some { 1 ≤ length own.now }
    requires written { is_header_only_part layout.now part ≡ false }
    requires lies { FrontLies layout.now part own.now }
    ensures { out.new ≡ overlay_prefix (front_piece layout.now part own.now) out.old }
{
    let front = layout.parts.as_slice()[part].offset as usize;
    put_in_prefix(out, front, own);
}

/// Copies bytes to the front of a part, if there are some and the part is written.
fn put_front(layout: &Layout, part: usize, own: &[u8], out: &mut [u8])
    requires { SomeLies layout.now part own.now }
    ensures { out.new ≡ overlay_prefix (front_piece layout.now part own.now) out.old }
{
    if !writes_front(layout, part, own) {
        return;
    }
    put_some(layout, part, own, out);
}

/// The number of bytes of a merged string section.
pub(crate) fn merged_size(merged: &Merged) -> usize
    requires { length (merged_bytes merged.now) < 2 ^ 64 }
    ensures { result ≡ length (merged_bytes merged.now) }
{
    strings_size(merged.strings.as_slice()) as usize
}

/// Copies the first of `bytes`, merged strings, to the front of their part; returns the rest.
fn append_merged<'b>(layout: &Layout, merged: &Merged, bytes: &'b [u8], out: &mut [u8]) -> &'b [u8]
    requires lies { MergedLies layout.now merged.now }
    requires own { BeginsWith (merged_bytes merged.now) bytes.now }
    ensures image { out.new ≡ overlay_prefix (front_piece layout.now merged.now.part (merged_bytes merged.now)) out.old }
    ensures rest { HasRest (merged_bytes merged.now) bytes.now result.now }
{
    let (own, rest) = bytes.split_at(merged_size(merged));
    put_front(layout, merged.part, own, out);
    rest
}

/// Copies all merged strings to their parts; returns the rest.
fn append_strings<'b>(layout: &Layout, bytes: &'b [u8], out: &mut [u8]) -> &'b [u8]
    requires lies { All (MergedLies layout.now) layout.now.merged }
    requires own { BeginsWith (flat_map merged_bytes layout.now.merged) bytes.now }
    ensures image { out.new ≡ overlay_prefix (flat_map (merged_piece layout.now) layout.now.merged) out.old }
    ensures rest { HasRest (flat_map merged_bytes layout.now.merged) bytes.now result.now }
{
    let mut rest = bytes;
    for merged in layout.merged.as_slice() {
        rest = append_merged(layout, merged, rest, out);
    }
    rest
}

/// Copies the output's identity, the first of `bytes`, to its part; returns the rest.
fn append_identity<'b>(layout: &Layout, bytes: &'b [u8], out: &mut [u8]) -> &'b [u8]
    requires lies { SomeLies layout.now layout.now.identity.part layout.now.identity.bytes }
    requires own { BeginsWith layout.now.identity.bytes bytes.now }
    ensures image { out.new ≡ overlay_prefix (front_piece layout.now layout.now.identity.part layout.now.identity.bytes) out.old }
    ensures rest { HasRest layout.now.identity.bytes bytes.now result.now }
{
    let (own, rest) = bytes.split_at(layout.identity.bytes.len());
    put_front(layout, layout.identity.part, own, out);
    rest
}

/// Copies the merged strings and the text that identifies the linker (`identity` of the layout) to their parts; returns the rest. In a
/// group's buffer they follow the sections of the first file.
fn append_merged_and_identity<'b>(layout: &Layout, bytes: &'b [u8], out: &mut [u8]) -> &'b [u8]
    requires merged { All (MergedLies layout.now) layout.now.merged }
    requires identity { SomeLies layout.now layout.now.identity.part layout.now.identity.bytes }
    requires own { BeginsWith (merged_and_identity_bytes layout.now) bytes.now }
    ensures image { out.new ≡ overlay_prefix (merged_and_identity_pieces layout.now) out.old }
    ensures rest { HasRest (merged_and_identity_bytes layout.now) bytes.now result.now }
{
    let rest = append_strings(layout, bytes, out);
    append_identity(layout, rest, out)
}

/// Copies the sorted input sections to their places, if this is the last file, which writes them; returns the rest.
fn append_last<'b>(layout: &Layout, file: &File, bytes: &'b [u8], out: &mut [u8]) -> &'b [u8]
    requires lies { is_epilogue file.now.role ≡ true → All (SortedLies layout.now) layout.now.sorted }
    requires fits { image_size layout.now ≤ 2 ^ 62 }
    requires own { BeginsWith (of_last_file file.now (all_sorted layout.now)) bytes.now }
    ensures image { out.new ≡ overlay_prefix (of_last_file file.now (all_sorted_pieces layout.now)) out.old }
    ensures rest { HasRest (of_last_file file.now (all_sorted layout.now)) bytes.now result.now }
{
    if file.role.is_epilogue() {
        return append_sorted(layout, bytes, out);
    }
    bytes
}

/// Copies merged strings and the identity to their places, if this is the first file, which writes them; returns the rest.
fn append_first<'b>(layout: &Layout, file: &File, bytes: &'b [u8], out: &mut [u8]) -> &'b [u8]
    requires merged { is_prelude file.now.role ≡ true → All (MergedLies layout.now) layout.now.merged }
    requires identity { is_prelude file.now.role ≡ true → SomeLies layout.now layout.now.identity.part layout.now.identity.bytes }
    requires own { BeginsWith (of_first_file file.now (merged_and_identity_bytes layout.now)) bytes.now }
    ensures image { out.new ≡ overlay_prefix (of_first_file file.now (merged_and_identity_pieces layout.now)) out.old }
    ensures rest { HasRest (of_first_file file.now (merged_and_identity_bytes layout.now)) bytes.now result.now }
{
    if file.role.is_prelude() {
        return append_merged_and_identity(layout, bytes, out);
    }
    bytes
}

/// Copies what only the last or only the first file writes; returns the rest.
fn append_trailer<'b>(layout: &Layout, file: &File, bytes: &'b [u8], out: &mut [u8]) -> &'b [u8]
    requires lies { FileLies layout.now file.now }
    requires fits { image_size layout.now ≤ 2 ^ 62 }
    requires own { BeginsWith (trailer_bytes layout.now file.now) bytes.now }
    ensures image { out.new ≡ overlay_prefix (trailer_pieces layout.now file.now) out.old }
    ensures rest { HasRest (trailer_bytes layout.now file.now) bytes.now result.now }
{
    let rest = append_last(layout, file, bytes, out);
    append_first(layout, file, rest, out)
}

/// Copies a thunk, the first of `bytes`, to its place; returns the rest.
fn append_thunk<'b>(layout: &Layout, thunk: &Thunk, bytes: &'b [u8], out: &mut [u8]) -> &'b [u8]
    requires lies { ThunkLies layout.now thunk.now }
    requires fits { image_size layout.now ≤ 2 ^ 62 }
    requires own { BeginsWith (thunk_bytes layout.now thunk.now) bytes.now }
    ensures image { out.new ≡ overlay_prefix (thunk_piece layout.now thunk.now) out.old }
    ensures rest { HasRest (thunk_bytes layout.now thunk.now) bytes.now result.now }
{
    let at = offset_of(layout.parts.as_slice(), layout.primary_part, thunk.address);
    let (own, rest) = bytes.split_at(THUNK_SIZE as usize);
    put_in_prefix(out, at as usize, own);
    rest
}

/// Copies the thunks of a file to their places; returns the rest.
fn append_all_thunks<'b>(layout: &Layout, file: &File, bytes: &'b [u8], out: &mut [u8]) -> &'b [u8]
    requires lies { All (ThunkLies layout.now) (thunks_of layout.now file.now) }
    requires fits { image_size layout.now ≤ 2 ^ 62 }
    requires own { BeginsWith (file_thunks layout.now file.now) bytes.now }
    ensures image { out.new ≡ overlay_prefix (flat_map (thunk_piece layout.now) (thunks_of layout.now file.now)) out.old }
    ensures rest { HasRest (file_thunks layout.now file.now) bytes.now result.now }
{
    let mut rest = bytes;
    for thunk in layout.thunks_of(file) {
        rest = append_thunk(layout, thunk, rest, out);
    }
    rest
}

/// Copies the thunks of a file to their places, unless their output section is omitted; returns the rest.
fn append_thunks<'b>(layout: &Layout, file: &File, bytes: &'b [u8], out: &mut [u8]) -> &'b [u8]
    requires lies { is_header_only_part layout.now layout.now.primary_part ≡ false → All (ThunkLies layout.now) (thunks_of layout.now file.now) }
    requires fits { image_size layout.now ≤ 2 ^ 62 }
    requires own { BeginsWith (unless_omitted layout.now layout.now.primary_part (file_thunks layout.now file.now)) bytes.now }
    ensures image { out.new ≡ overlay_prefix (thunk_pieces layout.now file.now) out.old }
    ensures rest { HasRest (unless_omitted layout.now layout.now.primary_part (file_thunks layout.now file.now)) bytes.now result.now }
{
    if layout.is_header_only_part(layout.primary_part) {
        return bytes;
    }
    append_all_thunks(layout, file, bytes, out)
}

/// Copies the sections of a file and its thunks to their places; returns the rest.
fn append_file<'b>(layout: &Layout, file: &File, bytes: &'b [u8], out: &mut [u8]) -> &'b [u8]
    requires lies { FileLies layout.now file.now }
    requires fits { image_size layout.now ≤ 2 ^ 62 }
    requires own { BeginsWith (file_bytes layout.now file.now) bytes.now }
    ensures image { out.new ≡ overlay_prefix (file_pieces_in_order layout.now file.now) out.old }
    ensures rest { HasRest (file_bytes layout.now file.now) bytes.now result.now }
{
    let after = append_sections(layout, file, bytes, out);
    let rest = append_trailer(layout, file, after, out);
    append_thunks(layout, file, rest, out)
}

/// Copies the bytes of a group's files to their places; returns the rest.
#[tactic(auto, unfolding(crate::specs::Pieces::group_files))]
fn append_files<'b>(layout: &Layout, group: &Group, bytes: &'b [u8], out: &mut [u8]) -> &'b [u8]
    requires lies { All (FileLies layout.now) group.now.files }
    requires fits { image_size layout.now ≤ 2 ^ 62 }
    requires own { BeginsWith (group_files layout.now group.now) bytes.now }
    ensures image { out.new ≡ overlay_prefix (flat_map (file_pieces_in_order layout.now) group.now.files) out.old }
    ensures rest { HasRest (group_files layout.now group.now) bytes.now result.now }
{
    let mut rest = bytes;
    for file in group.files.as_slice() {
        rest = append_file(layout, file, rest, out);
    }
    rest
}

/// The number of bytes of tables that a group writes of its share of part `i`: 0 for a raw part, which holds input sections
/// (`append_files` copies these), and 0 if only the header of the part's section is written.
pub(crate) fn written_size(layout: &Layout, part: &Part, group: &Group, i: usize) -> u64
    ensures { result ≡ written layout.now part.now (given i group.now) }
{
    let size = group.given(i);
    if size == 0 || has_role(Role::Raw, part) || layout.is_header_only_at(part.section) {
        0
    } else {
        size
    }
}

/// Copies what group `index` contributes to part i, the first `size` of `bytes`, into the image, `start` bytes after the part's offset:
/// after what the groups before it contribute. Returns the rest.
fn append_table<'b>(
    layout: &Layout,
    index: usize,
    group: &Group,
    i: usize,
    part: &Part,
    size: u64,
    bytes: &'b [u8],
    start: u64,
    out: &mut [u8],
) -> &'b [u8]
    requires part { slice_get layout.now.parts i ≡ Some part.now }
    requires parts { EachPartLies layout.now }
    requires group { slice_get layout.now.groups index ≡ Some group.now }
    requires size { size ≡ written layout.now part.now (given i group.now) }
    requires start { start ≡ written layout.now part.now (shares_before layout.now i index) }
    requires own { BeginsWith (table_given layout.now group.now part.now) bytes.now }
    requires fits { image_size layout.now ≤ 2 ^ 62 }
    ensures image { out.new ≡ overlay_prefix (table_piece layout.now index group.now i part.now) out.old }
    ensures rest { HasRest (table_given layout.now group.now part.now) bytes.now result.now }
{
    if size == 0 {
        return bytes;
    }
    let (own, rest) = bytes.split_at(size as usize);
    put_in_prefix(out, (part.offset + start) as usize, own);
    rest
}

/// Copies what group `index` contributes to each part, and advances each part's start past it; returns the rest. Stops early if
/// `bytes` is empty.
fn append_tables<'b>(
    layout: &Layout,
    index: usize,
    group: &Group,
    bytes: &'b [u8],
    starts: &mut [u64],
    out: &mut [u8],
) -> &'b [u8]
    requires lies { EachPartLies layout.now }
    requires group { slice_get layout.now.groups index ≡ Some group.now }
    requires own { BeginsWith (group_tables layout.now group.now) bytes.now }
    requires starts { HasStarts layout.now index starts.old }
    requires fits { image_size layout.now ≤ 2 ^ 62 }
    ensures image { out.new ≡ overlay_prefix (table_pieces layout.now index group.now) out.old }
    ensures rest { HasRest (group_tables layout.now group.now) bytes.now result.now }
    ensures starts { HasStarts layout.now (index + 1) starts.new }
{
    if bytes.is_empty() {
        return bytes;
    }
    let mut rest = bytes;
    for (i, part) in layout.parts.as_slice().iter().enumerate() {
        let size = written_size(layout, part, group, i);
        rest = append_table(layout, index, group, i, part, size, rest, starts[i], out);
        starts[i] += size;
    }
    rest
}

/// Copies all bytes of a group into the image: what it contributes to each part to the part's start, which advances past it, and the bytes
/// of its files.
pub(crate) fn append_group(
    layout: &Layout,
    index: usize,
    group: &Group,
    bytes: &GroupBytes,
    starts: &mut [u64],
    out: &mut [u8],
)
    requires inputs { All (FileLies layout.now) group.now.files }
    requires lies { EachPartLies layout.now }
    requires group { slice_get layout.now.groups index ≡ Some group.now }
    requires tables { bytes.now.tables ≡ group_tables layout.now group.now }
    requires files { bytes.now.files ≡ group_files layout.now group.now }
    requires starts { HasStarts layout.now index starts.old }
    requires fits { image_size layout.now ≤ 2 ^ 62 }
    ensures { out.new ≡ overlay_prefix (group_pieces layout.now index group.now) out.old }
{
    append_tables(layout, index, group, bytes.tables.as_slice(), starts, out);
    append_files(layout, group, bytes.files.as_slice(), out);
}

/// Copies all bytes of a batch into the image, and advances the parts' starts past its contributions.
fn append_batch(
    layout: &Layout,
    batch: &Batch,
    bytes: &GroupBytes,
    starts: &mut [u64],
    out: &mut [u8],
)
    requires inputs { All (λ (g : Group). All (FileLies layout.now) g.files) batch.now.groups.now }
    requires lies { EachPartLies layout.now }
    requires within { IsWithin layout.now.groups batch.now }
    requires small { batch.now.first + length batch.now.groups.now < 2 ^ 64 }
    requires bytes { HasBatch layout.now batch.now bytes.now }
    requires starts { HasStarts layout.now batch.now.first starts.old }
    requires fits { image_size layout.now ≤ 2 ^ 62 }
    ensures image { out.new ≡ overlay_prefix (batch_pieces layout.now batch.now) out.old }
    ensures starts { HasStarts layout.now (batch.now.first + length batch.now.groups.now) starts.new }
{
    let mut tables = bytes.tables.as_slice();
    let mut files = bytes.files.as_slice();
    for (i, group) in batch.groups.iter().enumerate() {
        let index = batch.first + i;
        tables = append_tables(layout, index, group, tables, starts, out);
        files = append_files(layout, group, files, out);
    }
}

/// Copies the bytes of all batches into the image, or returns the first fault in the order of the groups.
pub(crate) fn append_all(
    layout: &Layout,
    batches: &[Batch],
    outcomes: &[Outcome],
    starts: &mut [u64],
    out: &mut [u8],
) -> Result<(), Error>
    requires inputs { EachFileLies layout.now }
    requires lies { EachPartLies layout.now }
    requires few { length layout.now.groups < 2 ^ 32 }
    requires batches { AreBatches layout.now.groups batches.now }
    requires starts { starts.old ≡ replicate (length layout.now.parts) 0 }
    requires count { length outcomes.now ≡ length batches.now }
    requires each { (i : ℕ) (o : Outcome) → slice_get outcomes.now i ≡ Some o → GivesBatch layout.now batches.now i o.bytes }
    requires fits { image_size layout.now ≤ 2 ^ 62 }
    ensures faults { Answers result (flat_map (batch_errors layout.now) batches.now) }
    ensures image { OnOk result (out.new ≡ overlay_prefix (flat_map (batch_pieces layout.now) batches.now) out.old) }
{
    for (i, batch) in batches.iter().enumerate() {
        match &outcomes[i].bytes {
            Ok(bytes) => append_batch(layout, batch, bytes, starts, out),
            Err(error) => return Err(*error),
        }
    }
    Ok(())
}
