//! The verdict on an image.
ghost use Rattle.std.specs.Prelude.{◌≡◌, IfOk};
ghost use Rattle.wild_checker.specs.declared.verdict.Verdict.TheVariants.{Yes};
ghost use Rattle.wild_checker.specs.Verdict.{sections_verdict, IsSegmentVerdict, IsRefusal, IsOutlined, IsAnswer, HoldsEverywhere};

use crate::files::file_table;
use crate::laws::yes_is_founded;
use crate::loaded::LoadedRef;
use crate::outline::outline_of;
pub use crate::question::Site;
use crate::question::ask_groups;
use crate::sections::{ChangedByte, DoubtfulReference};
use crate::segments::segment_doubt;
use crate::symbols::are_ordered;
use std::alloc::{AllocError, Global};
use wild_layout::numbers_fit;
use wild_loader::LoadFault;
use wild_terms::{Outline, TermMemory, load_terms};
use wild_types::Layout;

/// Why an image is doubted.
#[derive(Clone, Copy)]
pub enum Doubt {
    /// The output is a relocatable object, which is not loaded.
    Partial,
    /// The image is not loaded in some world.
    Load(LoadFault),
    /// The segment to load at that position is not in layout and image alike.
    Segment { index: usize },
    /// The byte is not the input's.
    Byte(Site),
    /// The reference does not hold, or is not decided.
    Reference(Site),
}

/// The verdict on an image.
#[derive(Clone, Copy)]
pub enum Verdict {
    /// The image is right in every legal world.
    Yes,
    /// It is doubted.
    No(Doubt),
}

/// The verdict on an image whose segments to load are the layout's.
fn sections_verdict(
    alloc: Global,
    layout: &Layout,
    outline: &Outline,
    memory: &TermMemory,
) -> Result<Verdict, AllocError>
    ensures { IfOk result (λ v. v ≡ sections_verdict layout.now outline.now memory.now) }
{
    let groups = layout.groups.as_slice();
    let ordered = are_ordered(layout);
    let files = file_table(alloc, layout, ordered)?;
    let loaded = LoadedRef {
        layout,
        outline,
        memory,
        ordered,
        files: files.as_slice(),
    };
    if let Some(site) = ask_groups(&ChangedByte { loaded }, groups) {
        return Ok(Verdict::No(Doubt::Byte(site)));
    }
    match ask_groups(&DoubtfulReference { loaded }, groups) {
        Some(site) => Ok(Verdict::No(Doubt::Reference(site))),
        None => Ok(Verdict::Yes),
    }
}

/// The verdict on an image that is read as terms.
fn loaded_verdict(
    alloc: Global,
    layout: &Layout,
    outline: &Outline,
    image: &[u8],
    memory: &TermMemory,
) -> Result<Verdict, LoadFault>
    ensures { IfOk result (λ v. IsSegmentVerdict layout.now outline.now image.now memory.now v) }
{
    match segment_doubt(alloc, layout, image)? {
        Some(index) => Ok(Verdict::No(Doubt::Segment { index })),
        None => Ok(sections_verdict(alloc, layout, outline, memory)?),
    }
}

/// The verdict on an image that is refused.
fn refused_verdict(fault: LoadFault) -> Result<Verdict, LoadFault>
    ensures { IfOk result (λ v. IsRefusal fault v) }
{
    match fault {
        LoadFault::OutOfMemory => Err(LoadFault::OutOfMemory),
        other => Ok(Verdict::No(Doubt::Load(other))),
    }
}

/// The verdict on an image that can be loaded at all.
fn outlined_verdict(alloc: Global, layout: &Layout, image: &[u8]) -> Result<Verdict, LoadFault>
    ensures { IfOk result (λ v. IsOutlined layout.now image.now v) }
{
    let outline = outline_of(alloc, layout)?;
    match load_terms(alloc, &outline, image) {
        Ok(memory) => loaded_verdict(alloc, layout, &outline, image, &memory),
        Err(fault) => refused_verdict(fault),
    }
}

/// The verdict, or why it is not reached.
fn find_verdict(alloc: Global, layout: &Layout, image: &[u8]) -> Result<Verdict, LoadFault>
    ensures { IfOk result (λ v. IsAnswer layout.now image.now v) }
{
    if layout.kind.is_partial_link() {
        return Ok(Verdict::No(Doubt::Partial));
    }
    outlined_verdict(alloc, layout, image)
}

/// Whether an image, whoever wrote it, is right in every legal world. References by symbols, stubs, slots, sizes and thread-local offsets
/// are decided, and x86-64 instructions that were rewritten alone. An image with another reference in memory is doubted there.
pub fn verify_image(alloc: Global, layout: &Layout, image: &[u8]) -> Result<Verdict, AllocError>
    ensures answer { IfOk result (λ v. IsAnswer layout.now image.now v) }
    ensures sound { IfOk result (λ v. v ≡ Yes → HoldsEverywhere layout.now image.now) }
{
    yes_is_founded();
    numbers_fit(layout);
    match find_verdict(alloc, layout, image) {
        Ok(found) => Ok(found),
        Err(_) => Err(AllocError),
    }
}
