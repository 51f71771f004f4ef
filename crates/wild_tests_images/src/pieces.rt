//! The pieces of an image that each group writes, and the workers.
ghost use Rattle.std.specs.Prelude.{◌≡◌, ◌<◌, ◌≤◌};
ghost use Rattle.wild_types.specs.declared.kind.Machine.TheVariants as machine;

use crate::plans::layout_of;
use std::alloc::{AllocError, Global};
use std::marker::Brand;
use std::sync::atomic::{AtomicU64, Ordering};
use std::sync::ledger::{Blank, Ledger};
use std::test::*;
use std::thread::Threads;
use wild_crew::{Gate, JobResults, gather};
use wild_image::{
    Alone, ElfX86_64, GroupJob, GroupPiece, GroupWriter, Outcome, SizedOutput, Steps, Threaded,
    check_shares, write, write_gated, write_group,
};
use wild_plan::{Error, Layout, Part, well_formed};
use wild_sample_layouts::make_plan;
use wild_tests_plans::{LINKED, MOVED, PACKED, SLOTTED, SMALLEST, THREE, VERSIONED};

/// The piece of each group. `blank` names the ledger in which the steps are counted.
fn counted_pieces<L: Ledger, R: Threads + Sync>(
    rt: &R,
    alloc: Global,
    layout: &Layout,
    blank: Blank,
) -> Result<Vec<GroupPiece>, Fail>
    requires machine { layout.now.machine ≡ machine.X86_64 }
    requires name { blank.name ≡ L.name }
    requires parts { blank.parts ≡ L.parts }
    requires some { 0 < blank.parts }
{
    let mut steps = Steps::<L>::new(blank);
    let mut pieces = Vec::new(alloc);
    match (well_formed(layout), check_shares(layout)) {
        (Ok(()), Ok(())) => {
            for index in 0..layout.groups.len() {
                let piece = write_group::<ElfX86_64, L, _>(
                    &Threaded(rt),
                    alloc,
                    layout,
                    index,
                    &mut steps,
                )?;
                pieces.push(piece)?;
            }
            Ok(pieces)
        }
        _ => Err("no layout".into()),
    }
}

/// The piece of each group.
fn pieces_of<R: Threads + Sync>(
    rt: &R,
    alloc: Global,
    layout: &Layout,
) -> Result<Vec<GroupPiece>, Fail>
    requires { layout.now.machine ≡ machine.X86_64 }
{
    counted_pieces::<Brand, R>(rt, alloc, layout, Blank::new(1))
}

/// Whether part `i` of the image is the groups' pieces of it, one after the other, and nothing else.
fn has_part(layout: &Layout, i: usize, part: &Part, pieces: &[GroupPiece], image: &[u8]) -> bool {
    let mut rest = image.iter().skip(part.offset as usize);
    let mut count = 0u64;
    for piece in pieces {
        if let Some(bytes) = piece.parts.as_slice().get(i) {
            for byte in bytes.as_slice() {
                if rest.next() != Some(byte) {
                    return false;
                }
                count = count.saturating_add(1);
            }
        }
    }
    let size = if layout.takes_file_bytes(part.section) {
        part.size
    } else {
        0
    };
    count == size
}

/// How many relocations of each section the pieces count.
fn counts_of(alloc: Global, pieces: &[GroupPiece], sections: usize) -> Result<Vec<u64>, Fail> {
    let mut counts = vec![in alloc; 0u64; sections]?;
    for piece in pieces {
        for (section, count) in piece.counts.as_slice() {
            if let Some(sum) = counts.get_mut(*section as usize) {
                *sum = sum.saturating_add(*count);
            }
        }
    }
    Ok(counts)
}

/// Whether each part of the image is the groups' pieces of it.
fn has_parts(layout: &Layout, pieces: &[GroupPiece], image: &[u8]) -> bool {
    for (i, part) in layout.parts.as_slice().iter().enumerate() {
        if !has_part(layout, i, part, pieces, image) {
            return false;
        }
    }
    true
}

/// Whether the pieces of all groups are the image.
fn are_pieces(
    rt: &(impl Threads + Sync),
    alloc: Global,
    layout: &Layout,
    image: &SizedOutput,
) -> Result<bool, Fail>
    requires { layout.now.machine ≡ machine.X86_64 }
{
    let pieces = pieces_of(rt, alloc, layout)?;
    let counts = counts_of(alloc, pieces.as_slice(), image.counts.len())?;
    Ok(
        pieces.len() == layout.groups.len()
            && has_parts(layout, pieces.as_slice(), image.out.as_slice())
            && counts.as_slice() == image.counts.as_slice(),
    )
}

/// The image of a layout by one worker.
fn image_by_one_worker(
    rt: &(impl Threads + Sync),
    alloc: Global,
    layout: &Layout,
) -> Result<SizedOutput, Error>
    requires { layout.now.machine ≡ machine.X86_64 }
{
    write::<ElfX86_64, _>(&Threaded(rt), alloc, layout, 1)
}

#[test]
fn pieces_of_groups(rt: HostRuntime) -> Result<(), Fail> {
    for plan in [SMALLEST, THREE, SLOTTED, MOVED, PACKED, LINKED, VERSIONED] {
        let layout = layout_of(rt.alloc(), plan)?;
        let image = image_by_one_worker(&rt, rt.alloc(), &layout)?;
        assert!(rt; are_pieces(&rt, rt.alloc(), &layout, &image)?);
    }
    Ok(())
}

/// Counts the workers that enter; the first waits for a second.
#[derive(Drop)]
struct MeetingGate {
    entered: AtomicU64,
    met: AtomicU64,
}

impl Gate for MeetingGate {
    fn enter(&self, _group: u32) {
        if self.entered.fetch_add(1, Ordering::SeqCst) > 0 {
            return;
        }
        for _ in 0..268435456u64 {
            if self.entered.load(Ordering::SeqCst) > 1 {
                self.met.store(1, Ordering::SeqCst);
                return;
            }
        }
    }
}

impl<'t, R: Threads + Sync> GroupWriter<ElfX86_64, MeetingGate> for Threaded<'t, R> {
    fn gather_batches(
        &self,
        alloc: Global,
        job: &GroupJob<ElfX86_64, Threaded<'t, R>>,
        sections: u32,
        workers: u32,
        gate: &MeetingGate,
    ) -> Result<JobResults<Outcome>, AllocError> {
        gather(self.0, alloc, job, sections, workers, gate)
    }
}

/// Two threads are in the gate at the same time.
#[test]
fn two_workers_meet(rt: HostRuntime) -> Result<(), Fail> {
    let layout = make_plan(rt.alloc(), 2)?;
    let gate = MeetingGate {
        entered: AtomicU64::new(0),
        met: AtomicU64::new(0),
    };
    let image = write_gated::<ElfX86_64, _, _>(&Threaded(&rt), rt.alloc(), &layout, 2, &gate)?;
    assert!(rt; image.out.len() == 472 && gate.met.load(Ordering::SeqCst) == 1);
    Ok(())
}

/// Whether the calling thread alone writes the image, with that number of workers.
fn is_written_alone(
    alloc: Global,
    layout: &Layout,
    workers: u8,
    image: &SizedOutput,
) -> Result<bool, Fail>
    requires machine { layout.now.machine ≡ machine.X86_64 }
    requires workers { (1 ≤ workers) × (workers ≤ 64) }
{
    let output = write::<ElfX86_64, _>(&Alone, alloc, layout, workers)?;
    Ok(
        output.out.as_slice() == image.out.as_slice()
            && output.counts.as_slice() == image.counts.as_slice(),
    )
}

/// Threads and the calling thread alone write the same image.
#[test]
fn images_of_executors(rt: HostRuntime) -> Result<(), Fail> {
    for plan in [SMALLEST, THREE, SLOTTED, LINKED] {
        let layout = layout_of(rt.alloc(), plan)?;
        let image = write::<ElfX86_64, _>(&Threaded(&rt), rt.alloc(), &layout, 2)?;
        assert!(rt; is_written_alone(rt.alloc(), &layout, 1, &image)?);
        assert!(rt; is_written_alone(rt.alloc(), &layout, 3, &image)?);
    }
    Ok(())
}
