//! Thunks, which extend branches of a file to targets out of their range.
ghost use Rattle.std.specs.Prelude.{◌≡◌, ◌++◌, Some, IfErr, IfOk, OnOk};
ghost use Rattle.std.specs.List.{flat_map};
ghost use Rattle.wild_types.specs.Faults.{Answers};
ghost use Rattle.wild_types.specs.FileThunks.{thunks_of};
ghost use Rattle.wild_layout.specs.Faults.{at_file, thunk_error, thunk_errors};
ghost use Rattle.wild_layout.specs.Image.{unless_omitted};
ghost use Rattle.wild_layout.specs.Thunks.{thunk_target, thunk_bytes, thunk_fault, file_thunks};

use crate::part_bytes::PartBytes;
use wild_relax::Arch;
use wild_relax::aarch64::write_thunk;
use wild_sections::{InputPlace, Resolved, raw_address, stub_of};
use wild_types::{Error, Fault, File, THUNK_SIZE, Thunk};

/// The target of a thunk: its symbol's PLT stub, or without one its address.
fn thunk_target<A: Arch>(resolved: &Resolved<A>, thunk: &Thunk) -> Result<u64, Fault>
    ensures { result ≡ thunk_target resolved.now.layout.now thunk.now }
{
    match stub_of(resolved.layout, thunk.symbol) {
        Some(stub) => Ok(stub),
        None => raw_address(resolved, Some(thunk.symbol)),
    }
}

/// The bytes of a thunk, or why it cannot be written.
fn thunk_code<A: Arch>(
    resolved: &Resolved<A>,
    thunk: &Thunk,
) -> Result<[u8; THUNK_SIZE as usize], Fault>
    ensures fault { IfErr result (λ f. thunk_fault resolved.now.layout.now thunk.now ≡ Some f) }
    ensures none { OnOk result (thunk_fault resolved.now.layout.now thunk.now ≡ None) }
    ensures bytes { IfOk result (λ code. code ≡ thunk_bytes resolved.now.layout.now thunk.now) }
{
    let target = thunk_target(resolved, thunk)?;
    let mut code = [0; THUNK_SIZE as usize];
    match write_thunk(thunk.address, target, &mut code) {
        Ok(()) => Ok(code),
        Err(far) => Err(Fault::ThunkOutOfRange { value: far.value }),
    }
}

/// Appends the bytes of a thunk, or returns why it cannot be written.
fn add_thunk<A: Arch>(
    resolved: &Resolved<A>,
    place: InputPlace,
    thunk: &Thunk,
    bytes: &mut PartBytes,
) -> Result<(), Error>
    ensures faults { Answers result (thunk_error resolved.now.layout.now (at_file place.group place.file) thunk.now) }
    ensures bytes { OnOk result (bytes.new ≡ bytes.old ++ thunk_bytes resolved.now.layout.now thunk.now) }
{
    match thunk_code(resolved, thunk) {
        Ok(code) => Ok(bytes.extend(&code)?),
        Err(fault) => Err(Error {
            fault,
            at: place.file(),
        }),
    }
}

/// Appends the bytes of the thunks of a file, or returns their first fault.
#[tactic(auto, using(wild_sections::proofs::FaultLemmas::first_faults))]
fn add_all_thunks<A: Arch>(
    resolved: &Resolved<A>,
    place: InputPlace,
    file: &File,
    bytes: &mut PartBytes,
) -> Result<(), Error>
    ensures faults { Answers result (flat_map (thunk_error resolved.now.layout.now (at_file place.group place.file)) (thunks_of resolved.now.layout.now file.now)) }
    ensures bytes { OnOk result (bytes.new ≡ bytes.old ++ file_thunks resolved.now.layout.now file.now) }
{
    for thunk in resolved.layout.thunks_of(file) {
        add_thunk(resolved, place, thunk, bytes)?;
    }
    Ok(())
}

/// Appends the thunks that a file writes after its sections, or returns their first fault. If their section is omitted they are not
/// checked.
pub fn add_thunks<A: Arch>(
    resolved: &Resolved<A>,
    place: InputPlace,
    file: &File,
    bytes: &mut PartBytes,
) -> Result<(), Error>
    ensures faults { Answers result (thunk_errors resolved.now.layout.now place.group place.file file.now) }
    ensures bytes { OnOk result (bytes.new ≡ bytes.old ++ unless_omitted resolved.now.layout.now resolved.now.layout.now.primary_part (file_thunks resolved.now.layout.now file.now)) }
{
    let layout = resolved.layout;
    if layout.is_header_only_part(layout.primary_part) {
        return Ok(());
    }
    add_all_thunks(resolved, place, file, bytes)
}
