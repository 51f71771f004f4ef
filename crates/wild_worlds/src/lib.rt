//! The premises of soundness can be met: there are legal worlds, and references that are checked in them.
#![tactic(auto)]

ghost use Rattle.wild_worlds.specs.Worlds.{ZeroIsLegal, MovedIsLegal, NoResolversNeeded, WorldsAreThere, KindsAreLoaded};
ghost use Rattle.wild_worlds.specs.References.{SectionsAreKept, SortedAreKept, FramesAreKept, RelocationsRefer, ReferencesAreChecked, SlotsAreChecked, FewUseOwnSymbolOnly, ZerosAreChecked};
ghost use Rattle.wild_worlds.specs.Joined.{PremisesAreJoined};
ghost use Rattle.wild_worlds.specs.Symbols.{AddressesMove, ResolversAnswer, WorldsAnswer, OffsetsCount, SlotsAreOne, SizesAreWhole};
ghost use Rattle.wild_worlds.specs.Worked.{WorkedAddressesAreChecked, WorkedBranchesAreChecked};

use wild_geometry::layouts_are_laid_out;
use wild_laws::images_are_sound;
use wild_references::thread_places_are_known;
use wild_sample_layouts::laws_of_calling_plans;

/// The premises of soundness can be met.
///
/// - A layout without faults has legal worlds, with the distance of its own thread-local data, whatever its resolvers answer and
/// another module defines. They are at base 0 and, if the output is movable, at every page-aligned base at which no segment
/// wraps.
/// - Each loaded, allocated input section with data is kept, also in a given order, and so are the kept entries of frames. Each
/// of their relocations but NONE is a reference. It is checked unless its symbol is absolute and its value or instruction is relative to its place. Few refer only to the output's own
/// symbol.
/// - The address of an own symbol that is not absolute moves with the base. An IFUNC's value is its resolver's answer, a
/// replaceable symbol's value the world's answer. A thread-pointer offset is an address minus the thread pointer.
/// - A symbol has one slot of each sort, and the whole size of an own symbol is checked.
/// - The worked examples have calls and jumps, an address that is loaded from a slot, on AArch64 one that two words form, and a
/// sequence that computes a thread-local address.
pub fn premises_are_met()
    ensures zero { ZeroIsLegal }
    ensures elsewhere { MovedIsLegal }
    ensures unresolved { NoResolversNeeded }
    ensures worlds { WorldsAreThere }
    ensures kinds { KindsAreLoaded }
    ensures kept { SectionsAreKept }
    ensures sorted { SortedAreKept }
    ensures frames { FramesAreKept }
    ensures references { RelocationsRefer }
    ensures asked { ReferencesAreChecked }
    ensures slots { SlotsAreChecked }
    ensures linked { FewUseOwnSymbolOnly }
    ensures blanks { ZerosAreChecked }
    ensures addresses { AddressesMove }
    ensures resolvers { ResolversAnswer }
    ensures answers { WorldsAnswer }
    ensures offsets { OffsetsCount }
    ensures one { SlotsAreOne }
    ensures whole { SizesAreWhole }
    ensures branches { WorkedBranchesAreChecked }
    ensures loads { WorkedAddressesAreChecked }
{
    layouts_are_laid_out();
    thread_places_are_known();
}

/// They can be met together. For each kind of output that can be loaded at any base, on either machine, there is a layout without
/// faults and a legal world at a base other than 0 in which its image is linked. A kept item has a call, on x86-64 through a
/// slot, which is checked there and holds.
/// The same is true of an x86-64 image only for debuggers, with a note. One of its references is checked and holds, another one
/// is left out, and a section of code is not written. No image is linked there if the field of the first one is another number.
/// And there is a program without a dynamic linker that has a function chosen by a resolver, thread-local data with a slot, a merged
/// string, a section placed in a given order, and a frame. Its image is linked in a legal world. So is that of a program with a
/// copied symbol, in a world where the loader copies bytes to it.
pub fn premises_are_joined()
    ensures { PremisesAreJoined }
{
    layouts_are_laid_out();
    images_are_sound();
    laws_of_calling_plans();
}
