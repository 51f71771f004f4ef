//! Laws of made plans.
ghost use Rattle.wild_sample_layouts.specs.Laws.{NoFaults, ImageSize, Counts, Numbers, CallingFaults, CallingNumbers};

/// For every number of groups from 1 to 65,536, the layout has no faults, and its image has 344 bytes and 64 for each group. Eight
/// relocations are read for each group, and the numbers of its headers fit their fields.
pub fn laws_of_made_plans()
    ensures faults { NoFaults }
    ensures size { ImageSize }
    ensures counts { Counts }
    ensures numbers { Numbers }
{}

/// Layouts of three kinds of position-independent outputs, whose code calls a function: on x86-64 through its slot, on AArch64
/// through its stub, or directly if the program defines the function. They have no faults, and the numbers of their headers fit
/// their fields.
pub fn laws_of_calling_plans()
    ensures faults { CallingFaults }
    ensures numbers { CallingNumbers }
{}
