//! Laws of the layouts and faults that structs represent.
ghost use Rattle.wild_c_layout.specs.Laws.{FramesHaveTheSize, ResolutionsHaveTheirFlags, RolesHaveTheirIndexes, StructsKeepFaults};

/// The options, parts and sections of a layout determine the size of its image.
pub fn frames_have_the_size()
    ensures { FramesHaveTheSize }
{}

/// In every layout that structs represent, each resolution has its symbol's flags.
pub fn resolutions_have_their_flags()
    ensures { ResolutionsHaveTheirFlags }
{}

/// The number of each role is its index in the list of roles.
pub fn roles_have_their_indexes()
    ensures { RolesHaveTheirIndexes }
{}

/// The struct of a fault says that fault, whatever the fault is.
pub fn structs_keep_faults()
    ensures { StructsKeepFaults }
{}
