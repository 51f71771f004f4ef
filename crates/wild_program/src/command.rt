//! The commands of the program.

/// A command.
#[derive(Clone, Copy)]
pub enum Command {
    /// Writes the image of the plan that is read; 1 to 64 workers.
    Link { workers: u8 },
    /// Writes the summary of the image of 1 to 65,536 groups; 1 to 64 workers.
    Make { groups: u32, workers: u8 },
    /// Writes the verdict on the image that is read, for the plan that is read.
    Verify,
    /// Writes the image of the plan that is read, with a change of one input section; 1 to 64 workers.
    Relink { workers: u8 },
    /// Writes the memory of the plan that is read, in the world that is read; 1 to 64 workers.
    Place { workers: u8 },
    /// Writes the order and the binds of the images that are read.
    Space,
}
