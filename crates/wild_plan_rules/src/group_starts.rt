//! Where shares of a group begin.

/// One value for each part in which the shares of groups have a recorded start.
#[derive(Clone, Copy)]
pub struct Starts<T> {
    pub dynstr: T,
    pub strtab: T,
    pub frames: T,
    pub locals: T,
    pub globals: T,
}
