//! Executors of work. The traits of the crates above have one method for each work, and one contract for all executors.
use std::thread::Threads;

/// Who runs work. `ready` is what has to be known of an executor before it may run something.
pub trait Executor {
    ghost ready: { Self → Type 0 };
}

/// The calling thread. Work for several workers is done one worker after another.
#[derive(Drop)]
pub struct Alone;

impl Executor for Alone {
    ghost use Rattle.std.specs.Prelude.{⊤};

    ghost ready = { λ _. ⊤ };
}

/// The threads of a runtime, which all of them share.
#[derive(Drop)]
pub struct Threaded<'a, R>(pub &'a R);

impl<R: Threads + Sync> Executor for Threaded<'_, R> {
    ghost use Rattle.std.specs.Thread.{IsSync};

    ghost ready = { λ _. IsSync R.row };
}
