//! Tests of items, and searches with them.
ghost use Rattle.std.specs.Prelude.{◌≡◌, ◌<◌, Bool, length, IfSome};
ghost use Rattle.std.specs.List.{list_all};
ghost use Rattle.wild_types.specs.Lists.{first_failing};

/// A test that an item of type `T` passes or fails.
pub trait Test<T> {
    ghost test: { Self → T → Bool };

    fn passes(&self, item: &T) -> bool
        ensures { result ≡ test self.now item.now };
}

/// The place of the first item that fails the test.
pub fn first_failing<T, C: Test<T>>(test: &C, items: &[T]) -> Option<usize>
    ensures is { result ≡ first_failing (C.test test.now) 0 items.now }
    ensures within { IfSome result (λ i. i < length items.now) }
{
    for (i, item) in items.iter().enumerate() {
        if !test.passes(item) {
            return Some(i);
        }
    }
    None
}

/// Whether each item passes the test.
pub fn all_pass<T, C: Test<T>>(test: &C, items: &[T]) -> bool
    ensures { result ≡ list_all (C.test test.now) items.now }
{
    for item in items {
        if !test.passes(item) {
            return false;
        }
    }
    true
}
