//! Structs that represent values, and lists of them.
ghost use Rattle.std.specs.Prelude.{◌≡◌, map, IfOk};

use std::alloc::{AllocError, Global};
use wild_words::Items;

/// A struct of a C program that represents a value of type `T`.
pub trait Decode<T> {
    ghost value_of: { Self → T };

    /// The value that it represents.
    fn decode(&self, alloc: Global) -> Result<T, AllocError>
        ensures { IfOk result (λ x. x ≡ value_of self.now) };
}

/// A struct of numbers alone that represents a value of type `T`.
pub trait DecodePlain<T> {
    ghost value_of: { Self → T };

    /// The value that it represents.
    fn value(&self) -> T
        ensures { result ≡ value_of self.now };
}

/// The values that structs represent, in order.
pub fn decode_all<T: Drop, C: Decode<T>>(
    alloc: Global,
    structs: &[C],
) -> Result<Items<T>, AllocError>
    ensures { IfOk result (λ xs. xs ≡ map C.value_of structs.now) }
{
    let mut items = Vec::with_capacity(alloc, structs.len())?;
    for each in structs {
        let item = each.decode(alloc)?;
        items.push(item)?;
    }
    Ok(Items::from_vec(items))
}

/// The vector of the values that structs of numbers represent, in order.
fn collect_plain<T: Drop, C: DecodePlain<T>>(
    alloc: Global,
    structs: &[C],
) -> Result<Vec<T>, AllocError>
    ensures { IfOk result (λ v. v.items ≡ map C.value_of structs.now) }
{
    structs.iter().map(|each| each.value()).collect(alloc)
}

/// The values that structs of numbers represent, in order.
pub fn decode_plain<T: Drop, C: DecodePlain<T>>(
    alloc: Global,
    structs: &[C],
) -> Result<Items<T>, AllocError>
    ensures { IfOk result (λ xs. xs ≡ map C.value_of structs.now) }
{
    Ok(Items::from_vec(collect_plain(alloc, structs)?))
}
