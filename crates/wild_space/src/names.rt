//! Images by their names.
ghost use Rattle.std.specs.Prelude.{◌≡◌, ◌<◌, length, MatchResult, IfSome};
ghost use Rattle.wild_space.specs.declared.fault.BindFault.TheVariants.{OutOfMemory};
ghost use Rattle.wild_space.specs.Names.{IsNameTable, named};
ghost use Rattle.wild_space.specs.Order.{bytes_at};

use crate::fault::BindFault;
use crate::image::NamedImage;
use std::alloc::Global;
use std::collections::HashMap;

/// The place of the first image with each name.
pub(crate) fn name_table<'a>(
    alloc: Global,
    images: &'a [NamedImage],
) -> Result<HashMap<&'a [u8], usize>, BindFault>
    ensures { MatchResult result (λ t. IsNameTable t images.now) (λ e. e ≡ OutOfMemory) }
{
    let mut table: HashMap<&'a [u8], usize> = HashMap::new(alloc);
    let mut i = images.len();
    while i > 0 {
        i -= 1;
        table.insert(images[i].name.as_slice(), i)?;
    }
    Ok(table)
}

/// The place of the first image with a name.
pub(crate) fn find_named(
    table: &HashMap<&[u8], usize>,
    images: &[NamedImage],
    name: &[u8],
) -> Option<usize>
    requires { IsNameTable table.now images.now }
    ensures is { result ≡ named images.now name.now }
    ensures small { IfSome result (λ j. j < length images.now) }
{
    table.get(name).copied()
}

/// The bytes of the image at a place of the input.
pub(crate) fn bytes_at(images: &[NamedImage], image: usize) -> &[u8]
    requires { image < length images.now }
    ensures { result.now ≡ bytes_at images.now image }
{
    images[image].bytes.as_slice()
}
