//! The world in which an image is loaded, as structs of C.
ghost use Rattle.wild_c_place.specs.WorldOf.{answer_of, resolver_of, module_of, world_of};

use std::alloc::{AllocError, Global};
use wild_c_layout::{Decode, DecodePlain, bytes_of, decode_all, decode_plain};
use wild_loader::{Answer, World};

/// The dynamic linker's answer for a dynamic symbol.
#[repr(C)]
#[derive(Drop)]
pub struct CAnswer<'a> {
    pub address: u64,
    /// The module of its thread-local data, and the offset there.
    pub module: u64,
    pub offset: u64,
    pub size: u64,
    /// Its initial bytes.
    pub bytes: &'a [u8],
}

/// The address of a resolver, and the address that it returns.
#[repr(C)]
#[derive(Clone, Copy)]
pub struct CResolver {
    pub address: u64,
    pub answer: u64,
}

/// A module, and the distance of its thread-local data from the thread pointer.
#[repr(C)]
#[derive(Clone, Copy)]
pub struct CModule {
    pub module: u64,
    pub distance: i64,
}

/// The world in which an image is loaded.
#[repr(C)]
#[derive(Drop)]
pub struct CWorld<'a> {
    /// What is added to each address of the image.
    pub base: u64,
    /// One answer for each dynamic symbol index.
    pub symbols: &'a [CAnswer<'a>],
    pub resolvers: &'a [CResolver],
    pub modules: &'a [CModule],
    /// The image's own module.
    pub own_module: u64,
}

impl Decode<Answer> for CAnswer<'_> {
    ghost value_of = { answer_of };

    fn decode(&self, alloc: Global) -> Result<Answer, AllocError> {
        let bytes = bytes_of(alloc, self.bytes)?;
        Ok(Answer {
            address: self.address,
            module: self.module,
            offset: self.offset,
            size: self.size,
            bytes,
        })
    }
}

impl DecodePlain<(u64, u64)> for CResolver {
    ghost value_of = { resolver_of };

    fn value(&self) -> (u64, u64) {
        (self.address, self.answer)
    }
}

impl DecodePlain<(u64, i64)> for CModule {
    ghost value_of = { module_of };

    fn value(&self) -> (u64, i64) {
        (self.module, self.distance)
    }
}

impl Decode<World> for CWorld<'_> {
    ghost value_of = { world_of };

    #[tactic(auto, unfolding(crate::specs::WorldOf::world_of))]
    fn decode(&self, alloc: Global) -> Result<World, AllocError> {
        let symbols = decode_all(alloc, self.symbols)?;
        let resolvers = decode_plain(alloc, self.resolvers)?;
        let modules = decode_plain(alloc, self.modules)?;
        Ok(World {
            base: self.base,
            symbols,
            resolvers,
            modules,
            own_module: self.own_module,
        })
    }
}
