//! The images of a space in their order, with their tables.
ghost use Rattle.std.specs.Prelude.{◌≡◌, ◌+◌, ◌<◌, ◌≤◌, [], Ok, Err, All, IfOk, IfErr, MatchResult, length, Some, slice_get};
ghost use Rattle.std.specs.Int.{w64};
ghost use Rattle.std.specs.Int.RustNames.{FitsSigned};
ghost use Rattle.wild_space.specs.declared.fault.BindFault.TheVariants.{OutOfMemory};
ghost use Rattle.wild_space.specs.Given.{Gives, look};
ghost use Rattle.wild_space.specs.Order.{HasTables, AreOrdered, bytes_at, order_of};
ghost use Rattle.wild_space.specs.OrderLaws.{tables_after};
ghost use Rattle.wild_space.specs.Binds.{place_of, symbol_of, name_in, find_in, count_of, thread_start_of, base_of, distance_of};

use crate::fault::BindFault;
use crate::image::NamedImage;
use crate::names::bytes_at;
use crate::order::tables_of;
use std::alloc::Global;
use wild_hashes::{ImageFault, ImageTables, symbol_at, text_at};
use wild_imports::{find_definition, symbol_count, thread_start};
use wild_records::SymtabEntry;
use wild_words::Items;

/// The tables of the images of an order.
#[tactic(auto, using(crate::proofs::Loops::tables_steps))]
fn read_tables(
    alloc: Global,
    images: &[NamedImage],
    order: &[usize],
) -> Result<Items<ImageTables>, BindFault>
    requires { All (λ i. i < length images.now) order.now }
    ensures is { Gives result (tables_after images.now order.now []) }
    ensures tables { IfOk result (AreOrdered images.now order.now) }
{
    let mut tables = Items::new(alloc);
    for n in 0..order.len() {
        let found = tables_of(images, order[n])?;
        tables.push(found)?;
    }
    Ok(tables)
}

/// What is read of an image, with a fault's place in the input.
fn look<T>(image: usize, read: Result<T, ImageFault>) -> Result<T, BindFault>
    ensures { result ≡ look image read }
{
    match read {
        Ok(value) => Ok(value),
        Err(fault) => Err(BindFault::LookUp { image, fault }),
    }
}

/// The entry at an index.
fn entry_at<T>(entries: &[T], index: usize) -> &T
    requires { index < length entries.now }
    ensures { slice_get entries.now index ≡ Some result.now }
{
    &entries[index]
}

/// The images of a space in their order, with their tables, and the answers of resolvers.
#[derive(Drop)]
pub(crate) struct OrderedImages<'a> {
    pub images: &'a [NamedImage],
    pub order: Items<usize>,
    pub resolvers: &'a [(u64, u64)],
    pub tables: Items<ImageTables>,
}

impl<'a> OrderedImages<'a> {
    /// The images in their order. Fails only if memory runs out: each image of an order has tables.
    #[tactic(auto, using(crate::proofs::OrderLemmas::only_memory))]
    pub fn new(
        alloc: Global,
        images: &'a [NamedImage],
        order: Items<usize>,
        resolvers: &'a [(u64, u64)],
    ) -> Result<Self, BindFault>
        requires is { order_of images.now ≡ Ok order }
        requires some { 1 ≤ length images.now }
        requires small { All (λ i. i < length images.now) order }
        ensures images { IfOk result (λ s. s.images.now ≡ images.now) }
        ensures order { IfOk result (λ s. s.order ≡ order) }
        ensures resolvers { IfOk result (λ s. s.resolvers.now ≡ resolvers.now) }
        ensures ordered { IfOk result (λ s. AreOrdered s.images.now s.order s.tables) }
        ensures err { IfErr result (λ e. e ≡ OutOfMemory) }
    {
        let tables = read_tables(alloc, images, order.as_slice())?;
        Ok(OrderedImages {
            images,
            order,
            resolvers,
            tables,
        })
    }

    /// The place in the input of the image at a place of the order.
    pub fn image(&self, n: usize) -> usize
        requires ordered { AreOrdered self.now.images.now self.now.order self.now.tables }
        requires inside { n < length self.now.order }
        ensures is { result ≡ place_of self.now.order n }
        ensures small { result < length self.now.images.now }
    {
        self.order.as_slice()[n]
    }

    /// The bytes of the image at a place of the order.
    pub fn bytes(&self, n: usize) -> &'a [u8]
        requires ordered { AreOrdered self.now.images.now self.now.order self.now.tables }
        requires inside { n < length self.now.order }
        ensures { result.now ≡ bytes_at self.now.images.now (place_of self.now.order n) }
    {
        bytes_at(self.images, self.image(n))
    }

    /// Where the tables of the image at a place of the order are.
    pub fn tables(&self, n: usize) -> ImageTables
        requires ordered { AreOrdered self.now.images.now self.now.order self.now.tables }
        requires inside { n < length self.now.order }
        ensures { HasTables self.now.images.now (place_of self.now.order n) result }
    {
        *entry_at(self.tables.as_slice(), n)
    }

    /// The module of the image at a place of the order.
    pub fn module(&self, n: usize) -> u64
        requires inside { n < length self.now.order }
        ensures { result ≡ n + 1 }
    {
        let count = self.order.len();
        if n < count { n as u64 + 1 } else { 0 }
    }

    /// A dynamic symbol of the image at a place of the order.
    #[tactic(auto, unfolding(crate::specs::Binds::symbol_of))]
    pub fn symbol(&self, n: usize, index: u64) -> Result<SymtabEntry, BindFault>
        requires ordered { AreOrdered self.now.images.now self.now.order self.now.tables }
        requires inside { n < length self.now.order }
        ensures { result ≡ symbol_of self.now.images.now (place_of self.now.order n) index }
    {
        let tables = self.tables(n);
        look(self.image(n), symbol_at(self.bytes(n), &tables, index))
    }

    /// The name of a dynamic symbol of the image at a place of the order.
    #[tactic(auto, unfolding(crate::specs::Binds::name_in))]
    pub fn name(&self, n: usize, entry: SymtabEntry) -> Result<&'a [u8], BindFault>
        requires ordered { AreOrdered self.now.images.now self.now.order self.now.tables }
        requires inside { n < length self.now.order }
        ensures { let read = name_in self.now.images.now (place_of self.now.order n) entry in MatchResult result (λ t. read ≡ Ok t.now) (λ e. read ≡ Err e) }
    {
        let tables = self.tables(n);
        match text_at(self.bytes(n), &tables, entry.name as u64) {
            Ok(name) => Ok(name),
            Err(fault) => Err(BindFault::LookUp {
                image: self.image(n),
                fault,
            }),
        }
    }

    /// The definition of a name in the image at a place of the order.
    #[tactic(auto, unfolding(crate::specs::Binds::find_in))]
    pub fn find(&self, n: usize, name: &[u8]) -> Result<Option<u64>, BindFault>
        requires ordered { AreOrdered self.now.images.now self.now.order self.now.tables }
        requires inside { n < length self.now.order }
        ensures { result ≡ find_in self.now.images.now (place_of self.now.order n) name.now }
    {
        let tables = self.tables(n);
        look(self.image(n), find_definition(self.bytes(n), &tables, name))
    }

    /// The number of dynamic symbols of the image at a place of the order.
    #[tactic(auto, unfolding(crate::specs::Binds::count_of))]
    pub fn count(&self, n: usize) -> Result<u64, BindFault>
        requires ordered { AreOrdered self.now.images.now self.now.order self.now.tables }
        requires inside { n < length self.now.order }
        ensures { result ≡ count_of self.now.images.now (place_of self.now.order n) }
    {
        let tables = self.tables(n);
        look(self.image(n), symbol_count(self.bytes(n), &tables))
    }

    /// The address of the thread-local data of the image at a place of the order.
    #[tactic(auto, unfolding(crate::specs::Binds::thread_start_of))]
    pub fn thread_start(&self, n: usize) -> u64
        requires ordered { AreOrdered self.now.images.now self.now.order self.now.tables }
        requires inside { n < length self.now.order }
        ensures { thread_start_of self.now.images.now (place_of self.now.order n) ≡ Ok result }
    {
        let tables = self.tables(n);
        thread_start(self.bytes(n), &tables)
    }

    /// The base of the image at a place of the order.
    pub fn base(&self, n: usize) -> u64
        requires ordered { AreOrdered self.now.images.now self.now.order self.now.tables }
        requires inside { n < length self.now.order }
        ensures { result ≡ base_of self.now.images.now (place_of self.now.order n) }
    {
        self.images[self.image(n)].base
    }

    /// The distance of the thread-local data of the image at a place of the order from the thread pointer.
    pub fn distance(&self, n: usize) -> i64
        requires ordered { AreOrdered self.now.images.now self.now.order self.now.tables }
        requires inside { n < length self.now.order }
        ensures is { result ≡ distance_of self.now.images.now (place_of self.now.order n) }
        ensures fits { FitsSigned w64 result }
    {
        self.images[self.image(n)].distance
    }
}
