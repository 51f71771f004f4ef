//! What a look-up finds.
ghost use Rattle.wild_hashes.specs.Laws.{LengthsOfSysvTables, LengthsOfGnuTables, GnuReadersFindTheFirst, GnuTablesInBytesFindTheFirst, GnuLookUpFindsTheFirst, GnuLookUpInImagesFindsTheFirst, SysvReadersFindTheFirst, SysvTablesInBytesFindTheFirst, SysvLookUpFindsTheFirst, SysvLookUpInImagesFindsTheFirst, NeighboursAscend};

use wild_records::gnu_hash_header_is_read;

/// The lengths of the tables, from the numbers of their buckets, Bloom filter words and symbols.
pub fn hash_tables_have_their_lengths()
    ensures sysv { LengthsOfSysvTables }
    ensures gnu { LengthsOfGnuTables }
{}

/// In a GNU hash table of defined symbols, the look-up of any name gives the first symbol with that name, and none if no
/// symbol has it. This holds for any readers of words and names, for a table anywhere in bytes, and for the bytes that are
/// written here. It also holds in an image whose dynamic section refers to such tables.
pub fn gnu_look_up_finds_the_first()
    ensures readers { GnuReadersFindTheFirst }
    ensures standing { GnuTablesInBytesFindTheFirst }
    ensures written { GnuLookUpFindsTheFirst }
    ensures images { GnuLookUpInImagesFindsTheFirst }
{
    gnu_hash_header_is_read();
}

/// The same for a System V hash table.
pub fn sysv_look_up_finds_the_first()
    ensures readers { SysvReadersFindTheFirst }
    ensures standing { SysvTablesInBytesFindTheFirst }
    ensures written { SysvLookUpFindsTheFirst }
    ensures images { SysvLookUpInImagesFindsTheFirst }
{}

/// If each symbol's bucket is at most the next symbol's, all symbols ascend by bucket.
pub fn neighbours_ascend()
    ensures { NeighboursAscend }
{}
