//! Laws of the headers.
ghost use Rattle.wild_table_formats.specs.HeaderLaws.{HeadersHaveTheirLengths, SectionCountIsRead, NameTableIsRead, CountsAtTheLimit, ProgramHeadersAreRead, SectionHeadersAreRead, SectionNamesAreRead};

/// The headers and the section names have exactly the lengths that `wild_needs` computes for their parts.
pub fn headers_have_their_lengths()
    ensures { HeadersHaveTheirLengths }
{}

/// The number of sections and the header index of `.shstrtab` are in the file header (`e_shnum`, `e_shstrndx`). Numbers
/// from `SHN_LORESERVE` (65,280) on do not fit there and are in section header 0 (`sh_size`, `sh_link`).
pub fn large_numbers_are_read()
    ensures counts { SectionCountIsRead }
    ensures names { NameTableIsRead }
    ensures limit { CountsAtTheLimit }
{}

/// Program header k is at offset 56 k of its table, and section header k at offset 64 k. The name of a section is at its
/// `sh_name` in `.shstrtab`.
pub fn headers_are_read()
    ensures programs { ProgramHeadersAreRead }
    ensures sections { SectionHeadersAreRead }
    ensures names { SectionNamesAreRead }
{}
