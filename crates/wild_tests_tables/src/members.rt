//! What members of plans mean: a plan, and lines that describe its layout.
use crate::layouts::layout_of;
use std::alloc::{AllocError, Global};
use std::fmt::Write;
use std::test::*;
use wild_plan::{Entry, File, InputSection, Layout, Options, Slot, Symbol};

/// A plan with a word in place of `WORD`, words, and for each a text of the layout's description.
type Words = (&'static str, &'static [(&'static str, &'static str)]);

#[rattlefmt::skip]
const WORDS: &[Words] = &[
    (r#"{"parts":[{"role":"WORD"}]}"#, &[
        ("raw", "role Raw,"), ("file_header", "role FileHeader,"), ("program_headers", "role ProgramHeaders,"),
        ("section_headers", "role SectionHeaders,"), ("shstrtab", "role Shstrtab,"), ("got", "role Got,"),
        ("got_relr", "role GotRelr,"), ("plt_got", "role PltGot,"), ("rela_plt", "role RelaPlt,"),
        ("rela_dyn_relative", "role RelaDynRelative,"), ("rela_dyn_general", "role RelaDynGeneral,"),
        ("relr_dyn", "role RelrDyn,"), ("dynsym", "role Dynsym,"), ("dynstr", "role Dynstr,"),
        ("gnu_version", "role GnuVersion,"), ("gnu_version_d", "role GnuVersionD,"), ("gnu_version_r", "role GnuVersionR,"),
        ("sysv_hash", "role SysvHash,"), ("gnu_hash", "role GnuHash,"), ("dynamic", "role Dynamic,"),
        ("symtab_local", "role SymtabLocal,"), ("symtab_global", "role SymtabGlobal,"),
        ("symtab_shndx_local", "role SymtabShndxLocal,"), ("symtab_shndx_global", "role SymtabShndxGlobal,"),
        ("strtab", "role Strtab,"),
    ]),
    (r#"{"groups":[{"files":[{"sections":[{"slot":"WORD"}]}]}]}"#, &[
        ("discard", "slot Discard,"), ("loaded", "slot Loaded,"), ("sorted", "slot Sorted,"), ("debug", "slot Debug,"),
        ("frame", "slot Frame,"), ("merge", "slot Merge,"), ("rela", "slot Rela,"), ("group", "slot Group,"),
    ]),
    // Bits beside that of GOT, 0x20, which a resolution has too.
    (r#"{"symbols":[{"flags":["GOT","WORD"],"resolution":{}}]}"#, &[
        ("ABSOLUTE", "flags 21 and 21,"), ("DYNAMIC", "flags 22 and 22,"), ("IFUNC", "flags 24 and 24,"),
        ("NON_INTERPOSABLE", "flags 28 and 28,"), ("UNDEFINED_WEAK", "flags 30 and 30,"), ("GOT", "flags 20 and 20,"),
        ("PLT", "flags 60 and 60,"), ("GOT_TLS_OFFSET", "flags a0 and a0,"), ("GOT_TLS_MODULE", "flags 120 and 120,"),
        ("GOT_TLS_DESCRIPTOR", "flags 220 and 220,"), ("COPY_RELOCATION", "flags 420 and 420,"),
        ("EXPORT_DYNAMIC", "flags 820 and 820,"), ("DOWNGRADE_TO_LOCAL", "flags 1020 and 1020,"),
        ("CANONICAL_PLT", "flags 2020 and 2020,"), ("IFUNC_GOT_FOR_ADDRESS", "flags 4020 and 4020,"),
        ("CANONICAL_PLT_GOT_FOR_ADDRESS", "flags 8020 and 8020,"),
    ]),
];

/// A plan, and the whole description of its layout.
#[rattlefmt::skip]
const WHOLE: &[(&str, &str)] = &[
    // Members of the output, of symbols and of files.
    (
        r#"{"kind":"static_pie","options":{"relr":true,"strip_all":true,"new_dtags":true,"nodelete":true,"textrel":true,"versions":true,"got_plt_syms":true,"rpath":"2F6c","auxiliary":["61",""]},"parts":[{"role":"file_header","size":64,"address":4194304,"align":8},{}],"tls":{"end":16},"got_base":8192,"got_header":3,"tlsld":12312,"symbols":[{"name":"6F","version":2,"emit":true,"resolution":{"raw_value":4198400,"got":12328,"plt":null}},{"resolution":{"plt":8192}},{}],"groups":[{"dynstr_start":1,"strtab_start":2,"symtab_local_start":24,"symtab_global_start":48,"files":[{"role":"dynamic","verneed":{"last":true,"versions":[{"name":"5632","index":65535}]}},{"role":"script","verneed":null},{"role":"synthetic"}]}],"dynsyms":[{"symbol":1,"name":"66","version":32770}],"sysv_hash":{"buckets":3},"gnu_hash":{"buckets":1,"bloom_count":2,"bloom_shift":6,"base":4294967295},"verdefs":[{"name":"61"},{"name":"62","parent":1}],"entry":{"symbol":1}}"#,
        "static true, movable true, partial false
options relr strip_all versions got_plt_syms new_dtags nodelete textrel, rpath [47, 108], auxiliary 2
part: role FileHeader, address 4194304, size 64, align 8
part: role Raw, address 0, size 0, align 1
got_base 8192, got_header 3, tlsld Some(12312), tls 0 16 1
symbol: name [111], version 2, emit true, flags 0 and 0, at 4198400, got Some(12328), plt None
symbol: name [], version 0, emit false, flags 0 and 0, at 0, got None, plt Some(8192)
symbol: name [], version 0, emit false
group: dynstr 1, strtab 2, locals 24, globals 48
file: role Dynamic, last true, version 65535
file: role Script
file: role Synthetic
dynsym: symbol 1, version 32770
sysv_hash: buckets 3
gnu_hash: buckets 1, bloom_count 2, bloom_shift 6, base 4294967295
verdef: parent None
verdef: parent Some(1)
entry: symbol 1
",
    ),
    // What only a relocatable object has, and the options of debug sections.
    (
        r#"{"kind":"partial","options":{"only_keep_debug":true,"new_tombstones":true},"sections":[{},{"section_symbol":true}],"groups":[{"files":[{"sections":[{"slot":"loaded","singleton":0},{"slot":"rela","target":7},{"slot":"group","members":[3,1]}]}]}]}"#,
        "static false, movable false, partial true
options only_keep_debug new_tombstones, auxiliary 0
section: section_symbol false
section: section_symbol true
got_base 0, got_header 0, tlsld None, tls 0 0 1
group: dynstr 0, strtab 0, locals 0, globals 0
file: role Object
input: slot Loaded, singleton Some(0), target 0, members
input: slot Rela, singleton None, target 7, members
input: slot Group, singleton None, target 0, members 3 1
",
    ),
    // Members that are absent.
    (
        "{}",
        "static true, movable false, partial false
options, auxiliary 0
got_base 0, got_header 0, tlsld None, tls 0 0 1
",
    ),
];

fn slot_word(slot: Slot) -> &'static str {
    match slot {
        Slot::Discard => "Discard",
        Slot::Loaded => "Loaded",
        Slot::Sorted => "Sorted",
        Slot::Debug => "Debug",
        Slot::Frame => "Frame",
        Slot::Merge => "Merge",
        Slot::Rela => "Rela",
        Slot::Group => "Group",
    }
}

/// Adds the options that are set.
fn push_options(out: &mut String, options: &Options) -> Result<(), AllocError> {
    let all = [
        ("relax", options.relax),
        ("relr", options.relr),
        ("strip_all", options.strip_all),
        ("eh_frame_hdr", options.eh_frame_hdr),
        ("terminator", options.terminator),
        ("bti", options.bti),
        ("versions", options.versions),
        ("got_plt_syms", options.got_plt_syms),
        ("execstack", options.execstack),
        ("new_dtags", options.new_dtags),
        ("origin", options.origin),
        ("nodelete", options.nodelete),
        ("interpose", options.interpose),
        ("textrel", options.textrel),
        ("static_tls", options.static_tls),
        ("variant_pcs", options.variant_pcs),
        ("only_keep_debug", options.only_keep_debug),
        ("new_tombstones", options.new_tombstones),
    ];
    write!(out, "options")?;
    for (name, is_set) in &all {
        if *is_set {
            write!(out, " {name}")?;
        }
    }
    if let Some(path) = &options.rpath {
        let path = path.as_slice();
        write!(out, ", rpath {path:?}")?;
    }
    if options.soname.is_some() {
        write!(out, ", soname")?;
    }
    let count = options.auxiliary.len();
    writeln!(out, ", auxiliary {count}")?;
    Ok(())
}

/// Adds a symbol, and its resolution if it has one.
fn push_symbol(out: &mut String, symbol: &Symbol) -> Result<(), AllocError> {
    let (name, version, emit) = (symbol.name.as_slice(), symbol.version, symbol.emit);
    write!(out, "symbol: name {name:?}, version {version}, emit {emit}")?;
    if let Some(found) = symbol.resolution {
        let (flags, own) = (symbol.flags.0, found.flags.0);
        let (value, got, plt) = (found.raw_value, found.got_address, found.plt_address);
        write!(
            out,
            ", flags {flags:x} and {own:x}, at {value}, got {got:?}, plt {plt:?}"
        )?;
    }
    writeln!(out)?;
    Ok(())
}

/// Adds an input section.
fn push_input(out: &mut String, section: &InputSection) -> Result<(), AllocError> {
    let (slot, target) = (slot_word(section.slot), section.target);
    let singleton = match section.singleton {
        Some(index) => Some(index.0),
        None => None,
    };
    write!(
        out,
        "input: slot {slot}, singleton {singleton:?}, target {target}, members"
    )?;
    for member in section.members.as_slice() {
        let index = member.0;
        write!(out, " {index}")?;
    }
    writeln!(out)?;
    Ok(())
}

/// Adds a file, its versions and its input sections.
fn push_file(out: &mut String, file: &File) -> Result<(), AllocError> {
    let role = file.role;
    write!(out, "file: role {role:?}")?;
    if let Some(needs) = &file.verneed {
        let last = needs.last;
        write!(out, ", last {last}")?;
        for version in needs.versions.as_slice() {
            let index = version.index;
            write!(out, ", version {index}")?;
        }
    }
    writeln!(out)?;
    for section in file.sections.as_slice() {
        push_input(out, section)?;
    }
    Ok(())
}

/// Adds what the output as a whole has: its kind, options, parts, sections and addresses.
fn push_output(out: &mut String, layout: &Layout) -> Result<(), AllocError> {
    let (fixed, movable) = (
        layout.kind.is_static_executable(),
        layout.kind.is_position_independent(),
    );
    let partial = layout.kind.is_partial_link();
    writeln!(out, "static {fixed}, movable {movable}, partial {partial}")?;
    push_options(out, &layout.options)?;
    for part in layout.parts.as_slice() {
        let (role, address, size, align) = (part.role, part.address, part.size, part.align);
        writeln!(
            out,
            "part: role {role:?}, address {address}, size {size}, align {align}"
        )?;
    }
    for section in layout.sections.as_slice() {
        let is_set = section.section_symbol;
        writeln!(out, "section: section_symbol {is_set}")?;
    }
    let (base, header, pair) = (layout.got_base, layout.got_header, layout.tlsld);
    let (start, end, align) = (layout.tls.start, layout.tls.end, layout.tls.align);
    writeln!(
        out,
        "got_base {base}, got_header {header}, tlsld {pair:?}, tls {start} {end} {align}"
    )?;
    Ok(())
}

/// Adds the dynamic symbols, the hash tables, the versions and the entry.
fn push_dynamic(out: &mut String, layout: &Layout) -> Result<(), AllocError> {
    for listed in layout.dynsyms.as_slice() {
        let (symbol, version) = (listed.symbol.0, listed.version);
        writeln!(out, "dynsym: symbol {symbol}, version {version}")?;
    }
    if let Some(shape) = layout.sysv_hash {
        let buckets = shape.buckets;
        writeln!(out, "sysv_hash: buckets {buckets}")?;
    }
    if let Some(shape) = layout.gnu_hash {
        let (buckets, count) = (shape.buckets, shape.bloom_count);
        let (shift, base) = (shape.bloom_shift, shape.base);
        writeln!(
            out,
            "gnu_hash: buckets {buckets}, bloom_count {count}, bloom_shift {shift}, base {base}"
        )?;
    }
    for version in layout.verdefs.as_slice() {
        let parent = version.parent;
        writeln!(out, "verdef: parent {parent:?}")?;
    }
    match layout.entry {
        Some(Entry::Symbol(symbol)) => {
            let index = symbol.0;
            writeln!(out, "entry: symbol {index}")?;
        }
        Some(_) => writeln!(out, "entry: address")?,
        None => {}
    }
    Ok(())
}

/// Adds the description of a layout.
fn push_layout(out: &mut String, layout: &Layout) -> Result<(), AllocError> {
    push_output(out, layout)?;
    for symbol in layout.symbols.as_slice() {
        push_symbol(out, symbol)?;
    }
    for group in layout.groups.as_slice() {
        let (strings, names) = (group.dynstr_start, group.strtab_start);
        let (locals, globals) = (group.symtab_local_start, group.symtab_global_start);
        writeln!(
            out,
            "group: dynstr {strings}, strtab {names}, locals {locals}, globals {globals}"
        )?;
        for file in group.files.as_slice() {
            push_file(out, file)?;
        }
    }
    push_dynamic(out, layout)
}

/// The description of a plan's layout. One function has the layout, since its proof is long.
fn description(alloc: Global, plan: &str) -> Result<String, Fail> {
    let layout = layout_of(alloc, plan)?;
    let mut out = String::new(alloc);
    push_layout(&mut out, &layout)?;
    Ok(out)
}

#[test]
fn words_of_plans(rt: HostRuntime) -> Result<(), Fail> {
    for (plan, words) in WORDS {
        for (word, wanted) in *words {
            let plan = plan.replace(rt.alloc(), "WORD", *word)?;
            let found = description(rt.alloc(), plan.as_str())?;
            assert!(rt; found.contains(*wanted), "{word}");
        }
    }
    Ok(())
}

#[test]
fn members_of_plans(rt: HostRuntime) -> Result<(), Fail> {
    for (plan, wanted) in WHOLE {
        let found = description(rt.alloc(), *plan)?;
        assert!(rt; found.as_str() == *wanted, "{plan}");
    }
    Ok(())
}
