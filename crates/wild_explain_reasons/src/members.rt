//! The members of each object of a plan.

use crate::text::Text;

/// For each kind of object its path, with `*` for an index in a list, and its members.
const MEMBERS: [(&str, &str); 26] = [
    (
        "",
        "machine, kind, options, page_size, parts, sections, segments, tls, got_base, got_header, tlsld, primary_part, symbols, groups, dynsyms, sysv_hash, gnu_hash, verdefs, thunk_blocks, sorted, merged, identity, interp, properties, entry, build_id",
    ),
    (
        "/options",
        "relax, relr, strip_all, eh_frame_hdr, terminator, bti, versions, got_plt_syms, execstack, new_dtags, origin, nodelete, interpose, textrel, static_tls, variant_pcs, only_keep_debug, new_tombstones, rpath, soname, auxiliary",
    ),
    ("/parts/*", "role, section, offset, address, size, align"),
    (
        "/sections/*",
        "name, kind, flags, address, offset, size, link, info, align, entsize, fill, section_symbol",
    ),
    (
        "/segments/*",
        "kind, flags, offset, address, physical, file_size, mem_size, align",
    ),
    ("/tls", "start, end, align"),
    (
        "/symbols/*",
        "name, definition, info, other, size, value, place, flags, version, emit, resolution",
    ),
    ("/symbols/*/place", "section, output"),
    ("/symbols/*/resolution", "raw_value, dynsym, got, plt"),
    (
        "/groups/*",
        "files, part_sizes, dynstr_start, strtab_start, eh_frame_start, symtab_local_start, symtab_global_start",
    ),
    (
        "/groups/*/files/*",
        "role, first_symbol, symbol_count, sections, thunk_block, owns_thunk_block, lib_name, copies, verneed",
    ),
    ("/groups/*/files/*/verneed", "last, versions"),
    ("/groups/*/files/*/verneed/versions/*", "name, index"),
    (
        "/groups/*/files/*/sections/*",
        "slot, name, part, address, size, flags, nobits, reversed, singleton, target, members, bytes, strings, relocations",
    ),
    (
        "/groups/*/files/*/sections/*/relocations/*",
        "offset, number, symbol, addend, malformed",
    ),
    ("/groups/*/files/*/sections/*/strings/*", "offset, address"),
    ("/dynsyms/*", "symbol, name, version"),
    ("/sysv_hash", "buckets"),
    ("/gnu_hash", "buckets, bloom_count, bloom_shift, base"),
    ("/verdefs/*", "name, parent"),
    ("/thunk_blocks/*/*", "symbol, address"),
    ("/sorted/*", "group, file, section"),
    ("/merged/*", "part, strings"),
    ("/identity", "part, bytes"),
    ("/properties/*", "ptype, value, platform, version"),
    ("/entry", "address, symbol"),
];

/// The values of members that are words, flags or hex digits, by the shapes of their paths.
const VALUES: [(&str, &str); 24] = [
    ("/machine", "x86_64, aarch64"),
    (
        "/kind",
        "static, static_pie, dynamic, dynamic_pie, shared, partial",
    ),
    (
        "/parts/*/role",
        "raw, file_header, program_headers, section_headers, shstrtab, got, got_relr, plt_got, rela_plt, rela_dyn_relative, rela_dyn_general, relr_dyn, dynsym, dynstr, gnu_version, gnu_version_d, gnu_version_r, sysv_hash, gnu_hash, eh_frame, eh_frame_hdr, dynamic, symtab_local, symtab_global, symtab_shndx_local, symtab_shndx_global, strtab, interp, build_id, property",
    ),
    (
        "/symbols/*/flags/*",
        "ABSOLUTE, DYNAMIC, IFUNC, NON_INTERPOSABLE, UNDEFINED_WEAK, GOT, PLT, GOT_TLS_OFFSET, GOT_TLS_MODULE, GOT_TLS_DESCRIPTOR, COPY_RELOCATION, EXPORT_DYNAMIC, DOWNGRADE_TO_LOCAL, CANONICAL_PLT, IFUNC_GOT_FOR_ADDRESS, CANONICAL_PLT_GOT_FOR_ADDRESS",
    ),
    (
        "/symbols/*/place",
        "undefined, absolute, common, {\"section\":K}, {\"output\":K}",
    ),
    (
        "/groups/*/files/*/role",
        "object, prelude, dynamic, script, synthetic, epilogue, not_loaded",
    ),
    (
        "/groups/*/files/*/sections/*/slot",
        "discard, loaded, sorted, debug, frame, merge, rela, group",
    ),
    ("/sections/*/name", HEX),
    ("/symbols/*/name", HEX),
    ("/groups/*/files/*/lib_name", HEX),
    ("/groups/*/files/*/sections/*/name", HEX),
    ("/groups/*/files/*/sections/*/bytes", HEX),
    ("/dynsyms/*/name", HEX),
    ("/merged/*/strings/*", HEX),
    ("/identity/bytes", HEX),
    ("/interp", HEX),
    ("/options/rpath", HEX),
    ("/options/soname", HEX),
    ("/options/auxiliary/*", HEX),
    ("/verdefs/*/name", HEX),
    ("/groups/*/files/*/verneed/versions/*/name", HEX),
    ("/sections/*/fill", HEX),
    ("/build_id", HEX),
    ("/entry", "null, {\"address\":N}, {\"symbol\":K}"),
];

/// What a member of hex digits has.
const HEX: &str = "hex digits, two a byte (2e74657874 for .text)";

/// The members that are flags, apart from options.
const FLAGS: &str = "emit, malformed, nobits, reversed, owns_thunk_block, section_symbol, last";

/// Whether a path is of that shape.
fn is_shaped(path: &str, shape: &str) -> bool {
    let mut steps = path.split("/");
    for wanted in shape.split("/") {
        let Some(step) = steps.next() else {
            return false;
        };
        let is_place = wanted == "*" && step.parse::<u64>().is_ok();
        if !is_place && wanted != step {
            return false;
        }
    }
    steps.next().is_none()
}

/// What the table has for the first shape of a path.
fn row_for(rows: &[(&'static str, &'static str)], path: &str) -> Option<&'static str> {
    for (shape, text) in rows {
        if is_shaped(path, *shape) {
            return Some(*text);
        }
    }
    None
}

/// The members of the object at a path.
fn members_of(path: &str) -> Option<&'static str> {
    row_for(&MEMBERS, path)
}

/// The values of the member at a path, if they are words, flags or hex digits.
fn values_of(path: &str) -> Option<&'static str> {
    row_for(&VALUES, path)
}

/// Whether a list of names that are apart by `, ` has a name.
fn has_name(names: &str, name: &str) -> bool {
    for known in names.split(", ") {
        if known == name {
            return true;
        }
    }
    false
}

/// Adds why a text is no plan, from the path of its first wrong member and what is found there: what is wrong, the path, and the members or
/// values that are expected.
pub fn push_no_plan(out: &mut Text, path: &str, found: &str) {
    let (outer, name) = match path.rsplit_once("/") {
        Some(steps) => steps,
        None => ("?", path),
    };
    let what = match members_of(outer) {
        Some(members) if !has_name(members, name) => {
            writeln!(
                out,
                "what: the member is unknown\nwhere: {path}\nknown: {members}"
            );
            return;
        }
        Some(_) =>
            "the member has another value than docs/PLAN.md says, or does not go with another one",
        None => "the member is unknown, or its value has another type than docs/PLAN.md says",
    };
    writeln!(out, "what: {what}\nwhere: {path}");
    let expected = match values_of(path) {
        Some(values) => values,
        None if outer == "/options" || has_name(FLAGS, name) => "true, false",
        None => "a whole number in the range of the member, a list or an object (docs/PLAN.md)",
    };
    writeln!(out, "found: {found}; expected {expected}");
}
