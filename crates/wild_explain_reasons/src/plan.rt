//! Tests of the plan as a whole, and the members that they look at.

use crate::fronts::{ends_without_zero, test_identity};
use crate::headers::segments_before;
use crate::names::{role_at, role_word};
use crate::symbols::{offset_after_reserved, undefined_entries};
use crate::tests::PlanTest;
use crate::text::Text;
use crate::thunks::has_thunks;
use crate::verdict::{Verdict, due, plain};
use wild_needs::total_share;
use wild_types::{Entry, GnuHash, Layout, Role, has_role, is_there};
use wild_words::Bytes;

/// Whether there is a name, and it has a zero byte.
fn has_zero(name: &Option<Bytes>) -> bool {
    match name {
        Some(name) => name.as_slice().contains(&0),
        None => false,
    }
}

/// Whether the shape of the GNU hash table fails a test.
fn test_shape(layout: &Layout, shape: GnuHash, test: &PlanTest) -> Verdict {
    match test {
        PlanTest::GnuBuckets => plain(shape.buckets == 0),
        PlanTest::GnuBloom => plain(shape.bloom_count == 0),
        PlanTest::GnuShift => plain(shape.bloom_shift >= 32),
        PlanTest::GnuBase => {
            let (count, _) = undefined_entries(layout, 0);
            let base = count.saturating_add(1);
            due(shape.base as usize != base, base as u64)
        }
        _ => plain(false),
    }
}

/// Whether the plan fails a test; `index` is that of the clause.
pub(crate) fn test_plan(layout: &Layout, index: usize, test: &PlanTest) -> Verdict {
    let parts = layout.parts.as_slice();
    let page = layout.page_size;
    match test {
        PlanTest::PageSize => due(!page.is_power_of_two() || page < 4096 || page > 65536, 4096),
        PlanTest::ThreadAlign => plain(!layout.tls.align.is_power_of_two()),
        PlanTest::ThreadEnd => plain(layout.tls.end < layout.tls.start),
        PlanTest::ThreadStart => {
            let align = layout.tls.align;
            plain(align == 0 || layout.tls.start % align != 0)
        }
        PlanTest::NoSection => plain(layout.sections.len() == 0),
        PlanTest::NoGroup => plain(layout.groups.len() == 0),
        PlanTest::Missing(role) => {
            let has_none = layout.kind.is_partial_link() && matches!(*role, Role::ProgramHeaders);
            plain(!is_there(*role, parts) && !has_none)
        }
        PlanTest::StaticDynamic => plain(match role_at(index) {
            Some((_, role)) => is_there(role, parts),
            None => false,
        }),
        PlanTest::FirstSection => plain(match layout.sections.as_slice().get(0) {
            Some(first) => first.kind != 0 || first.name.len() != 0,
            None => false,
        }),
        PlanTest::NoDynamicSegment => {
            let (_, count) = segments_before(layout, layout.segments.len());
            plain(is_there(Role::Dynamic, parts) && count == 0)
        }
        PlanTest::Entry => plain(match layout.entry {
            Some(Entry::Symbol(symbol)) => symbol.0 >= layout.symbols.len(),
            _ => false,
        }),
        PlanTest::PrimaryPart => plain(layout.primary_part >= parts.len()),
        PlanTest::Primary => {
            let holds_thunks = match parts.get(layout.primary_part) {
                Some(part) => {
                    has_role(Role::Raw, part)
                        && layout.has_data(part.section)
                        && layout.is_allocated_section(part.section)
                }
                None => false,
            };
            plain(has_thunks(layout) && !holds_thunks)
        }
        PlanTest::Pair => {
            let behind = offset_after_reserved(layout);
            due(layout.tlsld.unwrap_or(behind) != behind, behind)
        }
        PlanTest::SysvBuckets => plain(match layout.sysv_hash {
            Some(shape) => shape.buckets == 0,
            None => false,
        }),
        PlanTest::NoVersion => {
            plain(is_there(Role::GnuVersionD, parts) && layout.verdefs.len() == 0)
        }
        PlanTest::SearchPath => plain(has_zero(&layout.options.rpath)),
        PlanTest::OwnName => plain(has_zero(&layout.options.soname)),
        PlanTest::IdentityPart
        | PlanTest::IdentityRaw
        | PlanTest::IdentitySize
        | PlanTest::IdentityAlone => test_identity(layout, test),
        PlanTest::PartialSegments => {
            plain(layout.kind.is_partial_link() && layout.segments.len() != 0)
        }
        PlanTest::PartialPair => plain(layout.kind.is_partial_link() && layout.tlsld.is_some()),
        PlanTest::PartialDynsyms => plain(
            layout.kind.is_partial_link() && layout.dynsyms.len() != 0,
        ),
        PlanTest::KeepsAll => {
            plain(layout.options.only_keep_debug && layout.kind.is_partial_link())
        }
        PlanTest::Interpreter => plain(ends_without_zero(layout.interp.as_slice())),
        PlanTest::NoPair | PlanTest::TooMany | PlanTest::NoTable | PlanTest::Versions => {
            plain(true)
        }
        _ => match layout.gnu_hash {
            Some(shape) => test_shape(layout, shape, test),
            None => plain(false),
        },
    }
}

/// Adds what a test of the plan looked at.
pub(crate) fn push_plan(out: &mut Text, layout: &Layout, index: usize, test: &PlanTest) {
    match test {
        PlanTest::PageSize => {
            let page = layout.page_size;
            write!(out, "{page}");
        }
        PlanTest::ThreadAlign | PlanTest::ThreadEnd | PlanTest::ThreadStart => {
            let (start, end, align) = (layout.tls.start, layout.tls.end, layout.tls.align);
            write!(out, "start {start}, end {end}, align {align}");
        }
        PlanTest::Missing(role) => {
            let word = role_word(*role);
            write!(out, "no part of role {word}");
        }
        PlanTest::PrimaryPart | PlanTest::Primary => {
            let (part, parts) = (layout.primary_part, layout.parts.len());
            write!(out, "part {part} of {parts} parts");
        }
        PlanTest::IdentityPart
        | PlanTest::IdentityRaw
        | PlanTest::IdentitySize
        | PlanTest::IdentityAlone => {
            let (part, size) = (layout.identity.part, layout.identity.bytes.len());
            write!(out, "part {part}, {size} bytes");
        }
        PlanTest::Entry => {
            if let Some(Entry::Symbol(symbol)) = layout.entry {
                let (symbol, symbols) = (symbol.0, layout.symbols.len());
                write!(out, "symbol {symbol} of {symbols} symbols");
            }
        }
        PlanTest::Interpreter => {
            let length = layout.interp.len();
            write!(out, "{length} bytes");
        }
        PlanTest::StaticDynamic | PlanTest::NoTable => {
            if let Some((word, role)) = role_at(index) {
                let needed = total_share(layout, role);
                write!(out, "role {word}, needed {needed} bytes");
            }
        }
        PlanTest::Pair | PlanTest::NoPair | PlanTest::PartialPair => {
            let pair = layout.tlsld.unwrap_or(0);
            write!(out, "{pair}");
        }
        PlanTest::GnuBuckets | PlanTest::GnuBloom | PlanTest::GnuShift | PlanTest::GnuBase => {
            if let Some(shape) = layout.gnu_hash {
                let (buckets, words) = (shape.buckets, shape.bloom_count);
                let (shift, base) = (shape.bloom_shift, shape.base);
                write!(
                    out,
                    "buckets {buckets} (1 or more), bloom_count {words} (1 or more), bloom_shift {shift} (below 32), base {base}"
                );
            }
        }
        _ => {
            let (sections, groups) = (layout.sections.len(), layout.groups.len());
            let (segments, symbols) = (layout.segments.len(), layout.symbols.len());
            let (listed, versions) = (layout.dynsyms.len(), layout.options.versions);
            write!(
                out,
                "{sections} sections (section 0 is `{{}}`), {groups} groups, {segments} segments, {symbols} symbols, {listed} `dynsyms`, option `versions` {versions}"
            );
        }
    }
}
