//! The walk over the sections that have symbols in a relocatable object (gABI, "Symbol Table": `STT_SECTION`). A sink defines
//! what is done with each.
ghost use Rattle.std.specs.Prelude.{◌≡◌, [], ◌∷◌, if◌then◌else◌, option_to_list};
ghost use Rattle.std.specs.List.{flat_map};
ghost use Rattle.wild_words.specs.Runs.{SinkRun};
ghost use Rattle.wild_needs.specs.TableSymbols.{marked_sections, singleton_sections, section_symbols};
ghost use Rattle.wild_symbols.specs.SectionWalk.{singletons_in, singletons_in_groups};

use wild_types::{File, Group, Layout, Section, SectionIndex};
use wild_words::Sink;

/// Passes a section to the sink if `asked` is set.
#[tactic(auto, using(wild_words::proofs::RunLemmas::runs))]
fn give_if<S: Sink<usize>>(asked: bool, header: usize, sink: &mut S) -> Result<(), S::Error>
    ensures { SinkRun S.goes S.refuses sink.old (if asked then header ∷ [] else []) result sink.new }
{
    if asked { sink.take(header) } else { Ok(()) }
}

/// Passes the sections with the flag `section_symbol` to the sink.
#[tactic(auto, using(crate::proofs::WalkLemmas::asked_loops))]
pub fn give_flagged_sections<S: Sink<usize>>(
    sections: &[Section],
    sink: &mut S,
) -> Result<(), S::Error>
    ensures { SinkRun S.goes S.refuses sink.old (marked_sections 0 sections.now) result sink.new }
{
    for (i, section) in sections.iter().enumerate() {
        give_if(section.section_symbol, i, sink)?;
    }
    Ok(())
}

/// Passes the section of an input section to the sink, if the object keeps it as a section of its own.
#[tactic(auto, using(wild_words::proofs::RunLemmas::runs))]
fn give_singleton<S: Sink<usize>>(alone: Option<SectionIndex>, sink: &mut S) -> Result<(), S::Error>
    ensures { SinkRun S.goes S.refuses sink.old (option_to_list alone) result sink.new }
{
    match alone {
        Some(header) => sink.take(header.0),
        None => Ok(()),
    }
}

/// Passes the sections of a file that the object keeps as sections of their own.
#[tactic(auto, using(wild_words::proofs::RunLemmas::listed_loops))]
fn give_file_singletons<S: Sink<usize>>(file: &File, sink: &mut S) -> Result<(), S::Error>
    ensures { SinkRun S.goes S.refuses sink.old (singletons_in file.now) result sink.new }
{
    for section in file.sections.as_slice() {
        give_singleton(section.singleton, sink)?;
    }
    Ok(())
}

/// Passes those of a group.
#[tactic(auto, using(wild_words::proofs::RunLemmas::listed_loops))]
fn give_group_singletons<S: Sink<usize>>(group: &Group, sink: &mut S) -> Result<(), S::Error>
    ensures { SinkRun S.goes S.refuses sink.old (flat_map singletons_in group.now.files) result sink.new }
{
    for file in group.files.as_slice() {
        give_file_singletons(file, sink)?;
    }
    Ok(())
}

/// Passes those of all groups.
#[tactic(auto, using(wild_words::proofs::RunLemmas::listed_loops))]
fn give_all_singletons<S: Sink<usize>>(layout: &Layout, sink: &mut S) -> Result<(), S::Error>
    ensures { SinkRun S.goes S.refuses sink.old (singletons_in_groups layout.now) result sink.new }
{
    for group in layout.groups.as_slice() {
        give_group_singletons(group, sink)?;
    }
    Ok(())
}

/// Passes the input sections that the object keeps as sections of their own to the sink, in the order of files.
#[tactic(auto, using(crate::proofs::WalkLemmas::alone_is))]
pub fn give_singletons<S: Sink<usize>>(layout: &Layout, sink: &mut S) -> Result<(), S::Error>
    ensures { SinkRun S.goes S.refuses sink.old (singleton_sections layout.now) result sink.new }
{
    give_all_singletons(layout, sink)
}

/// Passes the sections that have symbols in the object to the sink, in the order of their symbols.
#[tactic(auto, using(wild_words::proofs::RunLemmas::runs), unfolding(wild_needs::specs::TableSymbols::section_symbols))]
pub fn give_section_symbols<S: Sink<usize>>(layout: &Layout, sink: &mut S) -> Result<(), S::Error>
    ensures { SinkRun S.goes S.refuses sink.old (section_symbols layout.now) result sink.new }
{
    if !layout.kind.is_partial_link() {
        return Ok(());
    }
    give_flagged_sections(layout.sections.as_slice(), sink)?;
    give_singletons(layout, sink)
}
