//! The options of a link.
ghost use Rattle.wild_json.specs.Values.{view};
ghost use Rattle.wild_text.specs.Reads.{Gives};
ghost use Rattle.wild_text.specs.Options.{output_options, dynamic_options, options_in};

use crate::fault::PlanFault;
use crate::members::{Planned, member, object, without_other_members};
use json::Value;
use std::alloc::Global;
use wild_types::Options;
use wild_words::Items;

/// Options of every output; all others are unset.
#[tactic(auto, unfolding(crate::specs::Options::output_options))]
fn output_options(alloc: Global, json: &Value<'_>) -> std::result::Result<Options, PlanFault>
    ensures { Gives result (output_options (view json.now)) }
{
    let relax = member(alloc, json, "relax", false)?;
    let relr = member(alloc, json, "relr", false)?;
    let strip_all = member(alloc, json, "strip_all", false)?;
    let eh_frame_hdr = member(alloc, json, "eh_frame_hdr", false)?;
    let terminator = member(alloc, json, "terminator", false)?;
    let bti = member(alloc, json, "bti", false)?;
    let versions = member(alloc, json, "versions", false)?;
    let got_plt_syms = member(alloc, json, "got_plt_syms", false)?;
    let execstack = member(alloc, json, "execstack", false)?;
    Ok(Options {
        relax,
        relr,
        strip_all,
        eh_frame_hdr,
        terminator,
        bti,
        versions,
        got_plt_syms,
        execstack,
        ..Options::none(alloc)
    })
}

/// The same options with those that the dynamic section records, and those for debuggers.
#[tactic(auto, unfolding(crate::specs::Options::dynamic_options))]
fn dynamic_options(
    alloc: Global,
    json: &Value<'_>,
    before: Options,
) -> std::result::Result<Options, PlanFault>
    ensures { Gives result (dynamic_options before (view json.now)) }
{
    let new_dtags = member(alloc, json, "new_dtags", false)?;
    let origin = member(alloc, json, "origin", false)?;
    let nodelete = member(alloc, json, "nodelete", false)?;
    let interpose = member(alloc, json, "interpose", false)?;
    let textrel = member(alloc, json, "textrel", false)?;
    let static_tls = member(alloc, json, "static_tls", false)?;
    let variant_pcs = member(alloc, json, "variant_pcs", false)?;
    let only_keep_debug = member(alloc, json, "only_keep_debug", false)?;
    let new_tombstones = member(alloc, json, "new_tombstones", false)?;
    let rpath = member(alloc, json, "rpath", None)?;
    let soname = member(alloc, json, "soname", None)?;
    let auxiliary = member(alloc, json, "auxiliary", Items::new(alloc))?;
    Ok(Options {
        new_dtags,
        origin,
        nodelete,
        interpose,
        textrel,
        static_tls,
        variant_pcs,
        only_keep_debug,
        new_tombstones,
        rpath,
        soname,
        auxiliary,
        ..before
    })
}

impl Planned for Options {
    ghost reads = { options_in };

    #[tactic(auto, unfolding(crate::specs::Options::options_in))]
    fn read(alloc: Global, json: &Value<'_>) -> std::result::Result<Options, PlanFault> {
        object(alloc, json)?;
        let before = output_options(alloc, json)?;
        let asked = dynamic_options(alloc, json, before)?;
        without_other_members(
            alloc,
            json,
            &[
                "relax",
                "relr",
                "strip_all",
                "eh_frame_hdr",
                "terminator",
                "bti",
                "versions",
                "got_plt_syms",
                "execstack",
                "new_dtags",
                "origin",
                "nodelete",
                "interpose",
                "textrel",
                "static_tls",
                "variant_pcs",
                "only_keep_debug",
                "new_tombstones",
                "rpath",
                "soname",
                "auxiliary",
            ],
            asked,
        )
    }
}
