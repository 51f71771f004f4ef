//! A plan as its text gives it, member by member. Of its long lists one item at a time is a value in memory.
ghost use Rattle.std.specs.Prelude.{◌≡◌, ◌<◌, codes, ℕ, List, Result, length, false, Some, Ok, IfOk, OnOk};
ghost use Rattle.std.specs.List.{list_any};
ghost use Rattle.std.specs.Str.{bytes_eq};
ghost use Rattle.serde_json.specs.Data.{Data, Items as ItemsData, Members, no_members, object};
ghost use Rattle.serde_json.specs.Read.{read};
ghost use Rattle.wild_json.specs.Texts.{items_at, members_at};
ghost use Rattle.wild_text.specs.Values.{list_in, items_from};
ghost use Rattle.wild_text.specs.Plan.{layout_members, layout_in};
ghost use Rattle.wild_text.specs.PlanMembers.{IsNext, AreMembers, AddsMember, is_long};

use crate::fault::PlanFault;
use crate::members::Planned;
use crate::plan::{LongLists, PLAN_MEMBERS, read_members};
use json::{Reader, Scratch, Value};
use std::alloc::{AllocError, AllocFailed, Global};
use wild_json::{
    MAX_DEPTH, TextFault, is_among, is_end, next_item, next_name, object_of, open_array,
    open_object, read_value,
};
use wild_types::Layout;
use wild_words::Items;

/// Why a plan is not read member by member.
#[derive(Drop)]
pub(crate) enum Stop {
    /// It is no plan, or no object.
    Irregular,
    /// Memory was refused.
    OutOfMemory,
}

impl From<AllocError> for Stop {
    fn from(_e: AllocError) -> Stop {
        Stop::OutOfMemory
    }
}

impl<T: Drop> From<AllocFailed<T>> for Stop {
    fn from(_e: AllocFailed<T>) -> Stop {
        Stop::OutOfMemory
    }
}

impl From<TextFault> for Stop {
    fn from(fault: TextFault) -> Stop {
        match fault {
            TextFault::NoJson => Stop::Irregular,
            TextFault::OutOfMemory => Stop::OutOfMemory,
        }
    }
}

impl From<PlanFault> for Stop {
    fn from(fault: PlanFault) -> Stop {
        match fault {
            PlanFault::At(_) => Stop::Irregular,
            PlanFault::OutOfMemory => Stop::OutOfMemory,
        }
    }
}

/// The items of an open array, to its end.
#[tactic(auto, using(crate::proofs::PlanMemberLemmas::items_begin, crate::proofs::PlanMemberLemmas::items_end))]
fn read_items<T: Planned + Drop>(
    alloc: Global,
    reader: &mut Reader<'_>,
    depth: usize,
) -> Result<Items<T>, Stop>
    ensures ok { IfOk result (λ xs. (ds : ItemsData) × (items_at (length reader.old) depth reader.old ≡ Some (ds, reader.new)) × (items_from T.reads 0 ds ≡ Ok xs)) }
    ensures shorter { OnOk result (length reader.new < length reader.old) }
{
    let mut items = Vec::new(alloc);
    'list: while let Some(value) = next_item(alloc, reader, depth)? {
        let item = T::read(alloc, &value)?;
        items.push(item)?;
    }
    Ok(Items::from_vec(items))
}

/// The list that is next. Arrays and objects may nest `depth` deep.
#[tactic(auto, using(crate::proofs::PlanMemberLemmas::list_next))]
fn read_list<T: Planned + Drop>(
    alloc: Global,
    reader: &mut Reader<'_>,
    depth: usize,
) -> Result<Items<T>, Stop>
    requires { 0 < depth }
    ensures ok { IfOk result (λ xs. IsNext (list_in T.reads) depth reader.old xs reader.new) }
    ensures shorter { OnOk result (length reader.new < length reader.old) }
{
    if !open_array(reader, depth) {
        return Err(Stop::Irregular);
    }
    let items = read_items(alloc, reader, depth - 1)?;
    Ok(items)
}

/// The members of a plan that were read: long lists, and the others as values.
#[derive(Drop)]
pub(crate) struct PlanMembers<'a> {
    kept: Vec<(&'a str, Value<'a>)>,
    lists: LongLists,
}

impl<'a> PlanMembers<'a> {
    #[tactic(auto, using(crate::proofs::PlanMemberLemmas::none_are))]
    fn none(alloc: Global) -> PlanMembers<'a>
        ensures { AreMembers no_members result }
    {
        PlanMembers {
            kept: Vec::new(alloc),
            lists: LongLists::none(),
        }
    }

    /// Reads the symbols.
    fn read_symbols(
        &mut self,
        alloc: Global,
        reader: &mut Reader<'a>,
        depth: usize,
    ) -> Result<(), Stop>
        requires { 0 < depth }
        ensures ok { OnOk result (AddsMember depth reader.old reader.new (codes "symbols") self.old self.new) }
        ensures shorter { OnOk result (length reader.new < length reader.old) }
    {
        let symbols = read_list(alloc, reader, depth)?;
        self.lists.symbols = Some(symbols);
        Ok(())
    }

    /// Reads the groups.
    fn read_groups(
        &mut self,
        alloc: Global,
        reader: &mut Reader<'a>,
        depth: usize,
    ) -> Result<(), Stop>
        requires { 0 < depth }
        ensures ok { OnOk result (AddsMember depth reader.old reader.new (codes "groups") self.old self.new) }
        ensures shorter { OnOk result (length reader.new < length reader.old) }
    {
        let groups = read_list(alloc, reader, depth)?;
        self.lists.groups = Some(groups);
        Ok(())
    }

    /// Reads the dynamic symbols.
    fn read_dynsyms(
        &mut self,
        alloc: Global,
        reader: &mut Reader<'a>,
        depth: usize,
    ) -> Result<(), Stop>
        requires { 0 < depth }
        ensures ok { OnOk result (AddsMember depth reader.old reader.new (codes "dynsyms") self.old self.new) }
        ensures shorter { OnOk result (length reader.new < length reader.old) }
    {
        let dynsyms = read_list(alloc, reader, depth)?;
        self.lists.dynsyms = Some(dynsyms);
        Ok(())
    }

    /// Reads the sections in an order of the plan's.
    fn read_sorted(
        &mut self,
        alloc: Global,
        reader: &mut Reader<'a>,
        depth: usize,
    ) -> Result<(), Stop>
        requires { 0 < depth }
        ensures ok { OnOk result (AddsMember depth reader.old reader.new (codes "sorted") self.old self.new) }
        ensures shorter { OnOk result (length reader.new < length reader.old) }
    {
        let sorted = read_list(alloc, reader, depth)?;
        self.lists.sorted = Some(sorted);
        Ok(())
    }

    /// Reads the merged strings.
    fn read_merged(
        &mut self,
        alloc: Global,
        reader: &mut Reader<'a>,
        depth: usize,
    ) -> Result<(), Stop>
        requires { 0 < depth }
        ensures ok { OnOk result (AddsMember depth reader.old reader.new (codes "merged") self.old self.new) }
        ensures shorter { OnOk result (length reader.new < length reader.old) }
    {
        let merged = read_list(alloc, reader, depth)?;
        self.lists.merged = Some(merged);
        Ok(())
    }

    /// Keeps the value of a member of that name.
    fn keep(
        &mut self,
        alloc: Global,
        reader: &mut Reader<'a>,
        depth: usize,
        name: &'a str,
    ) -> Result<(), Stop>
        requires short { is_long name.now ≡ false }
        ensures ok { OnOk result (AddsMember depth reader.old reader.new name.now self.old self.new) }
        ensures shorter { OnOk result (length reader.new < length reader.old) }
    {
        if !is_among(&PLAN_MEMBERS, name) {
            return Err(Stop::Irregular);
        }
        let value = read_value(alloc, reader, depth)?;
        self.kept.push((name, value))?;
        Ok(())
    }

    /// Reads the value of a member of that name.
    #[tactic(auto, using(crate::proofs::PlanMemberLemmas::by_name))]
    fn read_member(
        &mut self,
        alloc: Global,
        reader: &mut Reader<'a>,
        depth: usize,
        name: &'a str,
    ) -> Result<(), Stop>
        requires { 0 < depth }
        ensures ok { OnOk result (AddsMember depth reader.old reader.new name.now self.old self.new) }
        ensures shorter { OnOk result (length reader.new < length reader.old) }
    {
        if name == "symbols" {
            self.read_symbols(alloc, reader, depth)
        } else if name == "groups" {
            self.read_groups(alloc, reader, depth)
        } else if name == "dynsyms" {
            self.read_dynsyms(alloc, reader, depth)
        } else if name == "sorted" {
            self.read_sorted(alloc, reader, depth)
        } else if name == "merged" {
            self.read_merged(alloc, reader, depth)
        } else {
            self.keep(alloc, reader, depth, name)
        }
    }

    /// The layout of all members of a plan.
    fn layout(self, alloc: Global) -> Result<Layout, PlanFault>
        ensures { IfOk result (λ l. (found : Members) → AreMembers found self.entry → layout_in (object found) ≡ Ok l) }
    {
        let PlanMembers { kept, lists } = self;
        read_members(alloc, &object_of(kept), lists)
    }
}

/// The members of an open object, to its end.
#[tactic(auto, using(crate::proofs::PlanMemberLemmas::members_begin, crate::proofs::PlanMemberLemmas::members_end))]
fn read_object<'a>(
    alloc: Global,
    reader: &mut Reader<'a>,
    depth: usize,
) -> Result<PlanMembers<'a>, Stop>
    requires { 0 < depth }
    ensures { IfOk result (λ m. (found : Members) × (members_at (length reader.old) depth no_members reader.old ≡ Some (found, reader.new)) × AreMembers found m) }
{
    let mut members = PlanMembers::none(alloc);
    'object: while let Some(name) = next_name(reader)? {
        members.read_member(alloc, reader, depth, name)?;
    }
    Ok(members)
}

/// The layout of the text of a plan.
pub(crate) fn read_layout(alloc: Global, text: &str, scratch: &mut Scratch) -> Result<Layout, Stop>
    ensures { IfOk result (λ l. (d : Data) × (read text.now ≡ Some d) × (layout_in d ≡ Ok l)) }
{
    let mut reader = Reader::new(text, scratch)?;
    if !open_object(&mut reader, MAX_DEPTH) {
        return Err(Stop::Irregular);
    }
    let members = match read_object(alloc, &mut reader, MAX_DEPTH - 1) {
        Ok(members) => members,
        Err(stop) => return Err(stop),
    };
    if !is_end(&mut reader) {
        return Err(Stop::Irregular);
    }
    let layout = members.layout(alloc)?;
    Ok(layout)
}
