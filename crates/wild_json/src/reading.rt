//! The data of texts.
ghost use Rattle.std.specs.Prelude.{◌≡◌, ◌<◌, ℕ, List, length, true, Some, None, Err, IfOk, OnOk, MatchOption};
ghost use Rattle.json.specs.Lex.{tokens};
ghost use Rattle.serde_json.specs.Data.{Data};
ghost use Rattle.serde_json.specs.Read.{read};
ghost use Rattle.wild_json.specs.declared.fault.TextFault.TheVariants.{NoJson};
ghost use Rattle.wild_json.specs.Values.{view};
ghost use Rattle.wild_json.specs.Texts.{value_at, OpensArray, OpensObject, IsItemNext, IsArrayEnd, IsNameNext, IsObjectEnd};

use crate::fault::TextFault;
use crate::range::has_data;
use json::{Reader, Scratch, Token, Value};
use std::alloc::Global;

/// How deep arrays and objects of a text may nest.
pub const MAX_DEPTH: usize = 127;

/// The next value of the reader. Arrays and objects may nest `depth` deep.
#[tactic(auto, using(crate::proofs::TextLemmas::value_read, crate::proofs::TextLemmas::value_not_data, crate::proofs::TextLemmas::no_value))]
pub fn read_value<'a>(
    alloc: Global,
    reader: &mut Reader<'a>,
    depth: usize,
) -> Result<Value<'a>, TextFault>
    ensures ok { IfOk result (λ v. value_at depth reader.old ≡ Some (view v, reader.new)) }
    ensures shorter { OnOk result (length reader.new < length reader.old) }
    ensures refused { result ≡ Err NoJson → value_at depth reader.old ≡ None }
{
    let value = match Value::read(alloc, reader, depth) {
        Ok(value) => value,
        Err(json::Error::OutOfMemory) => return Err(TextFault::OutOfMemory),
        Err(_) => return Err(TextFault::NoJson),
    };
    if has_data(&value) {
        Ok(value)
    } else {
        Err(TextFault::NoJson)
    }
}

/// The value of a text.
#[tactic(auto, using(crate::proofs::TextLemmas::text_read, crate::proofs::TextLemmas::text_refused, crate::proofs::TextLemmas::text_and_more))]
pub fn value_of<'a>(
    alloc: Global,
    text: &'a str,
    scratch: &'a mut Scratch,
) -> Result<Value<'a>, TextFault>
    ensures ok { IfOk result (λ v. read text.now ≡ Some (view v)) }
    ensures refused { result ≡ Err NoJson → read text.now ≡ None }
{
    let Ok(mut reader) = Reader::new(text, scratch) else {
        return Err(TextFault::OutOfMemory);
    };
    let value = match read_value(alloc, &mut reader, MAX_DEPTH) {
        Ok(value) => value,
        Err(fault) => return Err(fault),
    };
    if reader.next().is_some() {
        return Err(TextFault::NoJson);
    }
    Ok(value)
}

/// Opens the array that is next, if there is one.
#[tactic(auto, using(crate::proofs::TextLemmas::array_opens))]
pub fn open_array(reader: &mut Reader<'_>, depth: usize) -> bool
    requires { 0 < depth }
    ensures open { result ≡ true → OpensArray depth reader.old reader.new }
    ensures shorter { result ≡ true → length reader.new < length reader.old }
{
    matches!(reader.next(), Some(Token::BeginArray))
}

/// Opens the object that is next, if there is one.
#[tactic(auto, using(crate::proofs::TextLemmas::object_opens))]
pub fn open_object(reader: &mut Reader<'_>, depth: usize) -> bool
    requires { 0 < depth }
    ensures open { result ≡ true → OpensObject depth reader.old reader.new }
    ensures shorter { result ≡ true → length reader.new < length reader.old }
{
    matches!(reader.next(), Some(Token::BeginObject))
}

/// The next item of an open array, if the array does not end here.
#[tactic(auto, using(crate::proofs::TextLemmas::item_next, crate::proofs::TextLemmas::array_end))]
pub fn next_item<'a>(
    alloc: Global,
    reader: &mut Reader<'a>,
    depth: usize,
) -> Result<Option<Value<'a>>, TextFault>
    ensures item { IfOk result (λ o. MatchOption o (IsArrayEnd depth reader.old reader.new) (λ v. IsItemNext depth reader.old (view v) reader.new)) }
    ensures shorter { OnOk result (length reader.new < length reader.old) }
{
    if reader.take_end_array() {
        return Ok(None);
    }
    match read_value(alloc, reader, depth) {
        Ok(value) => Ok(Some(value)),
        Err(fault) => Err(fault),
    }
}

/// The name of the next member of an open object, if the object does not end here.
#[tactic(auto, using(crate::proofs::TextLemmas::name_next, crate::proofs::TextLemmas::object_end))]
pub fn next_name<'a>(reader: &mut Reader<'a>) -> Result<Option<&'a str>, TextFault>
    ensures name { IfOk result (λ o. MatchOption o (IsObjectEnd reader.old reader.new) (λ k. IsNameNext reader.old k.now reader.new)) }
    ensures shorter { OnOk result (length reader.new < length reader.old) }
{
    match reader.next_key() {
        Ok(name) => Ok(name),
        Err(_) => Err(TextFault::NoJson),
    }
}

/// Whether the text ends here: then its value is the one that was read.
#[tactic(auto, using(crate::proofs::TextLemmas::text_read))]
pub fn is_end(reader: &mut Reader<'_>) -> bool
    ensures { result ≡ true → (text : List ℕ) (d : Data) → value_at MAX_DEPTH (tokens text) ≡ Some (d, reader.old) → read text ≡ Some d }
{
    reader.next().is_none()
}
