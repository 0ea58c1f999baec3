//! Calls on the values of JSON texts.

ghost use Rattle.json_read.specs.Path.{IsName};

use crate::{escape, fields};
use anyhow::bail;
use json_read::{JsonFault, JsonPath, JsonValue, flag_at, list_at, maybe, need, text_at, whole_at};
use listing::cut_at;
use std::alloc::{AllocError, Global};

/// The name of a member of the cases' objects.
#[derive(Clone, Copy)]
pub enum Name {
    A,
    B,
    C,
}

impl Name {
    /// The name of this text.
    pub fn read(text: &[u8]) -> anyhow::Result<Name> {
        match text {
            b"a" => Ok(Name::A),
            b"b" => Ok(Name::B),
            b"c" => Ok(Name::C),
            _ => bail!("no name of a member"),
        }
    }

    /// Its text.
    fn text(self) -> &'static str
        ensures { IsName result.now }
    {
        match self {
            Name::A => "a",
            Name::B => "b",
            Name::C => "c",
        }
    }
}

/// What is asked of a value.
#[derive(Clone, Copy)]
pub enum Call {
    Flag,
    Text,
    List,
    Whole { max: u64 },
    Need(Name),
    Maybe(Name),
    Get(Name),
    AsBool,
    AsStr,
    AsNumber,
    IsObject,
}

impl Call {
    /// The call of this text.
    pub fn read(text: &[u8]) -> anyhow::Result<Call> {
        if let Some((word, detail)) = cut_at(b' ', text) {
            return Call::detailed(word, detail);
        }
        match text {
            b"flag_at" => Ok(Call::Flag),
            b"text_at" => Ok(Call::Text),
            b"list_at" => Ok(Call::List),
            b"as_bool" => Ok(Call::AsBool),
            b"as_str" => Ok(Call::AsStr),
            b"as_u64" => Ok(Call::AsNumber),
            b"is_object" => Ok(Call::IsObject),
            _ => bail!("a call on a value is unknown"),
        }
    }

    // the call of a word and what follows it
    fn detailed(word: &[u8], detail: &[u8]) -> anyhow::Result<Call> {
        match word {
            b"whole_at" => Ok(Call::Whole {
                max: fields::number(detail)?,
            }),
            b"need" => Ok(Call::Need(Name::read(detail)?)),
            b"maybe" => Ok(Call::Maybe(Name::read(detail)?)),
            b"get" => Ok(Call::Get(Name::read(detail)?)),
            _ => bail!("a call on a value is unknown"),
        }
    }
}

/// What the member of this name answers.
pub fn at_member<V: JsonValue>(
    alloc: Global,
    root: &V,
    name: Name,
    call: Call,
) -> Result<String, JsonFault> {
    let path = JsonPath::root(alloc);
    let member = need(alloc, root, &path, name.text())?;
    called(alloc, member, &path.child(alloc, name.text())?, call)
}

/// What an item of the member of this name answers.
pub fn at_item<V: JsonValue>(
    alloc: Global,
    root: &V,
    name: Name,
    item: usize,
    call: Call,
) -> Result<String, JsonFault> {
    let path = JsonPath::root(alloc);
    let member = need(alloc, root, &path, name.text())?;
    let path = path.child(alloc, name.text())?;
    match list_at(alloc, member, &path)?.get(item) {
        Some(value) => called(alloc, value, &path.item(alloc, item)?, call),
        None => Ok(fields::none(alloc)?),
    }
}

/// What a value, which stands at `path`, answers.
pub fn called<V: JsonValue>(
    alloc: Global,
    value: &V,
    path: &JsonPath,
    call: Call,
) -> Result<String, JsonFault> {
    let path = path.copy(alloc)?;
    match call {
        Call::Flag => Ok(fields::flag(alloc, flag_at(alloc, value, &path)?)?),
        Call::Text => Ok(text_at(alloc, value, &path)?),
        Call::List => Ok(count(alloc, list_at(alloc, value, &path)?.len())?),
        Call::Whole { max } => Ok(number(alloc, whole_at(alloc, value, &path, max)?)?),
        Call::Need(name) => {
            let member = need(alloc, value, &path, name.text())?;
            Ok(kind_of(alloc, Some(member))?)
        }
        Call::Maybe(name) => Ok(kind_of(alloc, maybe(alloc, value, &path, name.text())?)?),
        _ => Ok(shown(alloc, value, call)?),
    }
}

// what a value shows, wherever it stands
fn shown<V: JsonValue>(alloc: Global, value: &V, call: Call) -> Result<String, AllocError> {
    match call {
        Call::Get(name) => kind_of(alloc, value.get(name.text())),
        Call::AsBool => match value.as_bool() {
            Some(flag) => fields::flag(alloc, flag),
            None => fields::none(alloc),
        },
        Call::AsStr => match value.as_str() {
            Some(text) => escape::shown(alloc, text.as_bytes()),
            None => fields::none(alloc),
        },
        Call::AsNumber => match value.as_u64() {
            Some(number) => format!(in alloc; "{number}"),
            None => fields::none(alloc),
        },
        _ => fields::flag(alloc, value.is_object()),
    }
}

fn count(alloc: Global, items: usize) -> Result<String, AllocError> {
    format!(in alloc; "{items} items")
}

fn number(alloc: Global, number: u64) -> Result<String, AllocError> {
    format!(in alloc; "{number}")
}

// whether the value is there, and a list or not
fn kind_of<V: JsonValue>(alloc: Global, value: Option<&V>) -> Result<String, AllocError> {
    match value {
        Some(value) => String::from_str(
            alloc,
            if value.as_array().is_some() {
                "a list"
            } else {
                "no list"
            },
        ),
        None => fields::none(alloc),
    }
}
