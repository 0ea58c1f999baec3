//! What a head asks for.

ghost use Rattle.std.specs.Prelude.{◌≡◌, ◌++◌, IfOk, OnOk, codes};
ghost use Rattle.http_wire.specs.Fields.{values_of};
ghost use Rattle.session_base.specs.Request.{asked_of, extra_in, extra_of, extra_value, manner_of, read_of, target_in, want_in, says_close};

use crate::manner::Manner;
use byte_range::{Want, read};
use cdni_base::{Asked, Moment, Protocol, Target, TargetFault, Text};
use cdni_log::{Extra, ExtraList, Field, FieldList, logged_value};
use field_list::{Told, told_by};
use http_wire::{Found, Head};
use std::alloc::{AllocError, Global};
use std::marker::Model;

/// The most bytes of a method.
pub const METHOD_MAX: usize = 127;

/// What is asked for by this head, how it is to be answered, and what its record has of it; `None` where the head is answered 400, since Host is
/// repeated, or absent where the target is not absolute, or the target does not read, or the method is too long.
pub fn read_request(
    alloc: Global,
    head: &Head,
    protocol: Protocol,
    fields: &FieldList,
    moment: Moment,
    last: bool,
) -> Result<Option<(Asked, Manner)>, AllocError>
    ensures { IfOk result (λ read. read ≡ read_of protocol fields.now moment last head.now) }
{
    match read_asked(alloc, head, protocol)? {
        Some(asked) => Ok(Some((asked, manner_of(alloc, head, fields, moment, last)?))),
        None => Ok(None),
    }
}

// the method and the target
#[tactic(auto, unfolding(crate::specs::Request::asked_of))]
fn read_asked(alloc: Global, head: &Head, protocol: Protocol) -> Result<Option<Asked>, AllocError>
    ensures { IfOk result (λ asked. asked ≡ asked_of protocol head.now) }
{
    if head.method().len() > METHOD_MAX {
        return Ok(None);
    }
    match read_target(alloc, head, protocol == Protocol::Https)? {
        Some(target) => Ok(Some(Asked {
            method: Text::of(alloc, head.method())?,
            protocol,
            target,
        })),
        None => Ok(None),
    }
}

// the target, which is asked of the one host of the head where it is not absolute
fn read_target(alloc: Global, head: &Head, secure: bool) -> Result<Option<Target>, AllocError>
    ensures { IfOk result (λ target. target ≡ target_in secure head.now.target (values_of (codes "host") head.now.headers)) }
{
    let read = match head.value(b"host") {
        Found::None => Target::read(alloc, head.target(), None, secure),
        Found::One(host) => Target::read(alloc, head.target(), Some(host), secure),
        Found::Many => return Ok(None),
    };
    match read {
        Ok(target) => Ok(Some(target)),
        Err(TargetFault::Memory) => Err(AllocError),
        Err(_) => Ok(None),
    }
}

// how the request is to be answered, and what its record has of its head
#[tactic(auto, unfolding(crate::specs::Request::manner_of))]
fn manner_of(
    alloc: Global,
    head: &Head,
    fields: &FieldList,
    moment: Moment,
    last: bool,
) -> Result<Manner, AllocError>
    ensures { IfOk result (λ manner. manner ≡ manner_of fields.now head.now moment last) }
{
    let close = says_close(head);
    let extra = extra_of(alloc, head, fields)?;
    Ok(Manner {
        is_head: head.method() == b"HEAD".as_slice(),
        want: want_of(head),
        moment,
        closes: last || close,
        leaves: !last && close,
        extra,
    })
}

// the values of the header fields that are logged
fn extra_of(alloc: Global, head: &Head, fields: &FieldList) -> Result<ExtraList, AllocError>
    ensures { IfOk result (λ extra. extra ≡ extra_of fields.now head.now.headers) }
{
    let mut extra = ExtraList::new(alloc);
    'fields: for field in fields.as_slice() {
        add_extra(alloc, head, field, &mut extra)?;
    }
    Ok(extra)
}

// adds the value of the header field that the field is of, if it is of one
fn add_extra(
    alloc: Global,
    head: &Head,
    field: &Field,
    extra: &mut ExtraList,
) -> Result<(), AllocError>
    ensures { OnOk result (extra.new ≡ extra.old ++ extra_in head.now.headers field.now) }
{
    match field {
        Field::Header(name) => extra.push(extra_value(alloc, head, name.bytes())?),
        _ => Ok(()),
    }
}

// the value of the header field of this name, where it is there once
fn extra_value(alloc: Global, head: &Head, name: &[u8]) -> Result<Extra, AllocError>
    ensures { IfOk result (λ value. value ≡ extra_value (values_of name.now head.now.headers)) }
{
    match head.value(name) {
        Found::One(value) => logged_value(alloc, value),
        Found::None | Found::Many => Ok(None),
    }
}

// which part is asked for: by one Range, without If-Range
fn want_of(head: &Head) -> Want
    ensures { result ≡ want_in (values_of (codes "range") head.now.headers) (values_of (codes "if-range") head.now.headers) }
{
    match (head.value(b"range"), head.value(b"if-range")) {
        (Found::One(value), Found::None) => read(value),
        _ => Want::All,
    }
}

// whether one of the options so far is `close`; it is seen as that
#[derive(Drop)]
struct AnyClose {
    holds: bool,
}

impl Model for AnyClose {
    ghost use Rattle.std.specs.Prelude.{Bool};

    ghost Value = { Bool };

    ghost view = { λ any. any.holds };
}

impl Told for AnyClose {
    ghost use Rattle.std.specs.Prelude.{◌||◌};
    ghost use Rattle.session_base.specs.Request.{is_close};

    ghost after = { λ told option. told || is_close option };

    // whether this one is, or one before it
    fn with(self, option: &[u8]) -> AnyClose {
        AnyClose {
            holds: self.holds || option.eq_ignore_ascii_case(b"close"),
        }
    }
}

// whether the connection closes by the request
#[tactic(auto, unfolding(crate::specs::Request::says_close))]
fn says_close(head: &Head) -> bool
    ensures { result ≡ says_close head.now }
{
    head.minor() == 0 || told_by(head, b"connection", AnyClose { holds: false }).holds
}
