//! What a JSON value shows, whichever type holds it.

ghost use Rattle.std.specs.Prelude.{◌≡◌, map, is_some, option_map, option_and_then};
ghost use Rattle.serde_json.specs.Find.{get, as_str, as_array, as_object, as_bool, as_number, as_u64};
ghost use Rattle.serde_json.specs.View.{items_of};

use crate::borrowed::whole_number;
use json::Value as BorrowedValue;
use serde_json::Value;

/// A JSON value that can be looked into. It is seen as what `serde_json` says that the value is.
pub trait JsonValue: Drop {
    ghost use Rattle.serde_json.specs.Data.{Data};

    ghost seen: { Self → Data };

    /// The member of this name, where this is an object that has one.
    fn get(&self, name: &str) -> Option<&Self>
        ensures { option_map (λ v. seen v.now) result ≡ get name.now (seen self.now) };

    /// The text, where this is one.
    fn as_str(&self) -> Option<&str>
        ensures { option_map (λ text. text.now) result ≡ as_str (seen self.now) };

    /// The items, where this is a list.
    fn as_array(&self) -> Option<&[Self]>
        ensures { option_map (λ items. items_of (map seen items.now)) result ≡ as_array (seen self.now) };

    /// Whether this is an object.
    fn is_object(&self) -> bool
        ensures { result ≡ is_some (as_object (seen self.now)) };

    /// The flag, where this is true or false.
    fn as_bool(&self) -> Option<bool>
        ensures { result ≡ as_bool (seen self.now) };

    /// The number, where this is a whole one from 0 to 2^64 - 1 without point and exponent.
    fn as_u64(&self) -> Option<u64>
        ensures { result ≡ option_and_then as_u64 (as_number (seen self.now)) };
}

impl JsonValue for Value {
    ghost use Rattle.serde_json.specs.View.{view};

    ghost seen = { view };

    fn get(&self, name: &str) -> Option<&Value> {
        Value::get(self, name)
    }

    fn as_str(&self) -> Option<&str> {
        Value::as_str(self)
    }

    fn as_array(&self) -> Option<&[Value]> {
        match Value::as_array(self) {
            Some(items) => Some(items.as_slice()),
            None => None,
        }
    }

    fn is_object(&self) -> bool {
        Value::is_object(self)
    }

    fn as_bool(&self) -> Option<bool> {
        Value::as_bool(self)
    }

    fn as_u64(&self) -> Option<u64> {
        Value::as_u64(self)
    }
}

impl<'a> JsonValue for BorrowedValue<'a> {
    ghost use Rattle.json.specs.Value.{value_view};
    ghost use Rattle.json_read.specs.Borrowed.{data_of};

    ghost seen = { λ v. data_of (value_view v) };

    fn get(&self, name: &str) -> Option<&BorrowedValue<'a>> {
        BorrowedValue::get(self, name)
    }

    fn as_str(&self) -> Option<&str> {
        BorrowedValue::as_str(self)
    }

    fn as_array(&self) -> Option<&[BorrowedValue<'a>]> {
        match self {
            BorrowedValue::Array(items) => Some(items.as_slice()),
            _ => None,
        }
    }

    fn is_object(&self) -> bool {
        matches!(self, BorrowedValue::Object(_))
    }

    fn as_bool(&self) -> Option<bool> {
        BorrowedValue::as_bool(self)
    }

    fn as_u64(&self) -> Option<u64> {
        match BorrowedValue::as_number(self) {
            Some(text) => whole_number(text),
            None => None,
        }
    }
}
