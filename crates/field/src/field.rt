ghost use Rattle.std.specs.Prelude.{◌≡◌, Option};
ghost use Rattle.std.specs.Str.{bytes_eq};
ghost use Rattle.field.specs.Fields.{Content, shown, content_of, bytes_of, nothing_in, narrow_in, wide_in, modes_in};

use crate::{decimal, letters};
use sequencing::mode::Mode;

// A field of a line; a number and a word show the bytes of the sheet that they were cut from. Not an Option of two: that a field is empty
// is asked of it as a number is.
#[derive(Clone, Copy)]
pub enum Field<'a> {
    Empty,
    Number { value: u64, text: &'a [u8] },
    Word(&'a [u8]),
}

// A field is cut from the text that stands between two commas.
impl<'a> From<&'a [u8]> for Field<'a> {
    ghost from_gives = { λ text field. shown field ≡ content_of text.now };

    // Inlined: a line's seven fields are made one after the other, and a call for each costs more than a third of the time.
    #[inline(always)]
    fn from(text: &'a [u8]) -> Field<'a> {
        if text.is_empty() {
            return Field::Empty;
        }
        match decimal::number(text) {
            Some(value) => Field::Number { value, text },
            None => Field::Word(text),
        }
    }
}

impl<'a> Field<'a> {
    // The bytes that the field was cut from.
    pub fn text(self) -> &'a [u8]
        ensures { result.now ≡ bytes_of (shown self.entry) }
    {
        match self {
            Field::Empty => b"",
            Field::Number { value: _, text } => text,
            Field::Word(text) => text,
        }
    }

    // Whether the field has just these bytes.
    pub fn is(self, bytes: &[u8]) -> bool
        ensures { result ≡ bytes_eq (bytes_of (shown self.entry)) bytes.now }
    {
        self.text() == bytes
    }
}

// A value that a call may ask of a field; nothing where the field does not say one.
pub trait FromField: Sized {
    ghost read: { Content → Option Self };

    fn from_field(field: Field<'_>) -> Option<Self>
        ensures { result ≡ read (shown field.entry) };
}

// The field of a call that does not use it is empty.
impl FromField for () {
    ghost read = { nothing_in };

    fn from_field(field: Field<'_>) -> Option<()> {
        match field {
            Field::Empty => Some(()),
            _ => None,
        }
    }
}

// A number below 2^32.
impl FromField for u32 {
    ghost read = { narrow_in };

    fn from_field(field: Field<'_>) -> Option<u32> {
        match field {
            Field::Number { value, text: _ } => u32::try_from(value).ok(),
            _ => None,
        }
    }
}

// A number below 2^64.
impl FromField for u64 {
    ghost read = { wide_in };

    fn from_field(field: Field<'_>) -> Option<u64> {
        match field {
            Field::Number { value, text: _ } => Some(value),
            _ => None,
        }
    }
}

// The letters of a declaration.
impl FromField for [Mode; 8] {
    ghost read = { modes_in };

    fn from_field(field: Field<'_>) -> Option<[Mode; 8]> {
        match field {
            Field::Word(text) => letters::modes(text),
            _ => None,
        }
    }
}
