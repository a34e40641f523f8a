//! A line that is being put together.

ghost use Rattle.std.specs.Prelude.{◌≡◌, [], Some, OnOk};
ghost use Rattle.jt_meaning.specs.Values as spec;

use crate::small::{Form, SmallValue};
use itoa::Buffer;
use jt_base::{OutOfMemory, Text};
use std::alloc::Global;
use std::marker::Model;

/// The text of the items of a `println` so far, if each of them has one.
#[derive(Drop)]
pub struct Line {
    text: String,
    shows: bool,
}

impl Model for Line {
    ghost use Rattle.std.specs.Prelude.{ℕ, List, Option, Some, None, string_bytes, if◌then◌else◌};

    ghost Value = { Option (List ℕ) };

    ghost view = { λ l. if l.shows then Some (string_bytes l.text) else None };
}

impl Line {
    /// An empty line.
    pub(crate) fn new(alloc: Global) -> Line
        ensures { result ≡ Some [] }
    {
        Line {
            text: String::new(alloc),
            shows: true,
        }
    }

    /// Appends what is printed for a value. The handle of a task or of an object isn't printed: the
    /// line has no text then.
    pub(crate) fn push_value(&mut self, value: &SmallValue) -> Result<(), OutOfMemory>
        ensures { OnOk result (self.new ≡ spec.shown_with self.old (spec.shown value.now)) }
    {
        match &value.form {
            Form::Int(number) => {
                let mut digits = Buffer::new();
                self.push_str(digits.format(*number))
            }
            Form::Flag(flag) => self.push_str(if *flag { "true" } else { "false" }),
            Form::Nothing => self.push_str("nothing"),
            Form::Task(_) | Form::Object(_, _) => {
                self.shows = false;
                Ok(())
            }
        }
    }

    /// Appends a string of the script. The line has no text where that is no UTF-8.
    pub(crate) fn push_text(&mut self, bytes: &[u8]) -> Result<(), OutOfMemory>
        ensures { OnOk result (self.new ≡ spec.shown_with self.old (spec.text_of bytes.now)) }
    {
        match str::from_utf8(bytes) {
            Ok(text) => self.push_str(text),
            Err(_) => {
                self.shows = false;
                Ok(())
            }
        }
    }

    fn push_str(&mut self, text: &str) -> Result<(), OutOfMemory>
        ensures { OnOk result (self.new ≡ spec.shown_with self.old (Some text.now)) }
    {
        self.text.push_str(text)?;
        Ok(())
    }

    /// The whole text, if each item has one.
    pub(crate) fn finish(self) -> Option<Text>
        ensures { result ≡ self }
    {
        if self.shows {
            Some(Text::from_string(self.text))
        } else {
            None
        }
    }
}
