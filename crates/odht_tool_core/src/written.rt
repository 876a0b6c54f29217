//! What is written of keys and values: a number in decimal digits, with a sign or without, bytes in
//! hexadecimal digits or as plain text, and nothing at all.
ghost use Rattle.std.specs.Prelude.{◌≡◌, ℕ, List, [], IfSome, IsNone, OnOk};
ghost use Rattle.std.specs.Int.{w32, w64};
ghost use Rattle.std.specs.Io.KnownBytes.{Appends};
ghost use Rattle.std.specs.List.{AllPass};
ghost use Rattle.odht_tool_core.specs.Forms.{bytes_text, number_text};
ghost use Rattle.odht_tool_core.specs.Json.{is_simple};

use crate::digits::write_number;
use crate::forms::Form;
use crate::hexadecimal::no_plain_bytes;
use crate::plain::{plain_of, write_plain};
use crate::signed::write_signed;
use crate::text::write_bytes;
use std::io::{self, Write};

/// A key or a value that has a text in each form.
pub trait Written {
    ghost use Rattle.odht_tool_core.specs.declared.forms.Form.{Form};

    ghost text: { Form → Self → List ℕ };

    /// The text, where it may have any bytes. None where each is a character that stands for
    /// itself in strings of JSON.
    fn plain_bytes(&self, form: Form) -> Option<&[u8]>
        ensures some { IfSome result (λ t. t.now ≡ text form self.now) }
        ensures none { IsNone result → AllPass is_simple (text form self.now) };

    /// Writes the text.
    fn write<W: Write>(&self, form: Form, output: &mut W) -> io::Result<()>
        ensures { OnOk result (Appends (W.contents output.old) (W.contents output.new)
            (text form self.now)) };
}

impl Written for u32 {
    ghost text = { number_text w32 };

    fn plain_bytes(&self, _form: Form) -> Option<&[u8]> {
        None
    }

    #[inline(always)]
    fn write<W: Write>(&self, form: Form, output: &mut W) -> io::Result<()> {
        match form {
            Form::Signed => write_signed(u64::from(*self), u64::from(u32::MAX), output),
            Form::BigEndian => write_number(u64::from(self.swap_bytes()), output),
            _ => write_number(u64::from(*self), output),
        }
    }
}

impl Written for u64 {
    ghost text = { number_text w64 };

    fn plain_bytes(&self, _form: Form) -> Option<&[u8]> {
        None
    }

    #[inline(always)]
    fn write<W: Write>(&self, form: Form, output: &mut W) -> io::Result<()> {
        match form {
            Form::Signed => write_signed(*self, u64::MAX, output),
            Form::BigEndian => write_number(self.swap_bytes(), output),
            _ => write_number(*self, output),
        }
    }
}

impl Written for () {
    ghost text = { λ form u. [] };

    fn plain_bytes(&self, _form: Form) -> Option<&[u8]> {
        None
    }

    fn write<W: Write>(&self, _form: Form, output: &mut W) -> io::Result<()> {
        output.write_all(b"")
    }
}

impl<const N: usize> Written for [u8; N] {
    ghost text = { bytes_text };

    fn plain_bytes(&self, form: Form) -> Option<&[u8]> {
        match form {
            Form::Plain => Some(plain_of(self)),
            _ => no_plain_bytes(self),
        }
    }

    #[inline(always)]
    fn write<W: Write>(&self, form: Form, output: &mut W) -> io::Result<()> {
        match form {
            Form::Plain => write_plain(self, output),
            _ => write_bytes(self, output),
        }
    }
}
