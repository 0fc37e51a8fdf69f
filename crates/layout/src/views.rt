// Tables in lent bytes, seen as the lists of their rows.
#![tactic(auto, using(crate::proofs::Seen::tables, crate::proofs::Reading::reading))]

ghost use Rattle.std.specs.Prelude.{◌≡◌, ◌==◌, ◌+◌, ◌*◌, ◌<◌, ◌≤◌, ◌/◌, length, get_or, drop, []};
ghost use Rattle.meaning.specs.Types.{form_no, result_no, parts, names};
ghost use Rattle.layout.specs.Rows.{numbers, row_table, type_table};
ghost use Rattle.layout.specs.Forms.{form_byte, says, part_types, is_function};

use crate::forms::Form;
use crate::{Row, TERM_ROW, TYPE_ROW};
use std::marker::Model;

// A table of term rows.
#[derive(Drop)]
pub struct Rows<'a> {
    bytes: &'a [u8],
}

impl<'a> Model for Rows<'a> {
    ghost use Rattle.std.specs.Prelude.{ℕ, List, ◌≤◌, length};
    ghost use Rattle.layout.specs.Rows.{row_table};

    ghost Value = { List (List ℕ) };

    ghost view = { λ r. row_table r.bytes.now };

    ghost invariant = { λ r. length r.bytes.now ≤ 32768 };
}

impl<'a> Rows<'a> {
    pub fn new(bytes: &'a [u8]) -> Self
        requires { length bytes.now ≤ 32768 }
        ensures { result ≡ row_table bytes.now }
    {
        Rows { bytes }
    }

    pub fn len(&self) -> usize
        ensures rows { result ≡ length self.now }
        ensures few { result ≤ 4096 }
    {
        self.bytes.len() / TERM_ROW
    }

    pub fn at(&self, i: usize) -> Row
        requires { i < length self.now }
        ensures row { numbers result ≡ get_or self.now i [] }
        ensures few { i < 4096 }
    {
        crate::row_at(self.bytes, i)
    }

    // The rows from row i on.
    pub fn tail(&self, i: usize) -> Rows<'a>
        requires { i ≤ length self.now }
        ensures { result ≡ drop i self.now }
    {
        Rows::new(&self.bytes[TERM_ROW * i..])
    }
}

// A table of types. A number beyond the table says nothing.
#[derive(Drop)]
pub struct Types<'a> {
    bytes: &'a [u8],
}

impl<'a> Model for Types<'a> {
    ghost use Rattle.std.specs.Prelude.{ℕ, List};
    ghost use Rattle.layout.specs.Rows.{type_table};

    ghost Value = { List (List ℕ) };

    ghost view = { λ t. type_table t.bytes.now };
}

impl<'a> Types<'a> {
    pub fn new(bytes: &'a [u8]) -> Self
        ensures { result ≡ type_table bytes.now }
    {
        Types { bytes }
    }

    pub fn len(&self) -> usize
        ensures { result ≡ length self.now }
    {
        self.bytes.len() / TYPE_ROW
    }

    // The number of its form.
    pub fn form_of(&self, t: u16) -> u8
        ensures { result ≡ form_no (says self.now t) }
    {
        let at = t as usize;
        if at < self.len() {
            crate::form_no(self.bytes, at)
        } else {
            0
        }
    }

    // Whether it is of a form.
    pub fn is(&self, t: u16, form: Form) -> bool
        ensures { result ≡ (form_no (says self.now t) == form_byte form) }
    {
        self.form_of(t) == form.number()
    }

    // Whether it is a native or a foreign function.
    pub fn is_function(&self, t: u16) -> bool
        ensures { result ≡ is_function (form_no (says self.now t)) }
    {
        let form = self.form_of(t);
        form == Form::Native.number() || form == Form::Foreign.number()
    }

    // Its result or element type.
    pub fn result_of(&self, t: u16) -> u16
        ensures { result ≡ result_no (says self.now t) }
    {
        let at = t as usize;
        if at < self.len() {
            crate::result_no(self.bytes, at)
        } else {
            0
        }
    }

    // How many parts it has. A row has room for eight parts.
    pub fn parts_of(&self, t: u16) -> usize
        ensures { (result ≡ length (parts (says self.now t))) × (result ≤ 8) }
    {
        let at = t as usize;
        if at < self.len() {
            (crate::parts_no(self.bytes, at) as usize).min(8)
        } else {
            0
        }
    }

    // The name of its k-th part, counted from 0.
    pub fn name_of(&self, t: u16, k: usize) -> u16
        requires { k < length (parts (says self.now t)) }
        ensures { result ≡ get_or (names (parts (says self.now t))) k 0 }
    {
        crate::name_no(self.bytes, t as usize, k)
    }

    // The type of its k-th part, counted from 0.
    pub fn type_of(&self, t: u16, k: usize) -> u16
        requires { k < length (parts (says self.now t)) }
        ensures { result ≡ get_or (part_types (says self.now t)) k 0 }
    {
        crate::type_no(self.bytes, t as usize, k)
    }
}
