// The table of names.
ghost use Rattle.std.specs.Prelude.{◌≡◌, ◌<◌, ◌-◌, ◌^◌, length, is_some, slice_get, take, Some, [], List, ℕ, IfOk, IfSome, OnOk, OnErr};
ghost use Rattle.std.specs.List.{position_or_len};
ghost use Rattle.std.specs.Str.{bytes_eq};
ghost use Rattle.sm_syntax.specs.text.Symbols.{is_among, with_text};

use crate::tree::Name;
use sm_numbering::Numbering;
use std::alloc::{AllocError, Global};
use std::marker::Model;

/// The texts of names without repeats. A name's number is its place in the table.
#[derive(Drop)]
pub struct NameTable {
    texts: Numbering<String>,
}

impl Model for NameTable {
    ghost use Rattle.std.specs.Prelude.{◌<◌, ◌^◌, length, map, List, ℕ};
    ghost use Rattle.std.specs.String.{string_bytes};

    ghost Value = { List (List ℕ) };

    ghost view = { λ t. map string_bytes t.texts };

    ghost invariant = { λ t. length t.texts < 2 ^ 32 };
}

impl NameTable {
    /// A table of no names.
    pub fn new(alloc: Global) -> Self
        ensures { result ≡ [] }
    {
        NameTable {
            texts: Numbering::new(alloc),
        }
    }

    /// The number that a text has. A new text goes last.
    pub fn add(&mut self, text: &str) -> Result<Name, AllocError>
        requires { length self.old < 2 ^ 32 - 1 }
        ensures ok { OnOk result (self.new ≡ with_text self.old text.now) }
        ensures number { let place = position_or_len (bytes_eq text.now) self.new in
            IfOk result (λ name. name.0 ≡ place) }
        ensures stored { IfOk result (λ name. slice_get self.new name.0 ≡ Some text.now) }
        ensures err { OnErr result (self.new ≡ self.old) }
    {
        match self.find(text) {
            Some(name) => return Ok(name),
            None => {}
        }
        let alloc = self.texts.allocator();
        let owned = String::from_str(alloc, text)?;
        let key = String::from_str(alloc, text)?;
        let index = self.texts.put(owned, key)?;
        Ok(Name(index as u32))
    }

    /// The number of a text, if it is there.
    pub fn find(&self, text: &str) -> Option<Name>
        ensures found { is_some result ≡ is_among self.now text.now }
        ensures number { let place = position_or_len (bytes_eq text.now) self.now in
            IfSome result (λ name. name.0 ≡ place) }
        ensures stored { IfSome result (λ name. slice_get self.now name.0 ≡ Some text.now) }
    {
        let index = self.texts.find(text)?;
        Some(Name(index as u32))
    }

    /// The text of a name.
    pub fn text(&self, name: Name) -> &str
        requires { name.0 < length self.now }
        ensures { slice_get self.now name.0 ≡ Some result.now }
    {
        self.texts.get(name.0 as usize).as_str()
    }

    /// How many names there are.
    pub fn len(&self) -> usize
        ensures len { result ≡ length self.now }
        ensures small { result < 2 ^ 32 }
    {
        self.texts.len()
    }

    /// Leaves the first `len` names, as a table was before later ones were added.
    pub fn cut(&mut self, len: usize)
        ensures { self.new ≡ take len self.old }
    {
        self.texts.truncate(len);
    }

    /// A table of the same names, each with the number that it has here.
    pub fn copy(&self, alloc: Global) -> Result<NameTable, AllocError>
        ensures { IfOk result (λ t. t ≡ self.now) }
    {
        let mut copy = NameTable::new(alloc);
        for text in self.texts.as_slice() {
            copy.add(text.as_str())?;
        }
        Ok(copy)
    }
}
