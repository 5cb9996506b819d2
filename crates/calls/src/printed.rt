// What a command prints.
use std::alloc::Global;
use std::fmt;

/// What a command prints. Once memory is wanting it takes no more.
#[derive(Drop)]
pub struct Printed {
    text: String,
    is_whole: bool,
}

impl Printed {
    /// Nothing so far.
    pub fn new(alloc: Global) -> Printed {
        Printed {
            text: String::new(alloc),
            is_whole: true,
        }
    }

    /// Adds a text.
    pub fn put(&mut self, text: &str) {
        if self.is_whole {
            self.is_whole = self.text.push_str(text).is_ok();
        }
    }

    /// Adds what `write!` writes.
    pub fn write_fmt<D: fmt::Display + Drop>(&mut self, value: D) {
        if self.is_whole {
            self.is_whole = self.text.write_fmt(value).is_ok();
        }
    }

    /// Adds a word with numbers behind it.
    pub fn put_numbers(&mut self, word: &str, numbers: &[u64]) {
        self.put(word);
        for n in numbers {
            write!(self, " {n}");
        }
    }

    /// Takes back what was added.
    pub fn clear(&mut self) {
        self.text.clear();
    }
}

impl fmt::Display for Printed {
    fn fmt<W: fmt::Write>(&self, f: &mut fmt::Formatter<W>) -> fmt::Result {
        if self.is_whole {
            f.write_str(&self.text)
        } else {
            f.write_str("out of memory")
        }
    }
}
