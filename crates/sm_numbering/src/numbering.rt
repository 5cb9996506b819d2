// Values without repeats, each found by its hash.
ghost use Rattle.std.specs.Prelude.{◌≡◌, ◌-◌, ◌++◌, ◌∷◌, [], length, take, true, false, is_some, position, Some, slice_get, ◌<◌, IfOk, IfSome, OnOk, OnErr};
ghost use Rattle.std.specs.List.{list_any, IsDistinct};
ghost use Rattle.sm_numbering.specs.Numbers.{with_value};

use std::alloc::{AllocError, Global};
use std::collections::HashMap;
use std::collections::hash_map::Equivalent;
use std::hash::Hash;
use std::marker::Model;

/// Values without repeats. A value's number is its place in the order in which they came.
pub struct Numbering<T: Eq + Hash> {
    list: Vec<T>,
    places: HashMap<T, usize>,
}

impl<T: Eq + Hash> Model for Numbering<T> {
    ghost use Rattle.std.specs.Prelude.{◌≡◌, List};
    ghost use Rattle.std.specs.HashMap.{get};
    ghost use Rattle.sm_numbering.specs.Places.{place_of, AreApart};

    ghost Value = { List T };

    ghost view = { λ n. n.list.items };

    ghost invariant = { λ n.
        ((q : T) → get T.eq n.places q ≡ place_of (T.eq q) n.list.items)
        × AreApart T.eq n.list.items };
}

impl<T: Eq + Hash + Drop> Drop for Numbering<T> {
    fn drop(self) {
        let Self { list, places } = self;
        drop(list);
        drop(places);
    }
}

impl<T: Eq + Hash + Drop> Numbering<T> {
    /// No values.
    pub fn new(alloc: Global) -> Self
        ensures { result ≡ [] }
    {
        Numbering {
            list: Vec::new(alloc),
            places: HashMap::new(alloc),
        }
    }

    /// What the values' memory comes from.
    pub fn allocator(&self) -> Global {
        *self.list.allocator()
    }

    /// The number of the value that is equivalent to a key, if it is there.
    pub fn find<Q: Equivalent<T>>(&self, key: Q) -> Option<usize>
        ensures found { is_some result ≡ list_any (Q.equivalent key) self.now }
        ensures number { result ≡ position (Q.equivalent key) self.now }
        ensures stored { IfSome result (λ n. (t : T) × (slice_get self.now n ≡ Some t)
            × (Q.equivalent key t ≡ true)) }
    {
        match self.places.get_key_value(key) {
            Some((_, at)) => Some(*at),
            None => None,
        }
    }

    /// Whether a value that is equivalent to a key is there.
    pub fn contains<Q: Equivalent<T>>(&self, key: Q) -> bool
        ensures { result ≡ list_any (Q.equivalent key) self.now }
    {
        self.find(key).is_some()
    }

    /// How many values there are.
    pub fn len(&self) -> usize
        ensures { result ≡ length self.now }
    {
        self.list.len()
    }

    /// The value with a number.
    pub fn get(&self, number: usize) -> &T
        requires { number < length self.now }
        ensures { slice_get self.now number ≡ Some result.now }
    {
        &self.list[number]
    }

    /// The values, each at its number.
    pub fn as_slice(&self) -> &[T]
        ensures values { result.now ≡ self.now }
        ensures unique { IsDistinct T.eq self.now }
    {
        self.list.as_slice()
    }

    /// Puts a value last that isn't there, and gives its number. It is handed in twice, since it is kept
    /// twice.
    pub fn put(&mut self, value: T, key: T) -> Result<usize, AllocError>
        requires same { T.eq key value ≡ true }
        requires new { list_any (T.eq value) self.old ≡ false }
        ensures values { OnOk result (self.new ≡ self.old ++ value ∷ []) }
        ensures number { IfOk result (λ n. n ≡ length self.old) }
        ensures stored { IfOk result (λ n. slice_get self.new n ≡ Some value) }
        ensures unique { OnOk result (IsDistinct T.eq self.new) }
        ensures err { OnErr result (self.new ≡ self.old) }
    {
        let at = self.len();
        self.list.push(value)?;
        match self.places.insert(key, at) {
            Ok(_) => return Ok(at),
            Err(_) => {}
        }
        self.list.pop();
        Err(AllocError)
    }

    // Takes the last value away.
    fn drop_last(&mut self)
        ensures { self.new ≡ take (length self.old - 1) self.old }
    {
        if let Some(value) = self.list.pop() {
            self.places.remove(&value);
        }
    }

    /// Leaves the first `len` values.
    pub fn truncate(&mut self, len: usize)
        ensures { self.new ≡ take len self.old }
    {
        let all = self.len();
        if all <= len {
            return;
        }
        for _ in len..all {
            self.drop_last();
        }
    }
}

impl<T: Eq + Hash + Copy + Drop> Numbering<T> {
    /// The number of a value, which goes last where it isn't there.
    pub fn add(&mut self, value: T) -> Result<usize, AllocError>
        ensures values { OnOk result (self.new ≡ with_value T.eq self.old value) }
        ensures err { OnErr result (self.new ≡ self.old) }
    {
        match self.find(&value) {
            Some(number) => return Ok(number),
            None => {}
        }
        let number = self.put(value, value)?;
        Ok(number)
    }
}
