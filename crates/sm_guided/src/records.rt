// What runs show of a place: the differences with which they visit it.

/// A sign of a difference, in the order in which they are looked for.
#[derive(Clone, Copy)]
pub enum Sign {
    Zero,
    Below,
    Above,
}

impl Sign {
    /// The difference of this sign that is nearest to 0.
    pub fn number(self) -> i128 {
        match self {
            Sign::Zero => 0,
            Sign::Below => -1,
            Sign::Above => 1,
        }
    }
}

/// A set of signs.
#[derive(Clone, Copy)]
pub struct Signs {
    zero: bool,
    below: bool,
    above: bool,
}

impl Signs {
    /// No signs.
    pub fn none() -> Signs {
        Signs {
            zero: false,
            below: false,
            above: false,
        }
    }

    /// The sign of a difference.
    pub fn of(difference: i128) -> Signs {
        Signs {
            zero: difference == 0,
            below: difference < 0,
            above: 0 < difference,
        }
    }

    /// Whether a sign is among them.
    pub fn has(self, sign: Sign) -> bool {
        match sign {
            Sign::Zero => self.zero,
            Sign::Below => self.below,
            Sign::Above => self.above,
        }
    }

    /// The signs of both.
    pub fn and(self, other: Signs) -> Signs {
        Signs {
            zero: self.zero || other.zero,
            below: self.below || other.below,
            above: self.above || other.above,
        }
    }
}

/// What one run shows of a place that it visits.
#[derive(Clone, Copy)]
pub struct Note {
    /// The difference of the least size, at the first visit with that size.
    pub difference: i128,
    /// The signs of the differences at all visits.
    pub signs: Signs,
}

impl Note {
    /// The note after the first visit.
    pub fn of(difference: i128) -> Note {
        Note {
            difference,
            signs: Signs::of(difference),
        }
    }

    /// The note after one more visit.
    pub fn with(self, difference: i128) -> Note {
        let signs = self.signs.and(Signs::of(difference));
        if is_nearer(difference, self.difference) {
            return Note { difference, signs };
        }
        Note {
            difference: self.difference,
            signs,
        }
    }
}

/// A run that visits a place: the place of its input among all, and the difference of its note.
#[derive(Clone, Copy)]
pub struct Visit {
    pub input: usize,
    pub difference: i128,
}

/// What all runs so far show of a place.
#[derive(Clone, Copy)]
pub struct Record {
    /// The signs of the differences at all visits.
    pub signs: Signs,
    /// The run with the difference of the least size, the first of them.
    pub nearest: Option<Visit>,
    /// The next in that order.
    pub second: Option<Visit>,
}

impl Record {
    /// The record of a place that no run visited.
    pub fn new() -> Record {
        Record {
            signs: Signs::none(),
            nearest: None,
            second: None,
        }
    }

    /// The record after one more run.
    pub fn with(self, note: Note, input: usize) -> Record {
        let signs = self.signs.and(note.signs);
        let visit = Visit {
            input,
            difference: note.difference,
        };
        if goes_before(visit, self.nearest) {
            Record {
                signs,
                nearest: Some(visit),
                second: self.nearest,
            }
        } else if goes_before(visit, self.second) {
            Record {
                signs,
                nearest: self.nearest,
                second: Some(visit),
            }
        } else {
            Record {
                signs,
                nearest: self.nearest,
                second: self.second,
            }
        }
    }
}

// Whether a later run goes before another.
fn goes_before(visit: Visit, other: Option<Visit>) -> bool {
    match other {
        None => true,
        Some(other) => is_nearer(visit.difference, other.difference),
    }
}

/// Whether a number is nearer to 0 than another.
pub fn is_nearer(a: i128, b: i128) -> bool {
    a.unsigned_abs() < b.unsigned_abs()
}
