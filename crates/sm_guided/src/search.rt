// What the search has made and seen so far.
use crate::halt::Halt;
use crate::places::Outline;
use crate::records::{Note, Record, Sign};
use crate::running::{Runs, Watched};
use crate::setting::{Picked, Setting};
use indexmap::IndexSet;
use sm_syntax::{CopyName, PerCopy};
use std::alloc::{AllocError, AllocFailed, Global};

// How many inputs may be made beyond the stated trials.
const MOST_MADE: u64 = 1_024;

// How many steps all runs together may take.
const SEARCH_STEPS: u64 = 200_000_000;

/// A place of a copy's program and a sign: what a run is looked for to show.
#[derive(Clone, Copy)]
pub struct Target {
    pub copy: CopyName,
    pub place: usize,
    pub sign: Sign,
}

/// The inputs so far, and what their runs showed.
pub struct Search {
    inputs: IndexSet<Vec<i128>>,
    made: u64,
    left: u64,
    records: PerCopy<Vec<Record>>,
}

// One call ends a value, and not one for each field: proofs of what has it stay small.
impl Drop for Search {
    fn drop(self) {
        let Self {
            inputs: _,
            made: _,
            left: _,
            records: _,
        } = self;
    }
}

impl Search {
    /// No inputs.
    pub fn new(alloc: Global, setting: &Setting<'_>) -> Result<Search, AllocError> {
        let records = no_records(alloc, &setting.outlines)?;
        Ok(Search {
            inputs: IndexSet::new(alloc),
            made: 0,
            left: SEARCH_STEPS,
            records,
        })
    }

    /// The input at a place among all, which is picked, and before which so many were made.
    pub fn picked(
        &self,
        alloc: Global,
        made: u64,
        input: usize,
    ) -> Result<Option<Picked>, AllocError> {
        match self.inputs.get_index(input) {
            None => Ok(None),
            Some(numbers) => Ok(Some(Picked {
                made,
                numbers: numbers.to_vec(alloc)?,
            })),
        }
    }

    /// Puts an input among all: its place there, and whether it is new.
    pub fn insert(&mut self, numbers: Vec<i128>) -> Result<(usize, bool), AllocFailed<Vec<i128>>> {
        self.inputs.insert_full(numbers)
    }

    /// Counts a new input beyond the stated trials. The answer is how many were made before it.
    pub fn count(&mut self) -> Result<u64, Halt> {
        let made = self.made;
        if MOST_MADE <= made {
            return Err(Halt::Spent);
        }
        self.made = made + 1;
        Ok(made)
    }

    /// Whether an input is among all.
    pub fn has(&self, numbers: &Vec<i128>) -> bool {
        self.inputs.contains(numbers)
    }

    /// How many inputs there are.
    pub fn len(&self) -> usize {
        self.inputs.len()
    }

    /// The numbers of the input at a place among all.
    pub fn numbers(&self, input: usize) -> Option<&[i128]> {
        match self.inputs.get_index(input) {
            None => None,
            Some(numbers) => Some(numbers.as_slice()),
        }
    }

    /// Whether no run so far visited the target's place with a difference of its sign.
    pub fn is_open(&self, target: Target) -> bool {
        !self.record(target).signs.has(target.sign)
    }

    /// What all runs so far show of the target's place.
    pub fn record(&self, target: Target) -> Record {
        let records = self.records.get(target.copy);
        if target.place < records.len() {
            return records[target.place];
        }
        Record::new()
    }

    /// Takes steps.
    pub fn spend(&mut self, steps: u64) -> Result<(), Halt> {
        match self.left.checked_sub(steps) {
            None => {
                self.left = 0;
                Err(Halt::Spent)
            }
            Some(left) => {
                self.left = left;
                Ok(())
            }
        }
    }

    // Takes the steps of the runs from an input, with those that it takes to begin.
    fn spend_all(&mut self, begin: u64, copies: &PerCopy<Watched>) -> Result<(), Halt> {
        self.spend(begin)?;
        self.spend(copies.base.steps)?;
        self.spend(copies.variant_a.steps)?;
        self.spend(copies.variant_b.steps)?;
        self.spend(copies.candidate.steps)
    }

    /// Takes the steps of the runs from the input at a place among all, and what they show. Whether
    /// their ends break the condition.
    pub fn take(&mut self, setting: &Setting<'_>, runs: &Runs, input: usize) -> Result<bool, Halt> {
        let copies = &runs.copies;
        self.spend_all(setting.steps, copies)?;
        add_notes(&mut self.records.base, &copies.base.notes, input);
        add_notes(&mut self.records.variant_a, &copies.variant_a.notes, input);
        add_notes(&mut self.records.variant_b, &copies.variant_b.notes, input);
        add_notes(&mut self.records.candidate, &copies.candidate.notes, input);
        Ok(runs.breaks)
    }
}

// The records of places that no run visited.
fn no_records(
    alloc: Global,
    outlines: &PerCopy<Outline>,
) -> Result<PerCopy<Vec<Record>>, AllocError> {
    let mut records = PerCopy {
        base: Vec::new(alloc),
        variant_a: Vec::new(alloc),
        variant_b: Vec::new(alloc),
        candidate: Vec::new(alloc),
    };
    put_all_records(&mut records, outlines)?;
    Ok(records)
}

// Puts a record for each place of the four programs.
fn put_all_records(
    records: &mut PerCopy<Vec<Record>>,
    outlines: &PerCopy<Outline>,
) -> Result<(), AllocError> {
    put_records(&mut records.base, outlines.base.places())?;
    put_records(&mut records.variant_a, outlines.variant_a.places())?;
    put_records(&mut records.variant_b, outlines.variant_b.places())?;
    put_records(&mut records.candidate, outlines.candidate.places())
}

// Puts the records of so many places that no run visited.
fn put_records(records: &mut Vec<Record>, places: usize) -> Result<(), AllocError> {
    for _ in 0..places {
        records.push(Record::new())?;
    }
    Ok(())
}

// Adds the notes of a run from the input at a place among all.
fn add_notes(records: &mut Vec<Record>, notes: &[Option<Note>], input: usize) {
    for place in 0..notes.len() {
        if place < records.len() {
            if let Some(note) = notes[place] {
                records[place] = records[place].with(note, input);
            }
        }
    }
}

/// Whether notes have the sign of a target at its place.
pub fn show_sign(notes: &[Option<Note>], target: Target) -> bool {
    if target.place < notes.len() {
        if let Some(note) = notes[target.place] {
            return note.signs.has(target.sign);
        }
    }
    false
}

/// The difference that is noted for a place.
pub fn difference_in(notes: &[Option<Note>], place: usize) -> Option<i128> {
    if place < notes.len() {
        if let Some(note) = notes[place] {
            return Some(note.difference);
        }
    }
    None
}
