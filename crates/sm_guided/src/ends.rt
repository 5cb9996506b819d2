// Whether four ends break the condition.
use sm_eval::Store;
use sm_syntax::{Name, PerCopy, Sort, keeps};

/// Whether at some cell of an output a change is lost in the ends, or one is made that nobody made.
pub fn break_condition(outputs: &[Name], ends: &PerCopy<&Store>) -> bool {
    for x in outputs {
        if breaks_at_name(*x, ends) {
            return true;
        }
    }
    false
}

// Whether they break it at a cell of a name.
fn breaks_at_name(x: Name, ends: &PerCopy<&Store>) -> bool {
    breaks_at_number(x, ends)
        || breaks_among(x, ends.base, ends)
        || breaks_among(x, ends.variant_a, ends)
        || breaks_among(x, ends.variant_b, ends)
        || breaks_among(x, ends.candidate, ends)
}

// Whether they break it at a number variable.
fn breaks_at_number(x: Name, ends: &PerCopy<&Store>) -> bool {
    let base = number_in(ends.base, x);
    let variant_a = number_in(ends.variant_a, x);
    let variant_b = number_in(ends.variant_b, x);
    keeps(base, variant_a, variant_b, number_in(ends.candidate, x)).is_some()
}

// Whether they break it at an index at which one of them has a number other than 0.
fn breaks_among(a: Name, end: &Store, ends: &PerCopy<&Store>) -> bool {
    if end.sort(a) == Some(Sort::Arr) {
        for (i, _) in end.cells(a) {
            if breaks_at_index(a, *i, ends) {
                return true;
            }
        }
    }
    false
}

// Whether they break it at an index.
fn breaks_at_index(a: Name, i: i128, ends: &PerCopy<&Store>) -> bool {
    let base = element_in(ends.base, a, i);
    let variant_a = element_in(ends.variant_a, a, i);
    let variant_b = element_in(ends.variant_b, a, i);
    keeps(base, variant_a, variant_b, element_in(ends.candidate, a, i)).is_some()
}

// The number of a name, 0 where it has none.
fn number_in(s: &Store, x: Name) -> i128 {
    match s.sort(x) {
        Some(Sort::Num) => s.number(x),
        Some(Sort::Arr) => 0,
        None => 0,
    }
}

// The number at an index of a name, 0 where it has none.
fn element_in(s: &Store, a: Name, i: i128) -> i128 {
    match s.sort(a) {
        Some(Sort::Arr) => s.cell(a, i),
        Some(Sort::Num) => 0,
        None => 0,
    }
}
