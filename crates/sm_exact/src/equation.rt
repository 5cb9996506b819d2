// The rule of equations.
ghost use Rattle.std.specs.Prelude.{◌≡◌, ◌≢◌, ◌<◌, ◌≤◌, ◌&&◌, ℕ, not, true, None, [], ◌∷◌, List, length, map, nat_abs, nat_lt, pos, if◌then◌else◌, IsTrue, IfOk};
ghost use Rattle.sm_num.specs.declared.kind.Kind.TheVariants.{Eq};
ghost use Rattle.sm_num.specs.Combining.{combined};
ghost use Rattle.sm_num.specs.Eliminating.{is_equation, eliminated};
ghost use Rattle.sm_num.specs.Tightening.{has_no_part};
ghost use Rattle.sm_omega.specs.Counting.{Item, Count, entered};
ghost use Rattle.sm_omega.specs.Solving.{at, has};
ghost use Rattle.sm_omega.specs.Equalities.{first_equation, least_part, eliminated_item, modular_item};
ghost use Rattle.sm_exact.specs.Entries.{shown, before, going};
ghost use Rattle.sm_exact.specs.Rows.{Finds, IsPartAt};
ghost use Rattle.sm_exact.specs.Stack.{StepsByRule};

use crate::coefficients::{coefficient, has};
use crate::entry::{Entry, enter_sum, stay};
use crate::frame::Frame;
use crate::modular::{is_above, modular};
use crate::numbers::size;
use crate::step::Step;
use sm_num::{Kind, LinForm, combine, elim};
use std::alloc::{AllocError, Global};

// The place of the first equation with parts, the length where there is none.
pub(crate) fn first_equation(forms: &[LinForm]) -> usize
    ensures up_to { result ≤ length forms.now }
    ensures found { result < length forms.now → Finds forms.now result }
    ensures none { result ≡ length forms.now → first_equation forms.now ≡ None }
{
    for place in 0..forms.len() {
        if is_equation(&forms[place]) {
            return place;
        }
    }
    forms.len()
}

// Whether a form is an equation with parts.
fn is_equation(f: &LinForm) -> bool
    ensures { result ≡ (is_equation f.now.kind && not (has_no_part f.now.parts)) }
{
    f.kind() == Kind::Eq && !f.parts().is_empty()
}

// The first part whose coefficient has the least size.
fn least_part(parts: &[(u64, i128)]) -> (u64, i128)
    requires { 0 < length parts.now }
    ensures { result ≡ least_part parts.now }
{
    let mut least = parts[0];
    for part in parts {
        least = lesser(&least, part);
    }
    least
}

// The second of two parts where its coefficient has the lesser size, else the first.
fn lesser(p: &(u64, i128), q: &(u64, i128)) -> (u64, i128)
    ensures { result ≡ (if nat_lt (nat_abs q.now.1) (nat_abs p.now.1) then q.now else p.now) }
{
    if size(&q.1) < size(&p.1) { *q } else { *p }
}

// Decides by the equation at a place.
pub(crate) fn by_equation(
    alloc: Global,
    steps: u64,
    s: u64,
    forms: Vec<LinForm>,
    count: u64,
    place: usize,
) -> Result<Step, AllocError>
    requires { Finds forms.items place }
    ensures { IfOk result (StepsByRule steps s forms.items count) }
{
    let part = least_part(forms[place].parts());
    if size(&part.1) == 1 {
        return by_unit(alloc, steps, s, forms, count, place, &part);
    }
    by_modular(alloc, steps, s, forms, count, place, &part)
}

// By an equation with a coefficient 1 or -1.
fn by_unit(
    alloc: Global,
    steps: u64,
    s: u64,
    mut forms: Vec<LinForm>,
    count: u64,
    place: usize,
    part: &(u64, i128),
) -> Result<Step, AllocError>
    requires finds { Finds forms.items place }
    requires part { IsPartAt forms.items place part.now }
    requires unit { nat_abs part.now.1 ≡ 1 }
    ensures { IfOk result (StepsByRule steps s forms.items count) }
{
    let e = forms.remove(place);
    let entry = eliminate_all(alloc, steps, forms, count, &e, part.0)?;
    Ok(Step {
        frame: Frame::Equation { t: part.0, e },
        s,
        entry,
    })
}

// By an equation that brings a new variable.
fn by_modular(
    alloc: Global,
    steps: u64,
    s: u64,
    forms: Vec<LinForm>,
    count: u64,
    place: usize,
    part: &(u64, i128),
) -> Result<Step, AllocError>
    requires finds { Finds forms.items place }
    requires part { IsPartAt forms.items place part.now }
    requires many { nat_abs part.now.1 ≢ 1 }
    ensures { IfOk result (StepsByRule steps s forms.items count) }
{
    let Some(next) = s.checked_add(1) else {
        return Err(AllocError);
    };
    // It always is: the number of a new variable is above those of all before.
    if !is_above(s, &forms[place]) {
        return Err(AllocError);
    }
    let d = modular(alloc, part.0, &part.1, s, &forms[place])?;
    let entry = reduce_all(alloc, steps, forms, count, &d, part.0)?;
    Ok(Step {
        frame: Frame::Equation { t: part.0, e: d },
        s: next,
        entry,
    })
}

// Each form that has the variable loses it by an equation.
fn eliminate_all(
    alloc: Global,
    steps: u64,
    forms: Vec<LinForm>,
    count: u64,
    e: &LinForm,
    t: u64,
) -> Result<Entry, AllocError>
    requires equation { e.now.kind ≡ Eq }
    requires has { has t e.now ≡ true }
    ensures { IfOk result
        (λ r. entered steps (map (eliminated_item e.now t) forms.items) count ≡ shown r) }
{
    let mut out = Vec::with_capacity(alloc, forms.len())?;
    let mut counted = count;
    for f in forms {
        match eliminate(alloc, steps, out, counted, f, e, t)? {
            Entry::List { forms, count } => {
                out = forms;
                counted = count;
            }
            other => return Ok(other),
        }
    }
    Ok(Entry::List {
        forms: out,
        count: counted,
    })
}

// One form does.
fn eliminate(
    alloc: Global,
    steps: u64,
    out: Vec<LinForm>,
    count: u64,
    f: LinForm,
    e: &LinForm,
    t: u64,
) -> Result<Entry, AllocError>
    requires equation { e.now.kind ≡ Eq }
    requires has { has t e.now ≡ true }
    ensures { IfOk result (λ r. (rest : List Item) →
        before out.items (entered steps (eliminated_item e.now t f ∷ rest) count)
        ≡ going steps r rest) }
{
    if has(&f, t) {
        return enter_eliminated(alloc, steps, out, count, &f, e, t);
    }
    stay(out, count, f)
}

// One form that has the variable does.
fn enter_eliminated(
    alloc: Global,
    steps: u64,
    out: Vec<LinForm>,
    count: u64,
    f: &LinForm,
    e: &LinForm,
    t: u64,
) -> Result<Entry, AllocError>
    requires equation { e.now.kind ≡ Eq }
    requires has { has t e.now ≡ true }
    requires too { has t f.now ≡ true }
    ensures { IfOk result (λ r. (rest : List Item) →
        before out.items (entered steps (Count (eliminated f.now e.now t) ∷ rest) count)
        ≡ going steps r rest) }
{
    if count >= steps {
        return Ok(Entry::Steps);
    }
    let sum = elim(alloc, f, e, t);
    enter_sum(alloc, out, count + 1, sum)
}

// Each form that has the variable loses it by the equation of the modular step.
fn reduce_all(
    alloc: Global,
    steps: u64,
    forms: Vec<LinForm>,
    count: u64,
    d: &LinForm,
    t: u64,
) -> Result<Entry, AllocError>
    ensures { IfOk result
        (λ r. entered steps (map (modular_item d.now t) forms.items) count ≡ shown r) }
{
    let mut out = Vec::with_capacity(alloc, forms.len())?;
    let mut counted = count;
    for f in forms {
        match reduce(alloc, steps, out, counted, f, d, t)? {
            Entry::List { forms, count } => {
                out = forms;
                counted = count;
            }
            other => return Ok(other),
        }
    }
    Ok(Entry::List {
        forms: out,
        count: counted,
    })
}

// One form does.
fn reduce(
    alloc: Global,
    steps: u64,
    out: Vec<LinForm>,
    count: u64,
    f: LinForm,
    d: &LinForm,
    t: u64,
) -> Result<Entry, AllocError>
    ensures { IfOk result (λ r. (rest : List Item) →
        before out.items (entered steps (modular_item d.now t f ∷ rest) count)
        ≡ going steps r rest) }
{
    if has(&f, t) {
        return enter_reduced(alloc, steps, out, count, &f, d, t);
    }
    stay(out, count, f)
}

// One form that has the variable does.
fn enter_reduced(
    alloc: Global,
    steps: u64,
    out: Vec<LinForm>,
    count: u64,
    f: &LinForm,
    d: &LinForm,
    t: u64,
) -> Result<Entry, AllocError>
    ensures { IfOk result (λ r. (rest : List Item) →
        before out.items
        (entered steps (Count (combined f.now (pos 1) d.now (at t f.now) f.now.kind) ∷ rest) count)
        ≡ going steps r rest) }
{
    if count >= steps {
        return Ok(Entry::Steps);
    }
    let sum = combine(alloc, f, 1, d, coefficient(f, t), f.kind());
    enter_sum(alloc, out, count + 1, sum)
}
