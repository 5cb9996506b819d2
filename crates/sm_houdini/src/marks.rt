// Marks of templates.
ghost use Rattle.std.specs.Prelude.{◌≡◌, ◌<◌, ℕ, Bool, List, [], map, get_or, slice_get, IfOk};
ghost use Rattle.sm_sketch.specs.Choices.{Choice};
ghost use Rattle.sm_sketch.specs.ChoiceViews.{choice_in};
ghost use Rattle.sm_houdini.specs.Marks.{marked, all_marked, in_share, is_there, joins, numbers_of, rows};

use sm_sketch::TemplateChoice;
use std::alloc::{AllocError, Global};

// The number of a template, and whether all its goals so far close.
#[derive(Clone, Copy)]
pub(crate) struct Marked {
    pub(crate) number: u64,
    pub(crate) holds: bool,
}

// Templates with their marks, site by site.
#[derive(Drop)]
pub(crate) struct Marks {
    pub(crate) sites: Vec<Vec<Marked>>,
}

/// Whether the mark at a place is there, where there is one.
pub(crate) fn is_marked(marks: &[Marked], at: usize) -> bool
    ensures { result ≡ is_there (slice_get marks.now at) }
{
    match marks.get(at) {
        Some(mark) => mark.holds,
        None => false,
    }
}

// Marks at those of a site's numbers whose places are in a share.
fn marks_at(
    alloc: Global,
    numbers: &[u64],
    share: u64,
    shares: u64,
) -> Result<Vec<Marked>, AllocError>
    requires some { 0 < shares }
    ensures { IfOk result (λ ms. ms.items ≡ marked (in_share shares share) 0 numbers.now) }
{
    let mut list = Vec::new(alloc);
    for at in 0..numbers.len() {
        let holds = at as u64 % shares == share;
        list.push(Marked {
            number: numbers[at],
            holds,
        })?;
    }
    Ok(list)
}

/// Marks at the templates of a choice that are in a share, one of so many. Behind the last there is
/// a share without templates.
pub(crate) fn share_marks(
    alloc: Global,
    choice: &TemplateChoice,
    share: u64,
    shares: u64,
) -> Result<Marks, AllocError>
    requires some { 0 < shares }
    ensures { IfOk result (λ ms. rows ms.sites.items
        ≡ all_marked (λ s. in_share shares share) 0 (choice_in choice.now)) }
{
    let mut sites = Vec::new(alloc);
    for numbers in &choice.sites {
        sites.push(marks_at(alloc, numbers, share, shares)?)?;
    }
    Ok(Marks { sites })
}

// How two marks become one.
#[derive(Clone, Copy)]
pub(crate) enum Join {
    // It is there where one of the two is.
    Either,
    // It is there where both are.
    Both,
}

// The mark that two become.
fn joined_mark(join: Join, one: bool, other: bool) -> bool
    ensures { result ≡ joins join one other }
{
    match join {
        Join::Either => one || other,
        Join::Both => one && other,
    }
}

// The marks that those of a site in two lists become.
fn joined_at(
    alloc: Global,
    join: Join,
    marks: &[Marked],
    others: &[Marked],
) -> Result<Vec<Marked>, AllocError>
    ensures { (p q : ℕ → Bool) (ns : List ℕ) → marks.now ≡ marked p 0 ns →
        others.now ≡ marked q 0 ns →
        IfOk result (λ ms. ms.items ≡ marked (λ i. joins join (p i) (q i)) 0 ns) }
{
    let mut list = Vec::new(alloc);
    for at in 0..marks.len() {
        let number = marks[at].number;
        let other = is_marked(others, at);
        let holds = joined_mark(join, marks[at].holds, other);
        list.push(Marked { number, holds })?;
    }
    Ok(list)
}

// The marks of a site, none where there is no such site.
fn site_marks(marks: &Marks, site: usize) -> &[Marked]
    ensures { result.now ≡ get_or (rows marks.now.sites.items) site [] }
{
    match marks.sites.get(site) {
        Some(list) => list.as_slice(),
        None => &[],
    }
}

/// The marks that those of two become.
pub(crate) fn joined_marks(
    alloc: Global,
    join: Join,
    marks: &Marks,
    others: &Marks,
) -> Result<Marks, AllocError>
    ensures { (p q : ℕ → ℕ → Bool) (c : Choice) →
        rows marks.now.sites.items ≡ all_marked p 0 c →
        rows others.now.sites.items ≡ all_marked q 0 c → IfOk result (λ ms.
        rows ms.sites.items ≡ all_marked (λ s i. joins join (p s i) (q s i)) 0 c) }
{
    let mut sites = Vec::new(alloc);
    for site in 0..marks.sites.len() {
        let mine = site_marks(marks, site);
        let theirs = site_marks(others, site);
        sites.push(joined_at(alloc, join, mine, theirs)?)?;
    }
    Ok(Marks { sites })
}

/// A copy of marks.
pub(crate) fn copied(alloc: Global, marks: &Marks) -> Result<Marks, AllocError>
    ensures { IfOk result (λ ms. rows ms.sites.items ≡ rows marks.now.sites.items) }
{
    let mut sites = Vec::new(alloc);
    for list in &marks.sites {
        sites.push(list.as_slice().to_vec(alloc)?)?;
    }
    Ok(Marks { sites })
}

// The numbers whose marks are there.
fn kept_numbers(alloc: Global, marks: &[Marked]) -> Result<Vec<u64>, AllocError>
    ensures { IfOk result (λ ns. ns.items ≡ numbers_of marks.now) }
{
    let mut list = Vec::new(alloc);
    for mark in marks {
        if mark.holds {
            list.push(mark.number)?;
        }
    }
    Ok(list)
}

// The choice of the templates whose marks are there.
pub(crate) fn kept_choice(alloc: Global, marks: &Marks) -> Result<TemplateChoice, AllocError>
    ensures { IfOk result (λ c. choice_in c ≡ map numbers_of (rows marks.now.sites.items)) }
{
    let mut sites = Vec::new(alloc);
    for list in &marks.sites {
        sites.push(kept_numbers(alloc, list)?)?;
    }
    Ok(TemplateChoice { sites })
}
