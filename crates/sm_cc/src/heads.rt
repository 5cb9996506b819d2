// Numbers for the heads of terms: equal numbers stand for equal heads.
ghost use Rattle.std.specs.Prelude.{◌≡◌, [], Some, IfOk, option_map, slice_get};
ghost use Rattle.sm_term.specs.Rows.{kind_numbers, names_in_list};
ghost use Rattle.sm_term.specs.RowLaws.{contents_of};
ghost use Rattle.sm_cc.specs.Numbered.{StandApart, head_of, IsHeadAt, heads_met};
ghost use Rattle.sm_pairs.specs.Longer.{IsLonger};

use sm_numbering::Numbering;
use sm_syntax::{Name, Outputs, copy_outputs};
use sm_term::{BodyId, Term, TermId, Terms};
use std::alloc::{AllocError, Global};

/// The heads that were met, each once. A head is a term over no arguments.
#[derive(Drop)]
pub(crate) struct Heads {
    list: Numbering<Term>,
}

impl Heads {
    /// No heads.
    pub(crate) fn new(alloc: Global) -> Heads
        ensures { result.list ≡ [] }
    {
        Heads {
            list: Numbering::new(alloc),
        }
    }

    /// The number of a term's head, a new one where it wasn't met before.
    pub(crate) fn number(&mut self, alloc: Global, t: &Term) -> Result<Option<u64>, AllocError>
        ensures longer { IsLonger (heads_met self.old)
            (heads_met self.new) }
        ensures apart { StandApart (heads_met self.old) →
            StandApart (heads_met self.new) }
        ensures head { IfOk result (λ n.
            IsHeadAt (heads_met self.new) (head_of t.now) n) }
    {
        match bare(alloc, t)? {
            Some(head) => {
                let number = self.place(alloc, head)?;
                Ok(Some(number))
            }
            None => Ok(None),
        }
    }

    // The number of a head, which goes last where it wasn't met before.
    fn place(&mut self, alloc: Global, head: Term) -> Result<u64, AllocError>
        ensures longer { IsLonger (heads_met self.old) (heads_met self.new) }
        ensures apart { StandApart (heads_met self.old) → StandApart (heads_met self.new) }
        ensures head { IfOk result (λ n.
            slice_get (heads_met self.new) n ≡ Some (contents_of head)) }
    {
        match self.list.find(&head) {
            Some(number) => return Ok(number as u64),
            None => {}
        }
        let key = head.copied(alloc)?;
        let number = self.list.put(head, key)?;
        Ok(number as u64)
    }
}

// A term over no arguments, where the term has a head.
fn bare(alloc: Global, t: &Term) -> Result<Option<Term>, AllocError>
    ensures { IfOk result (λ head. option_map contents_of head ≡ head_of t.now) }
{
    let none = TermId(0);
    match t {
        Term::Read(_, _) => Ok(Some(Term::Read(none, none))),
        Term::Write(_, _, _) => Ok(Some(Term::Write(none, none, none))),
        Term::Neg(_) => Ok(Some(Term::Neg(none))),
        Term::Add(_, _) => Ok(Some(Term::Add(none, none))),
        Term::Sub(_, _) => Ok(Some(Term::Sub(none, none))),
        Term::Mul(_, _) => Ok(Some(Term::Mul(none, none))),
        Term::Fun {
            body,
            name,
            from,
            ..
        } => Ok(Some(bare_summary(alloc, *body, *name, from)?)),
        Term::Lit(_) | Term::Start(_) | Term::Cell => Ok(None),
        Term::Havoc { .. } | Term::Slot { .. } => Ok(None),
    }
}

// A summary over no arguments.
fn bare_summary(alloc: Global, body: BodyId, name: Name, from: &Outputs) -> Result<Term, AllocError>
    ensures { IfOk result (λ t. contents_of t
        ≡ (kind_numbers 11 body.0 name.0 0, names_in_list from.now.list.items, [])) }
{
    let from = copy_outputs(alloc, from)?;
    let args = Terms {
        list: Vec::new(alloc),
    };
    Ok(Term::Fun {
        body,
        name,
        from,
        args,
    })
}
