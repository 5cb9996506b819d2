// The state of an elimination, and its steps.
ghost use Rattle.std.specs.Prelude.{◌≡◌, ◌≢◌, ◌<◌, ℕ, suc, [], length, IfOk, IfErr, OnOk};
ghost use Rattle.sm_num.specs.declared.error.NumError.TheVariants.{Memory};
ghost use Rattle.sm_num.specs.Forms.{Linear};
ghost use Rattle.sm_num.specs.Combining.{Outcome};
ghost use Rattle.sm_num.specs.Errors.{Returns};
ghost use Rattle.sm_fm.specs.declared.step.ElimStep.TheVariants as step;
ghost use Rattle.sm_fm.specs.Elimination.{events, is_new};
ghost use Rattle.sm_fm.specs.Firsts.{standing};
ghost use Rattle.sm_fm.specs.Taking.{Gives};
ghost use Rattle.sm_fm.specs.States.{events_left, taking, stopped, with_form, Lacks, IsSound, TakesPair, Settles, Finishes};

use crate::entry::enter;
use crate::firsts::{list_firsts, next_atom};
use crate::known::{Known, know_all};
use crate::pairs::Pairs;
use crate::roles::pairs_of;
use crate::step::ElimStep;
use sm_num::{LinForm, NumError, elim, is_contradiction};
use sm_term::{TermId, Terms};
use std::alloc::{AllocError, Global};
use std::collections::HashSet;

// The state of an elimination.
#[derive(Drop)]
pub(crate) struct State {
    // The terms of the atoms.
    pub(crate) atoms: Terms,
    // The given forms, then the kept sums.
    pub(crate) forms: Vec<LinForm>,
    // For each atom, the places of the forms that begin with it.
    firsts: Vec<Vec<u64>>,
    // The number of the atom at hand.
    atom: u64,
    // How many atoms come after it.
    more: u64,
    // The pairs that are left in which it cancels.
    pairs: Pairs,
    // All forms of the list.
    known: HashSet<Known>,
}

impl State {
    // The state before anything happens.
    pub(crate) fn new(alloc: Global, forms: Vec<LinForm>, atoms: Terms) -> Result<State, AllocError>
        ensures sound { IfOk result (λ s. IsSound s) }
        ensures atoms { IfOk result (λ s. s.atoms.list.items ≡ atoms.list.items) }
        ensures forms { IfOk result (λ s. s.forms.items ≡ forms.items) }
        ensures left { let atoms = length atoms.list.items in
            IfOk result (λ s. events_left s ≡ events forms.items atoms) }
    {
        let firsts = list_firsts(alloc, &forms, atoms.list.len())?;
        let known = know_all(alloc, &forms)?;
        if atoms.list.is_empty() {
            return Ok(State {
                atoms,
                forms,
                firsts,
                atom: 0,
                more: 0,
                pairs: Pairs::none(alloc),
                known,
            });
        }
        let pairs = pairs_of(alloc, &forms, &firsts[0], 0)?;
        let more = atoms.list.len() as u64 - 1;
        Ok(State {
            atoms,
            forms,
            firsts,
            atom: 0,
            more,
            pairs,
            known,
        })
    }

    // The next step.
    pub(crate) fn next(&mut self, alloc: Global) -> Result<ElimStep, NumError>
        requires { IsSound self.old }
        ensures sound { IsSound self.new }
        ensures gives { Gives (taking self.old) (taking self.new) result }
    {
        while self.more > 0 && self.pairs.is_empty() {
            self.go_on(alloc)?;
        }
        if self.pairs.is_empty() {
            return Ok(ElimStep::End);
        }
        self.sum(alloc)
    }

    // Goes on to the next atom with which a form begins. At others nothing happens.
    fn go_on(&mut self, alloc: Global) -> Result<(), AllocError>
        requires sound { IsSound self.old }
        requires more { 0 < self.old.more }
        requires done { self.old.pairs ≡ [] }
        ensures sound { IsSound self.new }
        ensures same { taking self.new ≡ taking self.old }
        ensures less { OnOk result (self.new.more < self.old.more) }
    {
        let end = self.atom + self.more + 1;
        let next = next_atom(&self.firsts, self.atom, end);
        if next == end {
            self.stop();
            return Ok(());
        }
        let pairs = pairs_of(alloc, &self.forms, &self.firsts[next as usize], next)?;
        self.pairs = pairs;
        self.atom = next;
        self.more = end - next - 1;
        Ok(())
    }

    // The sum of the first pair.
    fn sum(&mut self, alloc: Global) -> Result<ElimStep, NumError>
        requires sound { IsSound self.old }
        requires some { self.old.pairs ≢ [] }
        ensures sound { IsSound self.new }
        ensures gives { Gives (taking self.old) (taking self.new) result }
    {
        let pair = self.take_pair();
        let atom = self.atoms.list[self.atom as usize];
        let f = &self.forms[pair.0 as usize];
        let g = &self.forms[pair.1 as usize];
        // Kept forms have ascending atoms.
        let _first = f.parts().len();
        let _second = g.parts().len();
        let sum = elim(alloc, f, g, self.atom);
        self.finish(alloc, pair, atom, sum)
    }

    // Takes the first pair.
    fn take_pair(&mut self) -> (u64, u64)
        requires sound { IsSound self.old }
        requires some { self.old.pairs ≢ [] }
        ensures sound { IsSound self.new }
        ensures takes { TakesPair self.old self.new result }
    {
        self.pairs.take()
    }

    // Deals with the sum of a pair, or with the operation that left the range.
    fn finish(
        &mut self,
        alloc: Global,
        pair: (u64, u64),
        atom: TermId,
        sum: Result<LinForm, NumError>,
    ) -> Result<ElimStep, NumError>
        requires sound { IsSound self.old }
        requires lacks { IfOk sum (Lacks (suc self.old.atom)) }
        ensures sound { IsSound self.new }
        ensures finishes { (outcome : Outcome (Linear ℕ)) → Returns outcome sum →
            Finishes self.old self.new pair atom outcome result }
    {
        match sum {
            Ok(h) => self.settle(alloc, pair, atom, h),
            Err(e) => {
                self.stop();
                Err(e)
            }
        }
    }

    // Deals with a sum that fits.
    fn settle(
        &mut self,
        alloc: Global,
        pair: (u64, u64),
        atom: TermId,
        h: LinForm,
    ) -> Result<ElimStep, NumError>
        requires sound { IsSound self.old }
        requires lacks { Lacks (suc self.old.atom) h }
        ensures sound { IsSound self.new }
        ensures ok { IfOk result (Settles self.old self.new pair atom h) }
        ensures err { IfErr result (λ e. e ≡ Memory) }
    {
        if is_contradiction(&h) {
            self.stop();
            return Ok(line(pair, atom, false, true));
        }
        let sum = Known { form: h };
        if !self.is_new(&sum) {
            return Ok(line(pair, atom, false, false));
        }
        self.keep(alloc, sum)?;
        Ok(line(pair, atom, true, false))
    }

    // Whether a sum that can hold is kept.
    fn is_new(&self, sum: &Known) -> bool
        requires sound { IsSound self.now }
        requires lacks { Lacks (suc self.now.atom) sum.now.form }
        ensures { result ≡ is_new sum.now.form (standing self.now.forms.items self.now.atom) }
    {
        !sum.form.parts().is_empty() && !self.known.contains(sum)
    }

    // Puts a form after the others.
    fn keep(&mut self, alloc: Global, sum: Known) -> Result<(), AllocError>
        requires sound { IsSound self.old }
        requires lacks { Lacks (suc self.old.atom) sum.form }
        ensures sound { IsSound self.new }
        ensures ok { OnOk result (taking self.new ≡ with_form self.old sum.form) }
    {
        let form = sum.form.copy(alloc)?;
        enter(
            &mut self.firsts,
            &mut self.forms,
            &mut self.known,
            form,
            sum,
        )
    }

    // Leaves nothing to happen.
    fn stop(&mut self)
        requires { IsSound self.old }
        ensures sound { IsSound self.new }
        ensures stopped { taking self.new ≡ stopped self.old }
        ensures more { self.new.more ≡ 0 }
    {
        self.pairs.clear();
        self.more = 0;
    }
}

// The step of the sum of a pair.
fn line(pair: (u64, u64), atom: TermId, kept: bool, contradiction: bool) -> ElimStep
    ensures { result ≡ step.Line pair.0 pair.1 atom kept contradiction }
{
    ElimStep::Line {
        f: pair.0,
        g: pair.1,
        atom,
        kept,
        contradiction,
    }
}
