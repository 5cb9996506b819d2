// Linear forms: parts, each an atom with its coefficient, a constant, and what they say.
ghost use Rattle.std.specs.Prelude.{◌≡◌, pos, [], ◌∷◌, IsTrue, IfOk, IfErr};
ghost use Rattle.sm_num.specs.declared.error.NumError.TheVariants.{Memory};
ghost use Rattle.sm_num.specs.declared.kind.Kind.TheVariants.{Eq};
ghost use Rattle.sm_num.specs.Range.{fits_form};
ghost use Rattle.sm_num.specs.Forms.{IsKept, coefficient, without};
ghost use Rattle.sm_num.specs.FormLaws.{same_atom};
ghost use Rattle.sm_num.specs.Tightening.{is_contradictory};

use crate::error::NumError;
use crate::kind::Kind;
use std::alloc::{AllocError, Global};
use std::marker::Model;

/// A linear form: it says that the sum of its parts and its constant is at most 0, or that it is 0.
/// Its atoms ascend, no coefficient is 0, and all numbers lie from -(2^127 - 1) to 2^127 - 1.
#[derive(Drop)]
pub struct LinForm {
    // first, so that a form takes 48 bytes and not 64
    pub(crate) constant: i128,
    pub(crate) parts: Vec<(u64, i128)>,
    pub(crate) kind: Kind,
}

impl Model for LinForm {
    ghost use Rattle.std.specs.Prelude.{ℕ};
    ghost use Rattle.sm_num.specs.Forms.{Linear, IsKept};

    ghost Value = { Linear ℕ };

    ghost view = { λ f. record { parts = f.parts.items; constant = f.constant; kind = f.kind } };

    ghost invariant = { λ f.
        IsKept (record { parts = f.parts.items; constant = f.constant; kind = f.kind }) };
}

impl LinForm {
    /// The form that says that an atom is 0. The only error is want of memory.
    pub fn single(alloc: Global, t: u64) -> Result<LinForm, NumError>
        ensures ok { IfOk result
            (λ f. f ≡ record { parts = (t, pos 1) ∷ []; constant = pos 0; kind = Eq }) }
        ensures err { IfErr result (λ e. e ≡ Memory) }
    {
        let mut parts = Vec::new(alloc);
        parts.push((t, 1))?;
        Ok(LinForm {
            parts,
            constant: 0,
            kind: Kind::Eq,
        })
    }

    /// The form that says that a number is 0. The only error is want of memory.
    pub fn number(alloc: Global, c: i128) -> Result<LinForm, NumError>
        requires { IsTrue (fits_form c) }
        ensures ok { IfOk result (λ f. f ≡ record { parts = []; constant = c; kind = Eq }) }
        ensures err { IfErr result (λ e. e ≡ Memory) }
    {
        Ok(LinForm {
            parts: Vec::new(alloc),
            constant: c,
            kind: Kind::Eq,
        })
    }

    /// The atoms with their coefficients, by ascending atom.
    pub fn parts(&self) -> &[(u64, i128)]
        ensures parts { result.now ≡ self.now.parts }
        ensures kept { IsKept self.now }
    {
        &self.parts
    }

    /// The constant.
    pub fn constant(&self) -> i128
        ensures { result ≡ self.now.constant }
    {
        self.constant
    }

    /// What the form says of its sum.
    pub fn kind(&self) -> Kind
        ensures { result ≡ self.now.kind }
    {
        self.kind
    }

    /// A copy of the form.
    pub fn copy(&self, alloc: Global) -> Result<LinForm, AllocError>
        ensures { IfOk result (λ f. f ≡ self.now) }
    {
        Ok(LinForm {
            parts: self.parts.as_slice().to_vec(alloc)?,
            constant: self.constant,
            kind: self.kind,
        })
    }

    // The coefficient of an atom, 0 where the form doesn't have it.
    pub(crate) fn coefficient(&self, t: u64) -> i128
        ensures value { result ≡ coefficient same_atom t self.now.parts }
        ensures range { IsTrue (fits_form result) }
    {
        for part in &self.parts {
            if part.0 == t {
                return part.1;
            }
        }
        0
    }

    // The form without an atom.
    pub(crate) fn without(&self, alloc: Global, t: u64) -> Result<LinForm, AllocError>
        ensures { IfOk result (λ f. f ≡ without same_atom t self.now) }
    {
        let mut parts = Vec::new(alloc);
        for part in &self.parts {
            if part.0 != t {
                parts.push(*part)?;
            }
        }
        Ok(LinForm {
            parts,
            constant: self.constant,
            kind: self.kind,
        })
    }
}

/// Whether a form has no parts and doesn't hold.
pub fn is_contradiction(f: &LinForm) -> bool
    ensures { result ≡ is_contradictory f.now }
{
    f.parts.is_empty()
        && match f.kind {
            Kind::Le => f.constant > 0,
            Kind::Eq => f.constant != 0,
        }
}
