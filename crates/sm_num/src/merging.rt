// The sum of ascending parts, each list times a number, by ascending atom.
ghost use Rattle.std.specs.Prelude.{◌≡◌, ◌++◌, [], IfOk, IfErr, OnOk};
ghost use Rattle.sm_num.specs.declared.op.Op.TheVariants.{Mul};
ghost use Rattle.sm_num.specs.Combining.{Fits, computed, combined_number, with_part, scaled, merged};
ghost use Rattle.sm_num.specs.Errors.{Explains};
ghost use Rattle.sm_num.specs.Merging.{Puts, behind};

use crate::arithmetic::{combine_numbers, compute};
use crate::error::NumError;
use crate::op::Op;
use std::alloc::{AllocError, Global};

// p times ascending parts plus q times ascending parts.
pub(crate) fn merge(
    alloc: Global,
    p: &i128,
    f: &[(u64, i128)],
    q: &i128,
    g: &[(u64, i128)],
) -> Result<Vec<(u64, i128)>, NumError>
    ensures ok { IfOk result (λ v. merged p.now q.now f.now g.now ≡ Fits v.items) }
    ensures err { IfErr result (Explains (merged p.now q.now f.now g.now)) }
{
    let mut out = Vec::new(alloc);
    let mut i = 0;
    let mut j = 0;
    while i < f.len() && j < g.len() {
        if f[i].0 < g[j].0 {
            put_product(&mut out, p, &f[i])?;
            i += 1;
        } else if g[j].0 < f[i].0 {
            put_product(&mut out, q, &g[j])?;
            j += 1;
        } else {
            put_both(&mut out, p, &f[i], q, &g[j])?;
            i += 1;
            j += 1;
        }
    }
    put_products(&mut out, p, &f[i..])?;
    put_products(&mut out, q, &g[j..])?;
    Ok(out)
}

// Parts times a number, after others.
fn put_products(
    out: &mut Vec<(u64, i128)>,
    by: &i128,
    parts: &[(u64, i128)],
) -> Result<(), NumError>
    ensures ok { OnOk result (behind out.old.items (scaled by.now parts.now) ≡ Fits out.new.items) }
    ensures err { IfErr result (Explains (scaled by.now parts.now)) }
{
    for part in parts {
        put_product(out, by, part)?;
    }
    Ok(())
}

// A part times a number, after others.
fn put_product(out: &mut Vec<(u64, i128)>, by: &i128, part: &(u64, i128)) -> Result<(), NumError>
    ensures ok { OnOk result
        (Puts out.old.items part.now.0 (computed Mul by.now part.now.1) out.new.items) }
    ensures err { IfErr result (Explains (computed Mul by.now part.now.1)) }
{
    let c = compute(Op::Mul, by, &part.1)?;
    Ok(put(out, part.0, &c)?)
}

// The sum of two parts at one atom, each times a number, after others.
fn put_both(
    out: &mut Vec<(u64, i128)>,
    p: &i128,
    f: &(u64, i128),
    q: &i128,
    g: &(u64, i128),
) -> Result<(), NumError>
    ensures ok { OnOk result (Puts out.old.items f.now.0
        (combined_number p.now f.now.1 q.now g.now.1) out.new.items) }
    ensures err { IfErr result (Explains (combined_number p.now f.now.1 q.now g.now.1)) }
{
    let c = combine_numbers(p, &f.1, q, &g.1)?;
    Ok(put(out, f.0, &c)?)
}

// A coefficient after others, where it isn't 0.
fn put(out: &mut Vec<(u64, i128)>, atom: u64, c: &i128) -> Result<(), AllocError>
    ensures ok { OnOk result (out.new.items ≡ out.old.items ++ with_part atom c.now []) }
{
    if *c != 0 {
        out.push((atom, *c))?;
    }
    Ok(())
}
