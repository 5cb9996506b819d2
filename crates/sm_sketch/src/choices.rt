// The choice of all templates.
ghost use Rattle.std.specs.Prelude.{◌≡◌, List, length, IfOk};
ghost use Rattle.std.specs.List.{range_with_len};
ghost use Rattle.sm_syntax.specs.text.Sorts.{Sorts};
ghost use Rattle.sm_term.specs.Terms.{Tree};
ghost use Rattle.sm_sketch.specs.Choices.{all_chosen};
ghost use Rattle.sm_sketch.specs.ChoiceViews.{choice_in};
ghost use Rattle.sm_sketch.specs.Sketches.{sites_of};
ghost use Rattle.sm_sketch.specs.SketchViews.{sketch_in};

use crate::kept::TemplateChoice;
use crate::listing::sites;
use crate::sketch::Sketch;
use sm_plan::Formulas;
use std::alloc::{AllocError, Global};

/// The numbers of all templates of a site.
pub fn all_numbers(alloc: Global, templates: &Formulas) -> Result<Vec<u64>, AllocError>
    ensures { IfOk result (λ ns.
        ns.items ≡ range_with_len 0 (length templates.now.list.items)) }
{
    let count = templates.list.len() as u64;
    (0..count).collect(alloc)
}

/// The choice of all templates of each site of a sketch.
pub fn all_templates(alloc: Global, sketch: &Sketch) -> Result<TemplateChoice, AllocError>
    ensures { (sorts : Sorts) (trees : List Tree) → IfOk result (λ c.
        choice_in c ≡ all_chosen (sites_of (sketch_in sorts trees sketch.now))) }
{
    let mut chosen = Vec::new(alloc);
    for templates in &sites(alloc, sketch)? {
        chosen.push(all_numbers(alloc, templates)?)?;
    }
    Ok(TemplateChoice { sites: chosen })
}
