// What holds of the plans of products, as contracts.
ghost use Rattle.sm_product.specs.Laws.{ProductIsFresh, ProductExpands, KeepsChosen, ValidHasNoHole};

/// The plan of each choice is fresh, and has obligations exactly where it is within its limits,
/// wherever no filling has a hole, as in each valid task.
pub fn products_expand()
    ensures fresh { ProductIsFresh }
    ensures expands { ProductExpands }
    ensures no_hole { ValidHasNoHole }
{}

/// A site keeps the conjunction of the templates that are chosen there.
pub fn sites_keep_chosen()
    ensures { KeepsChosen }
{}
