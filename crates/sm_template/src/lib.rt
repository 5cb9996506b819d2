//! Templates: what a loop or a block of a product may keep, to be chosen among.
//!
//! - `block_templates` and `loop_templates` give the templates of a site, over a table of terms, as
//!   they are defined: of the names that its code writes, and of the guards of its loops. After an
//!   error the table has the terms that it had.
//! - `site_of` takes of a task what templates need: its declarations, and the first literals of its
//!   fillings.
//! - No template of a name stands twice, which is a law, so that only what guards suggest is looked
//!   up before it is put there.
//!
//! Read `specs/Templates.antt` first, with `specs/Literals.antt`, `specs/Written.antt` and
//! `specs/Guards.antt`. `specs/TemplateLaws.antt` has the laws.
#![tactic(auto)]

mod guards;
mod literals;
mod shapes;
mod site;
mod site_templates;
mod template_laws;
mod terms;
mod written;

pub use site::{SiteContext, site_of};
pub use site_templates::{block_templates, loop_templates};
pub use template_laws::templates_stand_once;
pub use written::{bodies_write, names_written};
