// What the program says of itself.
ghost use Rattle.std.specs.Prelude.{◌≡◌, IfOk};
ghost use Rattle.sm_words.specs.About.{about_text};

use std::alloc::{AllocError, Global};

/// What the program says of itself.
#[derive(Clone, Copy)]
pub enum About {
    /// The words that each command takes.
    Help,
    /// Its version.
    Version,
}

/// What the program says of itself: a line for each command, or the one of its version.
pub fn about_text(alloc: Global, about: About) -> Result<Vec<u8>, AllocError>
    ensures { IfOk result (λ text. text.items ≡ about_text about) }
{
    let text = match about {
        About::Help => {
            "safemerge check TASK PROOF [--steps N] [--turns N] [--workers N] [--exact] [--seconds N] [--deeper] [--why]\nsafemerge verify TASK PROOF [--workers N]\nsafemerge replay TASK INPUT [--turns N] [--workers N]\nsafemerge print TASK [--copy base|a|b|candidate]\nsafemerge suggest TASK [--steps N] [--turns N] [--workers N] [--exact] [--seconds N]\nsafemerge gen SEED SIZE [--steps N] [--turns N] [--workers N] [--exact] [--seconds N]\nsafemerge explain TASK [INPUT] [--turns N]\nsafemerge batch LIST [--cache N] [--steps N] [--turns N] [--workers N] [--exact]\nsafemerge trim TASK PROOF OUT\nsafemerge help\nsafemerge version\n"
        }
        About::Version => "safemerge 0.1.0\n",
    };
    Vec::from_slice(alloc, text.as_bytes())
}
