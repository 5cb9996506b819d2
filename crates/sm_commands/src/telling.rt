// The answers that need no file: to words that no command takes, and of the program itself.
ghost use Rattle.std.specs.Prelude.{◌≡◌, map, IfOk};
ghost use Rattle.std.specs.String.{string_bytes};
ghost use Rattle.sm_answers.specs.Status.{Says};
ghost use Rattle.sm_words.specs.About.{about_text};
ghost use Rattle.sm_words.specs.Words.{usage_line};

use sm_answers::{Reply, Status};
use sm_words::{About, about_text, usage_line};
use std::alloc::{AllocError, Global};

/// The answer to words that no command takes.
pub fn usage(alloc: Global, words: &[String]) -> Result<Reply, AllocError>
    ensures { let text = usage_line (map string_bytes words.now) in
        IfOk result (λ r. Says Status.Usage text r.status r.text.items) }
{
    let text = usage_line(alloc, words)?;
    Ok(Reply {
        status: Status::Usage,
        text,
    })
}

/// What the program says of itself, as an answer.
pub fn tell(alloc: Global, what: About) -> Result<Reply, AllocError>
    ensures { IfOk result (λ r. Says Status.Accepted (about_text what) r.status r.text.items) }
{
    let text = about_text(alloc, what)?;
    Ok(Reply {
        status: Status::Accepted,
        text,
    })
}
