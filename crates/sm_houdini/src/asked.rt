// What a round asks.
ghost use Rattle.std.specs.Prelude.{◌≡◌, IfSome};

use crate::marks::Marks;
use sm_expand::Due;

/// What the nodes of a round asked, and the marks of the templates all of whose goals closed.
#[derive(Drop)]
pub(crate) struct Asked {
    pub(crate) dues: Vec<Due>,
    pub(crate) marks: Marks,
}

// Whether there are so few facts that they may stay in memory for a next round. Any answer is
// right: it tells only whether anything is known there.
fn are_few(dues: &[Due]) -> bool {
    let mut count: u64 = 0;
    for due in dues {
        count = count.saturating_add(due.facts.list.len() as u64);
    }
    count <= 1_000_000
}

/// What a round asked, where it may stay for the next one.
pub(crate) fn for_next(dues: Vec<Due>, marks: Marks) -> Option<Asked>
    ensures dues { IfSome result (λ a. a.dues ≡ dues) }
    ensures marks { IfSome result (λ a. a.marks ≡ marks) }
{
    if are_few(&dues) {
        Some(Asked { dues, marks })
    } else {
        None
    }
}
