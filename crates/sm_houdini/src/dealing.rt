// Nodes that are dealt to jobs.
ghost use Rattle.std.specs.Prelude.{◌≡◌, ◌<◌, ◌≤◌};
ghost use Rattle.sm_houdini.specs.Dealing.{first_count, dealt, placed};

/// How many nodes come first: two of each four, the second and the third.
fn first_count(count: usize) -> usize
    ensures first { result ≡ first_count count }
    ensures inside { result ≤ count }
{
    count / 2 + count % 4 / 3
}

/// The node that comes at a place: of each four the second and the third come first, and then the
/// others. So both parts have as many nodes of any part of a plan, and neither all of every second one.
pub(crate) fn dealt(count: usize, place: usize) -> usize
    requires { place < count }
    ensures node { result ≡ dealt count place }
    ensures inside { result < count }
{
    let first = first_count(count);
    if place < first {
        2 * place + 1 - place % 2
    } else {
        let behind = place - first;
        2 * behind + behind % 2
    }
}

/// The place at which a node comes.
pub(crate) fn placed(count: usize, node: usize) -> usize
    requires { node < count }
    ensures place { result ≡ placed count node }
    ensures inside { result < count }
{
    let half = node / 2;
    if (node % 2 + half) % 2 == 1 {
        half
    } else {
        first_count(count) + half
    }
}
