// Who asks what a node asks.
ghost use Rattle.std.specs.Prelude.{◌≡◌, None, slice_get, unwrap_or};

/// The owner of a node: its site, none where the final target is asked.
pub(crate) fn owner(owners: &[Option<u64>], node: u64) -> Option<u64>
    ensures { result ≡ unwrap_or (slice_get owners.now node) None }
{
    match owners.get(node as usize) {
        Some(owner) => *owner,
        None => None,
    }
}
