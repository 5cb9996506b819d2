// The words of a line, one behind the other.
ghost use Rattle.std.specs.Prelude.{◌≡◌, ◌∷◌, ◌<◌, ◌==◌, ◌≤◌, ◌+◌, length, not, count_by};
ghost use Rattle.std.specs.List.{prefix_len};
ghost use Rattle.sm_proof.specs.Behind.{behind};
ghost use Rattle.sm_proof.specs.Numbers.{words_of};

/// The first word of bytes, and what is behind it: nothing, or a space and more words.
pub(crate) fn split_word(bytes: &[u8]) -> (&[u8], &[u8])
    ensures words { words_of bytes.now ≡ result.0.now ∷ behind result.1.now }
    ensures shorter { length result.1.now ≤ length bytes.now }
{
    let size = word_size(bytes);
    bytes.split_at(size)
}

// How many bytes stand before the first space.
fn word_size(bytes: &[u8]) -> usize
    ensures { result ≡ prefix_len (λ b. not (b == 32)) bytes.now }
{
    bytes.iter().take_while(|b| **b != b' ').count()
}

/// How many words are behind one.
pub(crate) fn word_count(rest: &[u8]) -> usize
    ensures { result ≡ length (behind rest.now) }
{
    if rest.is_empty() {
        0
    } else {
        spaces(&rest[1..]) + 1
    }
}

fn spaces(bytes: &[u8]) -> usize
    ensures { result ≡ count_by (λ b. b == 32) bytes.now }
{
    bytes.iter().filter(|b| **b == b' ').count()
}
