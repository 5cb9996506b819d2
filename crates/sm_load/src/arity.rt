// How a line goes on.
use sm_theory::CertLine;

// In how many ways a branch goes on after a line.
#[derive(Clone, Copy)]
pub(crate) enum Ways {
    None,
    One,
    Two,
}

/// In how many ways a branch goes on after a line, by its kind alone.
pub(crate) fn ways_of(line: &CertLine) -> Ways {
    match line {
        CertLine::Either(_) => Ways::Two,
        CertLine::Cases(_, _) => Ways::Two,
        CertLine::Order(_) => Ways::Two,
        CertLine::Close(_) => Ways::None,
        CertLine::Clash(_, _) => Ways::None,
        _ => Ways::One,
    }
}

/// How many turns of loops follow, of which a set is told: one for each subset that isn't empty.
pub(crate) fn turns_of(set: u8) -> u8 {
    let mut turns = 0;
    for subset in 1u8..16 {
        if set & subset == subset && turns < 15 {
            turns += 1;
        }
    }
    turns
}
