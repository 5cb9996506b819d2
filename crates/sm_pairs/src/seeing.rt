// What a search asks of classes of terms.
ghost use Rattle.std.specs.Prelude.{◌≡◌, ◌<◌, List, length};
ghost use Rattle.sm_term.specs.Terms.{Tree};
ghost use Rattle.sm_term.specs.Tables.{tree_at};
ghost use Rattle.sm_pairs.specs.Pairs.{Pairs};

use sm_term::TermId;

/// Which terms of a table are equal, and which are known apart.
pub trait Sees {
    // the trees of the table
    ghost trees: { Self → List Tree };

    // which are equal
    ghost equal: { Self → Pairs };

    // which are known apart
    ghost apart: { Self → Pairs };

    /// Whether two terms are equal.
    fn equal(&self, t: TermId, u: TermId) -> bool
        requires left { t.0 < length (trees self.now) }
        requires right { u.0 < length (trees self.now) }
        ensures { let all = trees self.now in
            result ≡ equal self.now (tree_at all t.0) (tree_at all u.0) };

    /// Whether two terms are known apart.
    fn apart(&self, t: TermId, u: TermId) -> bool
        requires left { t.0 < length (trees self.now) }
        requires right { u.0 < length (trees self.now) }
        ensures { let all = trees self.now in
            result ≡ apart self.now (tree_at all t.0) (tree_at all u.0) };
}
