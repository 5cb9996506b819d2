// Laws of trimming, as contracts.
ghost use Rattle.sm_trim.specs.Laws.{TrimmedCloses, TrimmedIsUsed, UsedStays, TrimmedTwice};

/// A trimmed certificate closes each branch that the certificate closes.
pub fn trimmed_closes()
    ensures { TrimmedCloses }
{}

/// Each line of it is used.
pub fn trimmed_is_used()
    ensures { TrimmedIsUsed }
{}

/// A certificate of which each line is used is left as it is.
pub fn used_stays()
    ensures { UsedStays }
{}

/// To trim twice is to trim once.
pub fn trimmed_twice()
    ensures { TrimmedTwice }
{}
