//! What holds of shares. The call here does nothing: its contract is the law.
ghost use Rattle.method_splitter.specs.Laws.{SharesAreAll};

/// Each thing is in one share, and the shares follow each other.
pub fn shares_are_all()
    ensures { SharesAreAll }
{}
