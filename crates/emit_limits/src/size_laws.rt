//! What holds of the bytes of spans. Each call here does nothing: its contract is the law.
ghost use Rattle.emit_limits.specs.Laws.{DividedWordsKeepToTheLimit, SpansKeepToTheirBytes};

/// The method of a span has at most as many bytes as its words weigh, with whichever words its pieces begin.
pub fn spans_keep_to_their_bytes()
    ensures { SpansKeepToTheirBytes }
{}

/// If words, from one of their range on, are divided into spans by their weights, the method of each span has at most as many bytes as
/// a span may have.
pub fn divided_words_keep_to_the_limit()
    ensures { DividedWordsKeepToTheLimit }
{}
