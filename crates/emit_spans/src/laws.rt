//! What holds of the code of every span. Each call here does nothing: its contract is the law.
ghost use Rattle.emit_spans.specs.Laws.{NoSwitchNeedsPadding, PiecesAreOfBlocks, PiecesFollowEachOther, WordsKeepToTheirSpan, WordsStandAtTheirEntries};

/// The switch is at an offset at which it needs no padding, and there is no other.
pub fn no_switch_needs_padding()
    ensures { NoSwitchNeedsPadding }
{}

/// Before they are laid down, the codes of words go on to addresses of words of the span alone.
pub fn words_keep_to_their_span()
    ensures { WordsKeepToTheirSpan }
{}

/// The code of each word is where the switch goes for it.
pub fn words_stand_at_their_entries()
    ensures { WordsStandAtTheirEntries }
{}

/// Pieces are words of blocks.
pub fn pieces_are_of_blocks()
    ensures { PiecesAreOfBlocks }
{}

/// If the flags are those of the leaders, a leader is after each piece that does not end with its span.
pub fn pieces_follow_each_other()
    ensures { PiecesFollowEachOther }
{}
