//! What holds of every guard. Each call here does nothing: its contract is the law.
ghost use Rattle.meter.specs.Laws.{GuardsAreSmall, GuardsStayWithin};

/// A guard has at most as many bytes as are weighed for it.
pub fn guards_are_small()
    ensures { GuardsAreSmall }
{}

/// No branch goes past the end of a guard, so that code may be after it.
pub fn guards_stay_within()
    ensures { GuardsStayWithin }
{}
