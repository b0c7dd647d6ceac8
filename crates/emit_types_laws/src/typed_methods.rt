//! What holds of methods that are typed. Each call here does nothing: its contract is the law.

ghost use Rattle.emit_types_laws.specs.Laws.{ClassChoosersAreTyped, FillsAreTyped, HelpersAreTyped, MainChoosersAreTyped, MakingIsTyped, MissingIsTyped, PuttingIsTyped, RunsAreTyped};

/// The helpers are typed, for either order of bytes.
pub fn helpers_are_typed()
    ensures { HelpersAreTyped }
{}

/// The methods that choose are typed, and so is the one for addresses outside all code.
pub fn choosers_are_typed()
    ensures main { MainChoosersAreTyped }
    ensures class { ClassChoosersAreTyped }
    ensures missing { MissingIsTyped }
{}

/// The methods that make the memory are typed, and so is the one with which the program begins.
pub fn loading_is_typed()
    ensures words { PuttingIsTyped }
    ensures pages { MakingIsTyped }
    ensures fill { FillsAreTyped }
    ensures run { RunsAreTyped }
{}
