//! What the code does that chooses a method by the address at which the guest is. Each call here does nothing: its contract is the
//! law.

ghost use Rattle.trampoline_laws.specs.Coming.{ChoosersChooseOnce, ClassChoosersCall, ClassChoosersReturn, MainChoosersCall, MainChoosersStray, MeteredStraysFault, PathsMakeNoCalls, SpentStraysEnd, StraysFault, TreesChoose};
ghost use Rattle.trampoline_laws.specs.Weights.{CallsAreSpared, ChoosersWeighTheirCalls, CountsSpareChoosing};

/// The tree of comparisons calls the method of the last start that is not above the address in local variable 0, or the first one's where
/// all are, with three instructions a level; after the call it ends, with one a level. It changes nothing.
pub fn trees_choose()
    ensures { TreesChoose }
{}

/// The chooser of a class calls the method that belongs to the address in field pc, if it is one of the class's words, and is then begun
/// anew; otherwise it returns. It puts the address into local variable 0 and changes nothing else.
pub fn class_choosers_choose()
    ensures calls { ClassChoosersCall }
    ensures returns { ClassChoosersReturn }
{}

/// The chooser of the whole program calls the method that belongs to the address in field pc, or another one where that is no word's address
/// or is below all starts, and is then begun anew. It puts the address into local variable 0 and changes nothing else.
pub fn main_choosers_choose()
    ensures calls { MainChoosersCall }
    ensures strays { MainChoosersStray }
{}

/// So each round of a chooser makes one choice, and calls the chosen method once, or makes none; by the address in field pc it is one or the
/// other. Until it calls it leaves fields, arrays and operands alone.
pub fn choosers_choose_once()
    ensures { ChoosersChooseOnce }
{
    class_choosers_choose();
    main_choosers_choose();
}

/// The method for addresses outside all code ends the run in the fault of an unaligned pc or in that of a fetch, by the address in field pc. In
/// a program with a meter on which no turn is left it ends the run in the fault of a spent meter at that address.
pub fn strays_fault()
    ensures plain { StraysFault }
    ensures metered { MeteredStraysFault }
    ensures spent { SpentStraysEnd }
{}

/// Trees and choosers weigh what their calls weigh, by each weight that what only compares has none of. Each weight that is counted of the
/// classes is such a one, and that by which nothing is altered; only calls of spans count as entries.
pub fn choosers_weigh_their_calls()
    ensures weigh { ChoosersWeighTheirCalls }
    ensures no_calls { CallsAreSpared }
    ensures spared { CountsSpareChoosing }
{}

/// As long as code goes on it makes no call: a path through it weighs nothing for its calls, those that it passes over and the one where it
/// stops.
pub fn paths_make_no_calls()
    ensures { PathsMakeNoCalls }
{}
