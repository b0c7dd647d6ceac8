//! What method a translated program chooses for an address. Each call here does nothing: its contract is the law.

ghost use Rattle.trampoline_laws.specs.Classes.{SpansLieInClasses, SpansRise, WordsFillClasses};
ghost use Rattle.trampoline_laws.specs.Found.{WordsAreInSpans};
ghost use Rattle.trampoline_laws.specs.Programs.{ChosenAreMethods, ClassesRise, ClassesStand, SpansAreApart, SpansAreNumbered, StraysAreMissing, WordsAreChosen};

/// The spans of a class begin at addresses that rise. There is at least one of them, and there are at most 2048.
pub fn spans_rise()
    ensures { SpansRise }
{}

/// Each word of a class lies in one of its spans, and that span's method is chosen for the word's address.
pub fn words_are_in_spans()
    ensures { WordsAreInSpans }
{}

/// The addresses of the words of a class are the multiples of 4 from its first word's address to before its end. All are below address
/// 80000000 (hexadecimal).
pub fn words_fill_classes()
    ensures { WordsFillClasses }
{}

/// Each span of a class has a word, and all its words are words of the class.
pub fn spans_lie_in_classes()
    ensures { SpansLieInClasses }
{}

/// The classes of a translated program begin at addresses that rise, and there is at least one of them.
pub fn classes_rise()
    ensures { ClassesRise }
{}

/// The methods that are chosen, among classes and among the spans of each class, are methods of the program that take no arguments.
pub fn chosen_are_methods()
    ensures { ChosenAreMethods }
{}

/// For the address of a word of a class, the method of that class is chosen among classes.
pub fn words_are_chosen()
    ensures { WordsAreChosen }
{}

/// For an address at which no code is, and for which a method is chosen among classes, that is the method for addresses outside all code.
pub fn strays_are_missing()
    ensures { StraysAreMissing }
{}

/// Methods of spans are told by their numbers from all other methods: those that choose among a class's spans, and the lower ones, which
/// are the helpers, the one that chooses among classes and the one for addresses outside all code.
pub fn spans_are_numbered()
    ensures { SpansAreNumbered }
{}

/// Each class is in the program, and its range is one of the code's.
pub fn classes_stand()
    ensures { ClassesStand }
{}

/// Spans are apart: where one of two addresses lies in a span and the other one does not, they do not lie in one span of the program.
pub fn spans_are_apart()
    ensures { SpansAreApart }
{}
