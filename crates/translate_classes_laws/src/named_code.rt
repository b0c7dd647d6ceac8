//! What holds of the names in emitted code. Each call here does nothing: its contract is the law.

ghost use Rattle.translate_classes_laws.specs.Meaning.{HelpersAreCalled, MembersAreCalled, NamedCodeIsKnown, NamesAreMeant, NumberedAreCalled};

use emit_classes::{
    arrays_are_meant, fields_are_meant, host_is_meant, methods_are_meant, strings_are_meant,
};
pub use emit_methods_laws::named_code::{
    choosers_name_well, exits_name_well, helpers_name_well, loading_names_well,
    more_fields_may_be_named, more_may_be_called, spans_name_well, units_name_well,
};

/// A class knows what code names where its slots mean what code means by them, and the code names only what is there.
pub fn named_code_is_known()
    ensures { NamedCodeIsKnown }
{}

/// The slots of what every class of a program names mean what code means by them, in a class whose pool goes on after the one that has them.
pub fn names_are_meant()
    ensures { NamesAreMeant }
{
    fields_are_meant();
    host_is_meant();
    strings_are_meant();
    arrays_are_meant();
}

/// The slots of methods mean calls of them: where each names the method of its number, as those of the members of a class do whose numbers
/// follow each other, and those of the helpers.
pub fn methods_are_called()
    ensures numbered { NumberedAreCalled }
    ensures members { MembersAreCalled }
    ensures helpers { HelpersAreCalled }
{
    methods_are_meant();
}
