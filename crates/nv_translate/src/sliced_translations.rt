//! How a translation with a meter runs in slices. The call here does nothing: its contract is the law.

ghost use Rattle.run_definition.specs.Answer.{next_answer};
ghost use Rattle.unix_definition.specs.Unix.{reply};
ghost use Rattle.class_definition.specs.Linking.{program_of};
ghost use Rattle.nv_translate.specs.Images.{OfMeteredTranslations};
ghost use Rattle.nv_translate.specs.Metered.{RunsInSlices};

use crate::translated_loading::{others_do_not_load, translations_load};
use crate::translated_methods::translations_stand;
use emit_metered_laws::laws::metered_programs_follow;
use emit_metered_laws::turn_laws::meters_are_paid_or_spent;
use emit_program_laws::images_are_pages;

/// Where its meter is spent, a host may put the fault's address into field `pc` and more turns on the meter, and enter the main class's method
/// `choose()V`: the classes go on so as the program does. What they ask and how they end in slices is what the program does in as many turns as were put
/// on the meter in all. So it is over every list of answers, and over the system.
pub fn metered_translations_run_in_slices()
    ensures answered { OfMeteredTranslations (λ source turns classes. RunsInSlices next_answer source turns (program_of classes)) }
    ensures served { OfMeteredTranslations (λ source turns classes. RunsInSlices reply source turns (program_of classes)) }
{
    images_are_pages();
    others_do_not_load();
    translations_load();
    translations_stand();
    metered_programs_follow();
    meters_are_paid_or_spent();
}
