//! What holds of the instructions and units that words spell. Each call here does nothing: its contract is the law.

ghost use Rattle.std.specs.Prelude.{ℕ};
ghost use Rattle.run_definition.specs.Words.{IsWord};
ghost use Rattle.mips_definition.specs.Table.{inst};
ghost use Rattle.mips_decode.specs.Encoding.{word_of};
ghost use Rattle.emit_simulation_laws.specs.Knowing.{HasFields};
ghost use Rattle.emit_simulation_laws.specs.Lawful.{value_of};
ghost use Rattle.emit_simulation_laws.specs.UnitLaws.{EachUnitIsLawful, FirstFindsItsNeeds, GainsFollowEachOther, LikelySlotsAreKnown, ListedAreGained, NeededIsKnown, OthersFindTheirNeeds, SetsHaveWhatIsListed, UnitsAreLawful, UnitsReadNumbers, UnitsWriteNumbers};

use mips_decode::encoding_inverts_decoding;

/// The fields of an instruction that a word spells are of as many bits as it has for them.
pub fn words_have_fields()
    ensures fields { (word : ℕ) → IsWord word → HasFields (inst word) }
    ensures words { (word : ℕ) → IsWord word → IsWord (word_of (inst word)) }
    ensures values { (word : ℕ) → IsWord word → IsWord (value_of (inst word)) }
{
    encoding_inverts_decoding();
}

/// The units of words that have none of the floating-point coprocessor among them are lawful, and their registers are numbers of five bits.
pub fn units_are_lawful()
    ensures all { UnitsAreLawful }
    ensures each { EachUnitIsLawful }
    ensures read { UnitsReadNumbers }
    ensures written { UnitsWriteNumbers }
{
    encoding_inverts_decoding();
}

/// The set of registers of five bits has the bits of those that are listed.
pub fn is_in_is_membership()
    ensures { SetsHaveWhatIsListed }
{}

/// If registers are gained, those are known that are listed or were known before.
pub fn gained_is_membership()
    ensures either { ListedAreGained }
    ensures joined { GainsFollowEachOther }
{}

/// If the registers are known that the code of a unit needs, each that it reads is known when it reads it. If those are known that the
/// code of units needs, that holds of the first, and after it those are known that the others need.
pub fn needed_is_known()
    ensures unit { NeededIsKnown }
    ensures likely { LikelySlotsAreKnown }
    ensures first { FirstFindsItsNeeds }
    ensures others { OthersFindTheirNeeds }
{}
