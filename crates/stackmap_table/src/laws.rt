//! Laws of tables of frames: functions that do nothing, with contracts that hold of every table.
ghost use Rattle.std.specs.Prelude.{◌≡◌, ℕ, List, Ok, Some, map};
ghost use Rattle.class_definition.specs.Format.{whole};
ghost use Rattle.class_definition.specs.Spelling.{IsBytes, SpellsBy};
ghost use Rattle.class_definition.specs.declared.entry.Entry.{Entry};
ghost use Rattle.jvm_definition.specs.declared.kind.Kind.{Kind};
ghost use Rattle.jvm_definition.specs.declared.linked_method.LinkedMethod.{LinkedMethod};
ghost use Rattle.jvm_type_inference.specs.declared.frame.Frame.{Frame};
ghost use Rattle.stackmap_table.specs.declared.table_frame.TableFrame.{TableFrame};
ghost use Rattle.stackmap_table.specs.Meaning.{frames_of};
ghost use Rattle.stackmap_table.specs.Shortest.{AreTabled, AllWithin, IsTableOf, trimmed_frame};
ghost use Rattle.stackmap_table.specs.Tables.{frame_table, bad_table};

/// What is spelled is read back, and what is read is spelled so: a table has one spelling, and bytes spell one table.
pub fn tables_are_read_back()
    ensures back { (pool : List Entry) (bytes : List ℕ) (frames : List TableFrame)
        → SpellsBy (frame_table pool) bytes frames → whole (frame_table pool) bad_table bytes ≡ Ok frames }
    ensures taken { (pool : List Entry) (bytes : List ℕ) (frames : List TableFrame)
        → IsBytes bytes → whole (frame_table pool) bad_table bytes ≡ Ok frames
        → SpellsBy (frame_table pool) bytes frames }
{}

/// The table of the frames that are listed for a method lists these, without the local variables at their ends of which nothing is
/// known.
pub fn tables_list_frames()
    ensures { (pool : List Entry) (method : LinkedMethod) (listed : List (ℕ × Frame))
        (bytes : List ℕ) → AreTabled 0 listed → AllWithin method listed
        → IsTableOf pool method.parameters listed bytes
        → frames_of pool method bytes ≡ Some (map trimmed_frame listed) }
{}

/// Frames have one table, which knows nothing of the local variables that are left out at their ends: the forms are the shortest ones,
/// and of several slots that name a type the lowest is meant.
pub fn tables_are_determined()
    ensures { (pool : List Entry) (parameters : List Kind) (listed others : List (ℕ × Frame))
        (first second : List ℕ) → map trimmed_frame listed ≡ map trimmed_frame others
        → IsTableOf pool parameters listed first → IsTableOf pool parameters others second
        → first ≡ second }
{}
