//! What the image of linked objects holds, and what is read of its file.
ghost use Rattle.std.specs.Prelude.{◌≡◌, ℕ, ◌≤◌, true, List, [], ◌∷◌, None, Some, slice_get};
ghost use Rattle.run_definition.specs.declared.order.Order.TheVariants.{Big};
ghost use Rattle.elf_definition.specs.Area.{code_ranges};
ghost use Rattle.elf_definition.specs.Check.{fails};
ghost use Rattle.elf_definition.specs.Fault.{elf_fault};
ghost use Rattle.elf_definition.specs.Header.{header_of, order_of};
ghost use Rattle.elf_definition.specs.Segments.{live};
ghost use Rattle.mips_asm_laws.specs.Reading.{contents_in, with_memory};
ghost use Rattle.obj_reader.specs.declared.relocation.Relocation.{Relocation};
ghost use Rattle.obj_reader.specs.declared.section.Section.{Section};
ghost use Rattle.obj_linker.specs.declared.site.Site.{Site};
ghost use Rattle.obj_linker.specs.Layout.{text_start};
ghost use Rattle.obj_linker.specs.Link.{IsLinked, entry_of, objects_fault};
ghost use Rattle.obj_linker_laws.specs.Held.{AreApart, HasBytes, HoldsSection, HoldsSite, IsSiteWithin, relocations_in, sections_in, sites_in, symbols_in};
ghost use Rattle.obj_linker_laws.specs.Reading.{code_words, placed_contents};

/// No two sections that are placed share an address.
pub fn sections_are_apart()
    ensures { (files : List (List ℕ)) (entry : List ℕ) → objects_fault files entry ≡ None
        → AreApart (sections_in files) }
{}

/// The image holds the bytes of each section as they are in its object, but for the words that relocations are for.
pub fn other_bytes_are_the_objects()
    ensures { (files : List (List ℕ)) (entry : List ℕ) → objects_fault files entry ≡ None
        → (i : ℕ) (s : Section) → HasBytes (sections_in files) i s → HoldsSection files i s }
{}

/// The site of each relocation lies in its section, and its word in the image.
pub fn sites_lie_in_the_image()
    ensures { (files : List (List ℕ)) (entry : List ℕ) → objects_fault files entry ≡ None
        → (j : ℕ) (r : Relocation) (site : Site) → slice_get (relocations_in files) j ≡ Some r
        → slice_get (sites_in files) j ≡ Some site → IsSiteWithin files r site }
{}

/// Each site of the image holds its relocation's value. This is what the last relocation of the word makes of the word
/// and the lower half that it found: the object's own, if no relocation before it was for them.
pub fn sites_hold_their_values()
    ensures { (files : List (List ℕ)) (entry : List ℕ) → objects_fault files entry ≡ None
        → (j : ℕ) (r : Relocation) (s : Section) (site : Site)
        → slice_get (relocations_in files) j ≡ Some r
        → slice_get (sections_in files) r.section ≡ Some s
        → slice_get (sites_in files) j ≡ Some site → HoldsSite files j r s site }
{}

/// A file of linked objects passes every check where its code has a word. If it has none, it fails no check before that one.
pub fn linked_files_pass()
    ensures passes { (files : List (List ℕ)) (entry file : List ℕ) → objects_fault files entry ≡ None
        → IsLinked files entry file → 1 ≤ code_words (sections_in files) → elf_fault file ≡ None }
    ensures no_code { (files : List (List ℕ)) (entry file : List ℕ) → objects_fault files entry ≡ None
        → IsLinked files entry file → code_words (sections_in files) ≡ 0
        → elf_fault file ≡ fails 21 true }
{}

/// A file of linked objects begins at the address that its entry's name means, and its live segments are the text and the data,
/// where there are any, as they were placed: each with its address, its flags, its length in memory and its bytes. Its numbers are big-endian.
/// Its code is the code that was placed, where that has a word.
pub fn linked_files_hold_their_programs()
    ensures entry { (files : List (List ℕ)) (entry file : List ℕ) → IsLinked files entry file
        → entry_of files (sections_in files) (symbols_in files) entry
        ≡ Some (header_of file).e_entry }
    ensures order { (files : List (List ℕ)) (entry file : List ℕ) → IsLinked files entry file
        → order_of file ≡ Big }
    ensures segments { (files : List (List ℕ)) (entry file : List ℕ) → objects_fault files entry ≡ None
        → IsLinked files entry file
        → contents_in file (live file) ≡ with_memory (placed_contents files) }
    ensures code { (files : List (List ℕ)) (entry file : List ℕ) → objects_fault files entry ≡ None
        → IsLinked files entry file → 1 ≤ code_words (sections_in files)
        → code_ranges file
        ≡ record { first = text_start; words = code_words (sections_in files) } ∷ [] }
{}
