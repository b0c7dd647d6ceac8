ghost use Rattle.std.specs.Prelude.{◌≡◌, All};
ghost use Rattle.elf_definition.specs.Segments.{live};
ghost use Rattle.elf_definition.specs.File.{elf_file};
ghost use Rattle.elf_writer.specs.Limits.{IsWritable};
ghost use Rattle.elf_definition.specs.FilePlaces.{contents_place};
ghost use Rattle.elf_writer.specs.ReadBack.{HasWords, HoldsParts, part_segments};

use elf_definition::Parts;

/// The live segments of a written file are the parts that have memory, each with its place, sizes and flags, and the file
/// holds each part's bytes at its place. So `read_elf` gives these segments of each written file that it accepts.
pub fn segments_read_back(_parts: &Parts)
    requires { IsWritable _parts.now }
    ensures segments { All HasWords _parts.now.segments.items
        → live (elf_file _parts.now)
        ≡ part_segments (contents_place _parts.now.segments.items) _parts.now.segments.items }
    ensures bytes { HoldsParts (elf_file _parts.now) (contents_place _parts.now.segments.items)
        _parts.now.segments.items }
{}
