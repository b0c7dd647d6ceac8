ghost use Rattle.std.specs.Prelude.{◌≡◌, ◌≤◌, ◌^◌};
ghost use Rattle.elf_definition.specs.Start.{image_of};
ghost use Rattle.translate_program.specs.Files.{need, allow, meter_allow};

use elf_image::Image;
use nv_values::{MeterTurns, RegionWords};

/// How many words of the region the classes of an image take: two tables of all pages, an array for each mapped page, and some for the
/// texts of pages.
pub fn need(image: &Image) -> RegionWords
    ensures { result ≡ need (image_of image.now).mapped }
{
    image.laws();
    match RegionWords::new(2 * 524_290 + 1026 * image.mapped() + 64) {
        Some(words) => words,
        None => unreachable!(),
    }
}

/// How many instructions the classes of a program with so many mapped pages, at most 65,536, make at most while the program
/// makes `n` steps, at most 2^40.
pub fn allow(mapped: u32, n: u64) -> u64
    requires pages { mapped ≤ 65536 }
    requires steps { n ≤ 2 ^ 40 }
    ensures { result ≡ allow mapped n }
{
    512 * (n + 1) + 131_072 * (u64::from(mapped) + 4)
}

/// How many instructions the classes of a program with so many mapped pages, at most 65,536, make at most until they end by
/// themselves, with a meter of so many turns.
pub fn meter_allow(mapped: u32, turns: MeterTurns) -> u64
    requires { mapped ≤ 65536 }
    ensures { result ≡ meter_allow mapped turns }
{
    1024 * (u64::from(turns.get()) + 2) + 131_072 * (u64::from(mapped) + 4)
}
