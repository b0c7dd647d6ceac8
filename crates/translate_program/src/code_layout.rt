//! Where the words of classes are.
ghost use Rattle.std.specs.Prelude.{◌≡◌, ◌+◌, ◌<◌, ◌^◌, ◌++◌, All, OnOk, map};
ghost use Rattle.translate_program.specs.Blocks.{block_of, told_of};
ghost use Rattle.translate_program.specs.Classes.{starts_at};

use crate::NoMemory;
use crate::block_info::BlockInfo;
use crate::told_blocks::ToldBlocks;
use emit_layout::MISSING;
use trampoline::Start;
use translate_classes::{Part, Piece};

/// The pieces of a class as blocks after those of others, which have so many spans, where these are told.
pub fn list_blocks(
    told: ToldBlocks,
    blocks: &mut Vec<BlockInfo>,
    before: u32,
    pieces: &[Piece],
) -> Result<(), NoMemory>
    requires low { before < 2 ^ 31 }
    requires spans { All (λ p. p.span < 2048) pieces.now }
    ensures { OnOk result (blocks.new.items ≡ blocks.old.items
        ++ told_of told (map (block_of before) pieces.now)) }
{
    match told {
        ToldBlocks::Listed => add_blocks(blocks, before, pieces),
        ToldBlocks::Omitted => Ok(()),
    }
}

fn add_blocks(blocks: &mut Vec<BlockInfo>, before: u32, pieces: &[Piece]) -> Result<(), NoMemory>
    requires low { before < 2 ^ 31 }
    requires spans { All (λ p. p.span < 2048) pieces.now }
    ensures { OnOk result (blocks.new.items ≡ blocks.old.items
        ++ map (block_of before) pieces.now) }
{
    for piece in pieces {
        blocks.push(BlockInfo {
            span: before + piece.span,
            from: piece.from,
            to: piece.to,
            first: piece.first,
            words: piece.words,
        })?;
    }
    Ok(())
}

/// Where a class begins, with the number of its method `run()V`, and where its range ends, if it has the last words of this.
pub fn add_starts(starts: &mut Vec<Start>, part: &Part, run: u32) -> Result<(), NoMemory>
    ensures { OnOk result (starts.new.items ≡ starts.old.items ++ starts_at part.now run) }
{
    starts.push(Start {
        first: part.start + 4 * part.first,
        method: run,
    })?;
    let end = part.first + part.words;
    if end as usize == part.units.len() {
        starts.push(Start {
            first: part.start + 4 * end,
            method: MISSING,
        })?;
    }
    Ok(())
}
