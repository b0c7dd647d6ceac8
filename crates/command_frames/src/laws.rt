//! What holds of the command `frames`. The call here does nothing: its contract is the law.
ghost use Rattle.std.specs.Prelude.{◌≡◌, Some};
ghost use Rattle.nv_outside.specs.Files.{Files};
ghost use Rattle.command_words.specs.declared.named_class.NamedClass.{NamedClass};
ghost use Rattle.command_deeds.specs.Ends.{Due};
ghost use Rattle.command_deeds.specs.World.{World};
ghost use Rattle.command_frames.specs.Frames.{IsDueOfFrames};

/// Where the shelf tells its files, these determine what `frames` is to do: the bytes of each file that it stores, and the answer.
pub fn frames_are_determined()
    ensures { (class : NamedClass) (w : World) (files : Files) (first second : Due)
        → w.shelf.told ≡ Some files → IsDueOfFrames class w first
        → IsDueOfFrames class w second → first ≡ second }
{}
