//! What holds of all answers. The call here does nothing: its contract is the law.
ghost use Rattle.std.specs.Prelude.{◌≡◌, ◌≢◌, ◌≤◌, List, All};
ghost use Rattle.class_definition.specs.declared.class.Class.{Class};
ghost use Rattle.class_definition.specs.declared.framed_class.FramedClass.{FramedClass};
ghost use Rattle.frame_maps.specs.declared.frame_error.FrameError.{FrameError};
ghost use Rattle.frame_maps.specs.declared.frame_error.FrameError.TheVariants.{NoMemory};
ghost use Rattle.stackmap_maker.specs.Refusals.{AreWithTables, IsFramesRefusal};
ghost use Rattle.stackmap_maker.specs.Sizes.{file_size, most};

/// The classes determine their answer: the classes with tables, to the byte, or why there are none, but for want of memory.
pub fn frames_are_determined()
    ensures made { (classes : List Class) (first second : List FramedClass)
        → AreWithTables classes first → AreWithTables classes second → first ≡ second }
    ensures refused { (classes : List Class) (first second : FrameError)
        → IsFramesRefusal classes first → IsFramesRefusal classes second
        → first ≢ NoMemory → second ≢ NoMemory → first ≡ second }
    ensures either { (classes : List Class) (framed : List FramedClass) (error : FrameError)
        → AreWithTables classes framed → All (λ f. file_size f ≤ most) framed
        → IsFramesRefusal classes error → error ≡ NoMemory }
{}
