//! What holds of copies by their definitions alone.
ghost use Rattle.slices.specs.Slices.{LackingNoneIsWhole};

/// A world that lacks no entry of another, and has its shelves and keys, is that world. So a walk that is done has
/// copied the world whole.
pub fn nothing_left()
    ensures { LackingNoneIsWhole }
{}
