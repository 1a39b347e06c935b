//! Laws of the definitions. The function does nothing when it runs: its contract is the law.
ghost use Rattle.latest.specs.Latest.{TopIsOne};

/// Of versions that fit one path, at most one is the top, and at most one is the top of those that a
/// go.mod does not retract.
pub fn top_is_one()
    ensures { TopIsOne }
{}
