//! What holds of tables and worlds by their definitions alone.

ghost use Rattle.tables.specs.Laws.{StandForOne};

/// Tables stand for at most one world.
pub fn meaning()
    ensures { StandForOne }
{}
