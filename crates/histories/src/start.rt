//! The calls before a time.

use std::marker::Brand;

/// The calls of a stream before a time begins, and whether its reads may wait in it. Only proofs read both, and the
/// caller picks them.
pub trait Start {
    ghost use Rattle.std.specs.Prelude.{Bool, List};
    ghost use Rattle.histories.specs.declared.call.Call.{Call};

    /// These calls, the last of them first.
    ghost calls: { List Call };

    /// Whether reads may wait.
    ghost may_wait: { Bool };
}

impl Start for Brand {
    ghost use Rattle.std.specs.Prelude.{[], true};

    ghost calls = { [] };

    ghost may_wait = { true };
}
