//! The keywords of a go.mod file.

ghost use Rattle.std.specs.Prelude.{◌≡◌};
ghost use Rattle.gomod.specs.Keywords.{keyword_named, profile_in_force, is_module, has_block};

/// The keywords, each of which begins a directive. (Go Modules Reference, "go.mod files".)
#[derive(Clone, Copy, Debug, PartialEq, Eq)]
pub(crate) enum Keyword {
    Module,
    Go,
    Toolchain,
    Require,
    Exclude,
    Replace,
    Retract,
    Tool,
    Godebug,
    Ignore,
}

impl Keyword {
    /// Returns the keyword with this name, or `None` if there is none.
    #[tactic(auto, unfolding(crate::specs::Keywords::keyword_named))]
    pub(crate) fn named(name: &str) -> Option<Keyword>
        ensures { result ≡ keyword_named profile_in_force name.now }
    {
        match name {
            "module" => Some(Keyword::Module),
            "go" => Some(Keyword::Go),
            "require" => Some(Keyword::Require),
            "exclude" => Some(Keyword::Exclude),
            "replace" => Some(Keyword::Replace),
            "retract" => Some(Keyword::Retract),
            "toolchain" => Some(Keyword::Toolchain),
            "tool" => Some(Keyword::Tool),
            "godebug" => Some(Keyword::Godebug),
            "ignore" => Some(Keyword::Ignore),
            _ => None,
        }
    }

    pub(crate) fn is_module(self) -> bool
        ensures { result ≡ is_module self }
    {
        matches!(self, Keyword::Module)
    }

    /// Whether a directive with this keyword may be a block.
    pub(crate) fn has_block(self) -> bool
        ensures { result ≡ has_block self }
    {
        !matches!(self, Keyword::Go | Keyword::Toolchain)
    }
}
