//! Which words show help or the version.
ghost use Rattle.std.specs.Prelude.{◌++◌};
ghost use Rattle.args.specs.Help.{HelpComesFirst, HelpFollowsEach, VersionComesFirst};
ghost use Rattle.args.specs.Table.{other_lines, store_lines};

/// `--help` or `-h` as the first word shows help, and as the first word after the name of a command the help of that
/// command. `--version` or `-V` as the first word shows the version. The words that follow change nothing.
pub fn help_comes_first()
    ensures help { HelpComesFirst }
    ensures of_command { HelpFollowsEach (store_lines ++ other_lines) }
    ensures version { VersionComesFirst }
{}
