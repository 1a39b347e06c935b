//! The registry commands of an operator.
use world::entry::Right;

/// A change of who has shelves and keys.
#[derive(Clone, Copy, Drop)]
pub enum RegistryCommand<'a> {
    /// `team-add NAME` or `team-add NAME GROUP`: adds a team, as a member of a group or of none.
    TeamAdd {
        name: &'a str,
        group: Option<&'a str>,
    },
    /// `group-add NAME`: adds a group.
    GroupAdd {
        name: &'a str,
    },
    /// `key-add SHELF KEY`, or `reader-add SHELF KEY`: adds a key that may publish, or one that may only read.
    KeyAdd {
        shelf: &'a str,
        key: &'a str,
        right: Right,
    },
    /// `key-revoke KEY`: revokes a key.
    KeyRevoke {
        key: &'a str,
    },
    /// `keys-revoke SHELF`: revokes all keys of a shelf.
    KeysRevoke {
        shelf: &'a str,
    },
}
