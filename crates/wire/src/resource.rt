//! What a message asks for.
use modpath::ModulePath;
use modver::Version;
use text::Text;

/// What the target of a GET names. `engine` makes a query of it, which the machine answers; for a go.sum line it asks
/// for the go.mod.
#[derive(Drop)]
pub enum Resource {
    /// A version with its time.
    Info { path: ModulePath, version: Version },
    /// The go.mod of a version.
    GoMod { path: ModulePath, version: Version },
    /// The zip of a version.
    Zip { path: ModulePath, version: Version },
    /// The versions of a path.
    List { path: ModulePath },
    /// The latest version of a path.
    Latest { path: ModulePath },
    /// The paths.
    Modules,
    /// The go.sum line of a version.
    GoSum { path: ModulePath, version: Version },
}

/// What a message asks for.
#[derive(Drop)]
pub enum Target {
    /// Anything but a GET or a PUT that the server knows.
    Unreadable,
    /// A GET with a key, which is text without a slash, and what it asks for.
    Get {
        key: Text,
        resource: Resource,
    },
    /// A PUT with a key: the publish of a version.
    Put {
        key: Text,
        path: ModulePath,
        version: Version,
    },
}
