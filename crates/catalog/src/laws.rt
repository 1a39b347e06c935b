//! Laws of the lines. The functions do nothing when they run: their contracts are the laws.
ghost use Rattle.catalog.specs.Laws.{CatalogsAreJsonLines, LinesAreJson};

/// The line of each version that a shelf sees of a world is a JSON object with the names of its members in order, and
/// an end of line. (RFC 8259.)
pub fn lines_are_json()
    ensures { LinesAreJson }
{}

/// A whole catalog of a world is such lines, one after another.
pub fn catalogs_are_json_lines()
    ensures { CatalogsAreJsonLines }
{}
