//! Which list is asked for, by its word.
ghost use Rattle.std.specs.Prelude.{◌≡◌, MatchOption};
ghost use Rattle.orders.specs.Listing as spec;

/// Which list an operator asks for.
#[derive(Clone, Copy, Debug, Drop, PartialEq, Eq)]
pub enum Listing {
    /// `key-list`: a line for each key, which does not show the key.
    Keys,
    /// `shelf-list`: a line for each shelf.
    Shelves,
}

impl Listing {
    /// Returns the word that asks for it.
    pub(crate) fn word(self) -> &'static str
        ensures { result.now ≡ spec.word_of self }
    {
        match self {
            Listing::Keys => "key-list",
            Listing::Shelves => "shelf-list",
        }
    }

    /// Returns the list that a word asks for, or None if it asks for none.
    pub(crate) fn of_word(word: &str) -> Option<Listing>
        ensures { MatchOption result (spec.IsNoWord word.now) (λ listing. word.now ≡ spec.word_of listing) }
    {
        match word {
            "key-list" => Some(Listing::Keys),
            "shelf-list" => Some(Listing::Shelves),
            _ => None,
        }
    }
}
