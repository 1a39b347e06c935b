//! Laws of the tables of the older schemas, which follow from the definitions alone.

ghost use Rattle.older.specs.Laws.{MeanOne, MeanNoGroup, AnswersAsBefore};

/// Tables of an older schema stand for at most one world, and no shelf of that world is a group.
pub fn meaning()
    ensures one { MeanOne }
    ensures no_group { MeanNoGroup }
{}

/// The world of such tables answers each list of requests as the machine that knows no groups does, over the keys,
/// shelves and entries of that world. A store that is made from the tables answers alike, because it stands for that
/// world.
pub fn answers()
    ensures { AnswersAsBefore }
{}
