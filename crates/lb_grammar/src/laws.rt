// What is proved of the grammar itself. No function here computes anything.
ghost use Rattle.lb_grammar.specs.Prefixes.{PrefixLaw};
ghost use Rattle.lb_grammar.specs.Rounds.{RoundsLaw};

/// The prefixes by cases, of the whole grammar and of each of its symbols, are the prefixes of members.
pub fn prefix_law()
    ensures { PrefixLaw }
{}

/// All readings of a trace have as many whole rounds.
pub fn rounds_law()
    ensures { RoundsLaw }
{}
