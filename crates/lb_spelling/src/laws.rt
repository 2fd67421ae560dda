// Laws of the definitions on texts.
ghost use Rattle.lb_spelling.specs.Laws.{OneTree, EveryText, NotBoth, OneFault};

/// A text is the text of one program at most.
pub fn one_tree()
    ensures { OneTree }
{}

/// Each text is accepted as a program or has a fault, and none does both.
pub fn every_text()
    ensures either { EveryText }
    ensures not_both { NotBoth }
{}

/// A text has one fault at most: one place and one kind.
pub fn one_fault()
    ensures { OneFault }
{}
