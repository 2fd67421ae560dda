// What is proved of the supplied program. No function here computes anything.
ghost use Rattle.lb_syntax.specs.Rules.{KeepsRules};
ghost use Rattle.lb_bulb.specs.Laws.{NeverGoesWrong};
ghost use Rattle.lb_bulb.specs.Supplied.{supplied};

/// The supplied program keeps the rules of the language.
pub fn keeps_rules()
    ensures rules { KeepsRules supplied }
{}

/// Under every layout that is valid for it, whatever the devices reply and however long it runs, it
/// does nothing undefined, and what it does at its devices is a prefix of a trace of the grammar of
/// the lamp.
pub fn never_goes_wrong()
    ensures never_wrong { NeverGoesWrong }
{}
