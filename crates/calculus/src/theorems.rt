// What is true of the rules of both kits, on looping runs of any length.
ghost use Rattle.calculus.specs.Laws.{RulesLaw, UnitsLaw};

pub fn rules_stand()
    ensures rules { RulesLaw }
    ensures units { UnitsLaw }
{}
