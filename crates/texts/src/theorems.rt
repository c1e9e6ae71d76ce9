// What is true of the grammar and of reading, for bytes of any length.
ghost use Rattle.texts.specs.Theorems.{OneTree, EveryTextRead, ReadOneWay};

#[tactic(auto, using(crate::proofs::Passes::one_tree, crate::proofs::Readings::reads_reading, crate::proofs::Readings::reads_once))]
pub fn grammar_stands()
    ensures one_tree { OneTree }
    ensures every_text_read { EveryTextRead }
    ensures read_one_way { ReadOneWay }
{}
