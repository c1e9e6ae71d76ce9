// Worked examples: a list that is proved, and tables that are run.
#![tactic(auto)]

ghost use Rattle.samples.specs.Marked.{MarkedSamples};

#[cfg(test)]
mod evidence_tests;
#[cfg(test)]
mod kit_tests;
#[cfg(test)]
mod tests;

// The marked samples hold of the definitions.
pub fn samples_stand()
    ensures { MarkedSamples }
{}
