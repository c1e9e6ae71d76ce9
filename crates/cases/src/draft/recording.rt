// Records: a sealing, and calls after it.
ghost use Rattle.std.specs.Prelude.{◌≡◌, map, length};
ghost use Rattle.cases.specs.Calls.{answer_to, after_call, after_calls};
ghost use Rattle.cases.specs.Drafts.{sealed};
ghost use Rattle.cases.specs.Promise.{Promise};
ghost use Rattle.cases.specs.Steps.{without_steps};
ghost use Rattle.cases.specs.Views.{draft_model, stepped_model, kit_model, call_model, entry_call, entry_answer, answered};

use super::super::call::{Call, Entry, StepCall};
use super::super::faults::CallFault;
use super::{Case, Draft};
use kits::Kit;

impl<K: Kit + Drop> Case<K> {
    // Takes a call: the number that it answers, or why it is refused.
    fn take(&mut self, call: Call<'_, StepCall<'_>>) -> Result<usize, CallFault>
        ensures value { result ≡ answer_to (kit_model K.Kit.knows K.Kit.allows self.old.kit) (stepped_model self.old) (call_model call.entry) }
        ensures after { stepped_model self.new ≡ after_call (kit_model K.Kit.knows K.Kit.allows self.old.kit) (stepped_model self.old) (call_model call.entry) }
        ensures kit { self.new.kit ≡ self.old.kit }
    {
        match call {
            Call::Form(text) => Ok(self.form(text)?.0 as usize),
            Call::Step(step) => self.step(step),
            Call::State(letters) => Ok(self.state(letters)?),
            Call::Loop(back) => Ok(self.close_loop(back)?),
            Call::Drop => Ok(self.drop_run()),
            Call::Verdict => Ok(usize::from(self.verdict())),
        }
    }
}

// Makes a whole record: seals a draft, and takes calls one after the other. Each entry gets its call's answer. The case,
// and the count of distinct root formulas.
pub fn record<K: Kit + Drop>(draft: Draft<K>, entries: &mut [Entry<'_, '_>]) -> (Case<K>, usize)
    ensures value { result.1 ≡ length (sealed (draft_model draft)).roots }
    ensures answers { entries.new ≡ answered (kit_model K.Kit.knows K.Kit.allows draft.kit) (without_steps (sealed (draft_model draft))) entries.old }
    ensures after { stepped_model result.0 ≡ after_calls (kit_model K.Kit.knows K.Kit.allows draft.kit) (without_steps (sealed (draft_model draft))) (map entry_call entries.old) }
    ensures kit { result.0.kit ≡ draft.kit }
    ensures promise { Promise (kit_model K.Kit.knows K.Kit.allows draft.kit) (sealed (draft_model draft)) (map entry_call entries.old) (map entry_answer entries.new) }
{
    let (mut case, count) = draft.seal();
    for entry in entries.iter_mut() {
        entry.answer = case.take(entry.call);
    }
    (case, count)
}
