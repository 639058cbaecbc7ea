// The user's demands as theorems over the promises of the public calls. There is no code here: `specs/` says what is demanded, and each theorem of `proofs/` stands under the sentence that it proves.
#![tactic(auto)]
