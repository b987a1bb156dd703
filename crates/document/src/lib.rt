// What a document means, and its check.
#![tactic(auto)]
