// The sentences of the order and of its tickets as types (specs/), and the theorem that has each type (proofs/). There is no code here.
// .ci/table makes the section "What is proved" of docs/VALIDATION.md from it, and docs/BELIEVE.md from what its statements rest on.
#![tactic(auto)]
