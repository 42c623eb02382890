//! Lemmas on numbers, lists and rising lists that more than one crate needs, and that std doesn't
//! have. They cite no definition of this repository. There is no code. What stands here is added to
//! and never changed.
#![tactic(auto)]
