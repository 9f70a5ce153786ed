//! What a pass has by its view, and what its steps and calls make of that. Laws alone: lemmas that the crates above cite; no function does
//! anything.
//!
//! A step tells (`arc_view`) which events came between, the word that it found, and its own event. From that: which acts a call of several steps
//! has made, where each hand, duty and claim stands after it, which strong references, deinits and vacatings stay, which entry an object keeps,
//! how many objects a thread has made, and what the inline word shows of an object that is held, or whose deinit is owed.
//!
//! The shared heap and the laws of scripts both stand on it: neither seats nor tokens are spoken of.
#![tactic(auto)]
