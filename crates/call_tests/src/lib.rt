//! Calls that `arcv` does not make, each once, with ample memory, over two routers and their
//! repairs as they were worked out by hand; a search that drops lemmas; the disk and standard
//! output; and the commands over a store and a sink whose calls fail or fall short, each in turn.
//! They only test. They are here and not in the crates whose calls they run, so that proving them
//! safe reads those contracts and does not prove their functions again.
#![tactic(auto)]

#[cfg(test)]
mod faults;
#[cfg(test)]
mod pairs;
#[cfg(test)]
mod repairs;
#[cfg(test)]
mod searches;
#[cfg(test)]
mod stores;
