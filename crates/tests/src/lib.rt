// Worked examples, run by the gate. They stand in a crate of their own, so that the crates they try are proved once.
// The code of a mark stands as a number, as a caller enters it: 0 is OFF, 1 is ON and 2 is FREE.
#![tactic(auto)]

#[cfg(test)]
mod costs;
#[cfg(test)]
mod piles;
#[cfg(test)]
mod prime_lists;
#[cfg(test)]
mod tables;
#[cfg(test)]
mod vocabulary;
