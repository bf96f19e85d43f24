//! Tests of what no contract states, or of all cases that there are: of the automaton of positions, of short messages,
//! of a player, of serving over lines in memory, of logs in memory, of items in scripts, and why no match and no hall is
//! made.
#![tactic(auto)]

#[cfg(test)]
mod automata;
#[cfg(test)]
mod choosing;
#[cfg(test)]
mod items;
#[cfg(test)]
mod logs;
#[cfg(test)]
mod messages;
#[cfg(test)]
mod refusals;
#[cfg(test)]
mod serving;
#[cfg(test)]
mod tables;
