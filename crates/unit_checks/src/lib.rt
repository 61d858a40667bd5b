//! Tests of the units on examples: every refusal on each chip that can give it and what it leaves, lengths, limits, allowances and masks of
//! every size, orders that agree, and joined calls.
#![tactic(auto)]

#[cfg(test)]
mod chips_opened;
#[cfg(test)]
mod openings;
#[cfg(test)]
mod orders_made;
#[cfg(test)]
mod refusals;
#[cfg(test)]
mod words_moved;
