// Openings of certificates and questions, worked out by hand: tests alone.
#![tactic(auto)]

#[cfg(test)]
mod lists;
#[cfg(test)]
mod openings;
#[cfg(test)]
mod worked;
