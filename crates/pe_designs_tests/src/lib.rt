//! Tests of what designs are made of: intents, cells and assignments, worked out by hand.
#![tactic(auto)]

#[cfg(test)]
mod assigns;
#[cfg(test)]
mod cells;
#[cfg(test)]
mod circuits;
#[cfg(test)]
mod domains;
#[cfg(test)]
mod intents;
#[cfg(test)]
mod supplies;
#[cfg(test)]
mod views;
