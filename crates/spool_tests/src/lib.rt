// The edges of the three kinds of spool, played.

#![tactic(auto)]

#[cfg(test)]
mod edges;
#[cfg(test)]
mod joined;
#[cfg(test)]
mod lending;
#[cfg(test)]
mod places;
#[cfg(test)]
mod trays;
