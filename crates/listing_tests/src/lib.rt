// Tests of the field encoder, of the reading of listings and of the listing that is followed. They stand in a crate of
// their own, since a crate with tests is proved twice.
#![tactic(auto)]

#[cfg(test)]
mod follow;
#[cfg(test)]
mod tables;
#[cfg(test)]
mod tests;
#[cfg(test)]
mod walk;
