//! Tests of functions whose contracts require facts about their arguments, such as updates of live sets and layouts, or propagation by watches. They are a
//! crate of their own so that no other crate is proved a second time for them.
#![tactic(auto)]

#[cfg(test)]
mod branches;
#[cfg(test)]
mod layouts;
#[cfg(test)]
mod live_items;
#[cfg(test)]
mod places;
#[cfg(test)]
mod propagation;
#[cfg(test)]
mod reaching;
#[cfg(test)]
mod windows;
