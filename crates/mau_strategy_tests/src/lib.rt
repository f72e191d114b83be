//! Tests of strategies, over modules of texts.
#![tactic(auto)]

#[cfg(test)]
mod calls;
#[cfg(test)]
mod ends;
#[cfg(test)]
mod forms;
#[cfg(test)]
mod modules;
#[cfg(test)]
mod places;
#[cfg(test)]
mod reading;
#[cfg(test)]
mod rows;
#[cfg(test)]
mod runnable;
#[cfg(test)]
mod running;
#[cfg(test)]
mod showing;
#[cfg(test)]
mod strategies;
