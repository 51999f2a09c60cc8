//! Tests of pictures: where their points lie, worked out by hand from the journals, and the form of their text.
#![tactic(auto)]

#[cfg(test)]
mod addresses;
#[cfg(test)]
mod beside;
#[cfg(test)]
mod empty;
#[cfg(test)]
mod forms;
#[cfg(test)]
mod journals;
#[cfg(test)]
mod long_run;
#[cfg(test)]
mod numbers;
#[cfg(test)]
mod settings;
#[cfg(test)]
mod texts;
#[cfg(test)]
mod worked;
