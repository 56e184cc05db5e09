// Tests of the libraries on hand-worked examples.
#![tactic(auto)]

#[cfg(test)]
mod expressions;
#[cfg(test)]
mod files;
#[cfg(test)]
mod forms;
#[cfg(test)]
mod lists;
#[cfg(test)]
mod queries;
#[cfg(test)]
mod tables;
#[cfg(test)]
mod texts;
