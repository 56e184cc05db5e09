// Tests of the results of path expressions, worked by hand.
#![tactic(auto)]

#[cfg(test)]
mod results;
