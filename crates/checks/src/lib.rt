// Tests that are many, so that the crates they test are proved once.
#![tactic(auto)]

#[cfg(test)]
mod logs;
