#![tactic(auto)]

// Cases of what is typed and what is told.
#[cfg(test)]
mod tests;
