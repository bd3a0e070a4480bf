//! Tests of values, limits, causes, devices, the request that a value makes, the encoder, the lines
//! of values of which the first bytes of each text are kept, and the lifetimes of the parts that a
//! scanner returns. They use public calls and test what rows cannot express. They are in a crate of
//! their own, which keeps the libraries from being proved twice.
#![tactic(auto)]

#[cfg(test)]
mod tests;
