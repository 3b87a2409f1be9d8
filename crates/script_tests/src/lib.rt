//! Tests of public calls: tokens, trees, types, objects.
#![tactic(auto)]

#[cfg(test)]
mod code_generator;
#[cfg(test)]
mod lexer;
#[cfg(test)]
mod machine;
#[cfg(test)]
mod parser;
#[cfg(test)]
mod parser_faults;
#[cfg(test)]
mod types;
#[cfg(test)]
mod validator;
