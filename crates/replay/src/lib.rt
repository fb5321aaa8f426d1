// A whole run of a book under the law: a list of requests carried out, and all that was answered.
#![tactic(auto)]

pub mod run;
