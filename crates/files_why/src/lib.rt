// The page that says why (request 2.8): for each line of `times.txt` what becomes of a caption with these times, and the reason.
#![tactic(auto)]

mod page;
mod question;
mod sentence;
mod span;

pub use page::tell;
