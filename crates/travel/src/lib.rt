// How far the cursor of `text` travels over a sequence of markers, told before it does. (02: (k).)
#![tactic(auto)]

pub mod travel;
