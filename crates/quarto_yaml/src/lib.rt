// The interface for C: nothing but the boundary. Each exported function is a call of `parser`, `node` or `travel` with its answer in
// numbers, its contract the equation of that call. include/quarto_yaml.h says the same to a C programmer.
// Structs have the header's layout, with numbers and flags for what is an enum or an Option below, and a style comes as any number.
// Exports of one shape are written out: a C name cannot be generic, and no macro of the language writes functions.
#![tactic(auto)]

pub mod build;
pub mod child;
pub mod count;
pub mod kind;
pub mod source;
