// The lines of the program probe (scope, Checked values) as text: what a line is, and how what came of it
// is printed. What the scope leaves open of them is decided in oracle/README.md, "The probe".
//
// reading   what a line is, which is read whole, by itself
// answer    what is printed for a line
//
// Everything here is proved safe on every line and answer, a header's decimal value is proved to be below 2^32, and
// nothing more is proved: what is printed is compared with recorded runs. It uses `replay` for the digits that it
// reads, and std for the bits of floats.
#![tactic(auto)]

pub mod answer;
pub mod reading;
