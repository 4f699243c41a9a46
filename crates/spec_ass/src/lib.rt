// No function: ASS: columns and sections, what a line says and what is written, as definitions in specs/ and laws in proofs/, and the types that they name.
#![tactic(auto)]

pub mod ass_columns;
