//! Laws of reading: each text has tokens or a fault, reading looks at words alone, and for whatever texts a
//! call is given there is a world that they stand for.
#![tactic(auto)]

pub mod law;
