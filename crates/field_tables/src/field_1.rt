// The tables of field 1.
pub mod factorials;
pub mod inverse_factorials;
pub mod inverses;
