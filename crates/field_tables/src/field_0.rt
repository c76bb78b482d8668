// The tables of field 0.
pub mod factorials;
pub mod inverse_factorials;
pub mod inverses;
