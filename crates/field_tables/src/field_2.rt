// The tables of field 2.
pub mod factorials;
pub mod inverse_factorials;
pub mod inverses;
