//! Conditions on fields.
ghost use Rattle.std.specs.Prelude.{◌≡◌, true, length};
ghost use Rattle.sn_lanes_narrow.specs.Marks.{asks, marks_of};

use sn_fields::field::Field;
use sn_fields::tuple::Tuple;
use sn_query_grammar::ast::Cmp;
use sn_types::evaluate::compares;

/// A condition on a field of a tuple: its number, and-ed with another one, compares so with a constant.
#[derive(Clone, Copy)]
pub struct Condition {
    pub field: Field,
    pub and: u128,
    pub cmp: Cmp,
    pub constant: u64,
}

impl Condition {
    /// Whether it is this one: the same field, compared in the same way with the same constant.
    pub fn is(&self, other: &Condition) -> bool
        ensures { result ≡ true → self.now ≡ other.now }
    {
        if self.field.number() != other.field.number() {
            return false;
        }
        if self.cmp != other.cmp {
            return false;
        }
        self.and == other.and && self.constant == other.constant
    }

    /// Whether it holds of a tuple.
    pub fn asks(&self, tuple: &Tuple) -> bool
        ensures { result ≡ asks self.now tuple.now }
    {
        compares(
            self.cmp,
            tuple.get(self.field) & self.and,
            u128::from(self.constant),
        )
    }

    /// Writes 1 for each tuple of which it holds, and 0 for the others: one tuple after another, whatever the width of the field.
    pub fn mark_each(&self, tuples: &[Tuple], out: &mut [u8])
        requires { length tuples.now ≡ length out.old }
        ensures { out.new ≡ marks_of self.now tuples.now }
    {
        for (place, tuple) in tuples.iter().enumerate() {
            out[place] = u8::from(self.asks(tuple));
        }
    }
}
