//! The operators of a pipe, with their registers.
ghost use Rattle.std.specs.Prelude.{◌≡◌, ◌<◌, ℕ, List, Some, None, false, if◌then◌else◌};
ghost use Rattle.sn_pipe.specs.Passing.{CanTake, gone_as, has_overflowed};
ghost use Rattle.sn_pipe.specs.Stages.{after_row, cleared, flows, is_new, is_over, overflows};

use sn_base::any_fold::AnyFold;
use sn_base::any_row::AnyRow;
use sn_base::columns::Columns;
use sn_base::fold::Or;
use sn_base::number::Number;
use sn_base::seq::Seq;
use sn_chain::chain::Chain;
use sn_chain::offer::Offer;
use sn_types::evaluate::{columns_into, map_into, passes};
use sn_types::packet::PacketRow;
use sn_types::typed_op::{TCond, TExpr, TReduce};

/// An operator, with the registers that it has. Contracts see any chain of registers as what it holds, so that stages over
/// rows of either kind are the same to them.
#[derive(Drop)]
pub enum Stage<D, C> {
    /// Passes on the rows for which all conditions hold.
    Filter(Seq<TCond>),
    /// Makes each row the row of these values.
    Map(Seq<TExpr>),
    /// Passes on a row that its registers don't hold yet. The flag says whether a row overflowed in this window.
    Distinct(D, bool),
    /// Folds the values of each key in its registers.
    Reduce(TReduce, C),
}

/// The stages of a pipe over rows of a kind.
pub type StageOf<R> = Stage<Chain<Or, R>, Chain<AnyFold, R>>;

/// What becomes of a row at a stage.
#[derive(Clone, Copy)]
pub(crate) enum Passage {
    /// It flows on as it is.
    Same,
    /// Another row flows on.
    Other,
    /// It goes no further.
    Stays,
    /// Its key overflows.
    Over,
}

fn same_if(goes: bool) -> Passage
    ensures over { has_overflowed result ≡ false }
    ensures gone { (packet other : List ℕ) → gone_as result packet other ≡ (if goes then Some packet else None) }
{
    if goes { Passage::Same } else { Passage::Stays }
}

fn first_only(answer: Offer) -> Passage
    ensures over { has_overflowed result ≡ is_over answer }
    ensures gone { (row other : List ℕ) → gone_as result row other ≡ (if is_new answer then Some row else None) }
{
    match answer {
        Offer::New => Passage::Same,
        Offer::Held => Passage::Stays,
        Offer::Over => Passage::Over,
    }
}

fn folded(answer: Offer) -> Passage
    ensures over { has_overflowed result ≡ is_over answer }
    ensures gone { (row other : List ℕ) → gone_as result row other ≡ None }
{
    match answer {
        Offer::New | Offer::Held => Passage::Stays,
        Offer::Over => Passage::Over,
    }
}

/// What becomes of a packet row of which a row is made, by what becomes of that row where it goes no further than as it is.
fn as_made(passage: Passage) -> Passage
    ensures over { has_overflowed result ≡ has_overflowed passage }
    ensures gone { (packet row : List ℕ) → gone_as result packet row ≡ gone_as passage row row }
{
    match passage {
        Passage::Same | Passage::Other => Passage::Other,
        Passage::Stays => Passage::Stays,
        Passage::Over => Passage::Over,
    }
}

impl<R: AnyRow> Stage<Chain<Or, R>, Chain<AnyFold, R>> {
    /// Takes a row that comes to it. Where another row flows on, that is `other` then.
    pub(crate) fn pass(&mut self, level: u32, row: &R, other: &mut R) -> Passage
        requires { CanTake self.old (R.columns row.now) }
        ensures over { has_overflowed result ≡ overflows self.old (R.columns row.now) }
        ensures gone { gone_as result (R.columns row.now) (R.columns other.new) ≡ flows level self.old (R.columns row.now) }
        ensures after { self.new ≡ after_row self.old (R.columns row.now) }
    {
        match self {
            Stage::Filter(conds) => same_if(passes(conds.as_slice(), level, row)),
            Stage::Map(exprs) => {
                map_into(row, exprs.as_slice(), other);
                Passage::Other
            }
            Stage::Distinct(chain, spilled) => {
                let answer = chain.offer(row, 0);
                *spilled = *spilled || answer == Offer::Over;
                first_only(answer)
            }
            Stage::Reduce(r, chain) => {
                let mut key = R::empty();
                columns_into(row, r.keys.as_slice(), &mut key);
                folded(chain.offer(&key, row.column(r.value).word()))
            }
        }
    }

    /// Takes a packet row that comes to it, as `pass` takes a row. Where another row flows on, that is `row` then. Only a
    /// distinct makes a row of the packet, since its registers hold whole rows.
    pub(crate) fn begin(
        &mut self,
        level: u32,
        packet: &PacketRow<'_, R::Number>,
        row: &mut R,
    ) -> Passage
        requires { CanTake self.old packet.now }
        ensures over { has_overflowed result ≡ overflows self.old packet.now }
        ensures gone { gone_as result packet.now (R.columns row.new) ≡ flows level self.old packet.now }
        ensures after { self.new ≡ after_row self.old packet.now }
    {
        match self {
            Stage::Filter(conds) => same_if(passes(conds.as_slice(), level, packet)),
            Stage::Map(exprs) => {
                map_into(packet, exprs.as_slice(), row);
                Passage::Other
            }
            Stage::Distinct(chain, spilled) => {
                packet.put_into(row);
                let answer = chain.offer(row, 0);
                *spilled = *spilled || answer == Offer::Over;
                as_made(first_only(answer))
            }
            Stage::Reduce(r, chain) => {
                let mut key = R::empty();
                columns_into(packet, r.keys.as_slice(), &mut key);
                folded(chain.offer(&key, packet.column(r.value).word()))
            }
        }
    }

    /// Empties its registers.
    pub(crate) fn clear(&mut self)
        ensures { self.new ≡ cleared self.old }
    {
        match self {
            Stage::Filter(_) | Stage::Map(_) => {}
            Stage::Distinct(chain, spilled) => {
                chain.clear();
                *spilled = false;
            }
            Stage::Reduce(_, chain) => chain.clear(),
        }
    }
}
