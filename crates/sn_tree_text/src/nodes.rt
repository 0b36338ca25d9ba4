//! The nodes of a tree text, and all that stands around them.
ghost use Rattle.std.specs.Prelude.{◌≡◌, codes};
ghost use Rattle.sn_text_rules.specs.Rules.{kept};
ghost use Rattle.sn_text_rules.specs.Words.{keyword, ◌▸◌, any_number};
ghost use Rattle.sn_text.specs.Lexing.{left};
ghost use Rattle.sn_text.specs.Reading.{Reads, ReadsAll, Peeked};
ghost use Rattle.sn_plan_grammar.specs.TreeGrammar.{node_rule, begins, nodes_rule, tree_rule};
ghost use Rattle.sn_tree_text.specs.Counting.{GoesPast};

use crate::found::Found;
use sn_text::place::Lexer;
use sn_text::scan::scan;
use sn_text::stop::Stop;
use sn_text::words::{end, is_the_word, next_is_word, number, symbol, word};
use sn_text_rules::symbols::SEMICOLON;
use sn_tree_space::node::Node;

/// A number after a letter.
fn lettered<'a>(at: Lexer<'a>, letter: &[u8]) -> Result<(u64, Lexer<'a>), Stop<'a>>
    ensures { Reads result ((keyword letter.now ▸ any_number).read kept (left at.entry)) }
{
    let rest = word(at, letter)?;
    let (number, rest) = number(rest, 0, u64::MAX)?;
    Ok((number, rest))
}

#[tactic(auto, using(crate::proofs::Picks::node_cases))]
pub(crate) fn node<'a>(at: Lexer<'a>) -> Result<(Node, Lexer<'a>), Stop<'a>>
    ensures { Reads result (node_rule.read kept (left at.entry)) }
{
    if next_is_word(at, b"X") {
        let rest = word(at, b"X")?;
        return Ok((Node::Broken, rest));
    }
    if next_is_word(at, b"E") {
        let (bound, rest) = lettered(at, b"E")?;
        return Ok((Node::Expand(bound), rest));
    }
    if next_is_word(at, b"B") {
        let (bound, rest) = lettered(at, b"B")?;
        return Ok((Node::Bound(bound), rest));
    }
    let (cost, rest) = lettered(at, b"P")?;
    Ok((Node::Chosen(cost), rest))
}

/// Whether a node begins here.
#[tactic(auto, using(sn_text::proofs::Tokens::peeked))]
fn node_begins(at: Lexer<'_>) -> bool
    ensures { Peeked result begins (left at.entry) }
{
    let (found, _) = scan(at);
    is_the_word(found.piece, b"X")
        || is_the_word(found.piece, b"E")
        || is_the_word(found.piece, b"B")
        || is_the_word(found.piece, b"P")
}

/// The number of the nodes that stand here, and the place after them.
#[tactic(auto, unfolding(sn_plan_grammar::specs::TreeGrammar::nodes_rule))]
fn past_nodes<'a>(at: Lexer<'a>) -> Result<(u64, Lexer<'a>), Stop<'a>>
    ensures { GoesPast (left at.entry) result (nodes_rule.read kept (left at.entry)) }
{
    let mut count = 0;
    let mut place = at;
    'nodes: loop {
        if !node_begins(place) {
            return Ok((count, place));
        }
        let (_, after) = node(place)?;
        count += 1;
        place = after;
    }
}

/// The cost and the tree, and nothing after them.
#[tactic(auto, unfolding(sn_plan_grammar::specs::TreeGrammar::tree_rule))]
pub(crate) fn read<'a>(at: Lexer<'a>) -> Result<Found<'a>, Stop<'a>>
    ensures { ReadsAll result (tree_rule.read kept (left at.entry)) }
{
    let rest = word(at, b"cost")?;
    let (cost, rest) = number(rest, 0, u64::MAX)?;
    let rest = symbol(rest, SEMICOLON)?;
    let first = word(rest, b"tree")?;
    let (count, rest) = past_nodes(first)?;
    let rest = word(rest, b"done")?;
    end(rest)?;
    Ok(Found { cost, count, first })
}
