//! Lists with commas.

ghost use Rattle.std.specs.Prelude.{map};
ghost use Rattle.jt_grammar.specs.Reader as spec;
ghost use Rattle.jt_grammar.specs.Reader.{Parser};
ghost use Rattle.jt_syntax.specs.Tree as tree;
ghost use Rattle.jt_syntax.specs.Tree.{Tree};
ghost use Rattle.jt_cursor.specs.Commas.{ParsesBy, trees_view};
ghost use Rattle.jt_cursor.specs.Parses.{Parses};

use crate::cursor::Cursor;
use crate::failure::Failure;
use jt_syntax::Sign;
use sqlite_items::Items;
use std::alloc::Global;

/// Items that come behind those that were found, each behind a comma.
fn commas<T: Drop, I: Fn(&mut Cursor<'_>) -> Result<T, Failure>>(
    tokens: &mut Cursor<'_>,
    turns: usize,
    item: &I,
    mut found: Items<T>,
) -> Result<Items<T>, Failure>
    requires { I.IsAlwaysCallable item.now }
    ensures { (of : T → Tree) (p : Parser Tree) → ParsesBy of p (I.post item.now) → Parses (trees_view of) (spec.commas_from p tree.no_trees tree.tree turns (map of found) tokens.old) result tokens.new }
{
    for _turn in 0..turns {
        if !tokens.sees(Sign::Comma) {
            return Ok(found);
        }
        tokens.skip()?;
        found.push(item(tokens)?)?;
    }
    Err(Failure::Spent)
}

/// Items with commas between, up to a closing parenthesis.
pub fn comma_list<T: Drop, I: Fn(&mut Cursor<'_>) -> Result<T, Failure>>(
    alloc: Global,
    tokens: &mut Cursor<'_>,
    turns: usize,
    item: &I,
) -> Result<Items<T>, Failure>
    requires { I.IsAlwaysCallable item.now }
    ensures { (of : T → Tree) (p : Parser Tree) → ParsesBy of p (I.post item.now) → Parses (trees_view of) (spec.comma_list turns p tree.no_trees tree.tree tokens.old) result tokens.new }
{
    let mut found = Items::new(alloc);
    if tokens.sees(Sign::Close) {
        return Ok(found);
    }
    found.push(item(tokens)?)?;
    commas(tokens, turns, item, found)
}
