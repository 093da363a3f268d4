// The records of doubted places and of errors, from their positions.
ghost use Rattle.std.specs.Prelude.{◌≡◌, ℕ, ◌<◌, ◌≤◌, map, length};
ghost use Rattle.algebra.specs.Decode.{root_position};
ghost use Rattle.algebra.specs.Field.{HasOrder};
ghost use Rattle.algebra.specs.Rows.{positions};
ghost use Rattle.correction.specs.Steps.Changes.{HasChangeAt};
ghost use Rattle.correction.specs.Steps.Listing.{Adds, Lists, IsOnRow};
ghost use Rattle.lists.specs.Roots.{roots as root_indices};

use crate::forney::Forney;
use crate::pattern::Pattern;
use book::Record;
use fields::powers::multiplicative_order;
use fields::{ExtensionField, Field};
use lists::find_nonzero_distinct_roots;

// The record of a place more, none where its change cannot be had or where there is no room for it.
fn list_place<E: ExtensionField>(
    forney: &Forney<E>,
    place: usize,
    position: usize,
    pattern: &mut Pattern,
) -> Option<()>
    ensures { (y : ℕ) → HasChangeAt forney.now position y → Adds record { place = place; change = y } pattern.old result pattern.new }
{
    let change = forney.change_at(position)?;
    pattern.push(Record { place, change })
}

// The records of the places that are marked, ascending.
pub(crate) fn list_erasures<E: ExtensionField>(
    forney: &Forney<E>,
    marks: &[bool],
    pattern: &mut Pattern,
) -> Option<()>
    ensures { Lists (HasChangeAt forney.now) (length marks.now) (positions marks.now) pattern.old result pattern.new }
{
    for (place, marked) in marks.iter().enumerate() {
        if *marked {
            list_place(forney, place, marks.len() - 1 - place, pattern)?;
        }
    }
    Some(())
}

// The position that a root's index stands for, the order of the base being given.
fn position_of(index: usize, order: usize) -> usize
    ensures { result ≡ root_position order index }
{
    if index == 0 {
        0
    } else {
        order.saturating_sub(index)
    }
}

// The records of the places at whose positions the error locator has roots, in the order in which the roots are found.
pub(crate) fn list_errors<E: ExtensionField>(
    forney: &Forney<E>,
    locator: &[E],
    len: usize,
    pattern: &mut Pattern,
) -> Option<()>
    requires { 0 < length locator.now }
    ensures { (ord : ℕ) → HasOrder E.field forney.now.root ord → Lists (IsOnRow len (HasChangeAt forney.now)) len (map (root_position ord) (root_indices E.field locator.now forney.now.root ord)) pattern.old result pattern.new }
{
    let order = multiplicative_order(forney.root).unwrap();
    let mut roots = find_nonzero_distinct_roots(forney.root).unwrap();
    while let Some(index) = roots.next(locator).unwrap() {
        let position = position_of(index, order);
        if position >= len {
            return None;
        }
        list_place(forney, len - 1 - position, position, pattern)?;
    }
    Some(())
}
