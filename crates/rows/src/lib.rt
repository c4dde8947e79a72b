// Finding a thing in a row and adding it, written once for every kind of thing that can tell equality.
#![tactic(auto)]

ghost use Rattle.rows.specs.Rows.{Finds, Adds};

// Why a thing is not added: it is absent, and there is no place left.
#[derive(Clone, Copy, Debug, PartialEq, Eq)]
pub struct Full;

// The place of the first thing of `row` that equals `thing`, or none.
pub fn find<T: Eq>(row: &[T], thing: &T) -> Option<usize>
    ensures { Finds T.eq row.now thing.now result }
{
    // a `for`, since `position` takes half as much time again here
    for (i, x) in row.iter().enumerate() {
        if x == thing {
            return Some(i);
        }
    }
    None
}

// Puts `thing` after the first `used` things of `row`, unless it is among them or no place is left.
// Answers the place at which it stood already, or none where it was put. The row is lent with the
// number of its used places beside it, and not a vector, since a row is its caller's and nothing allocates.
pub fn add<T: Eq + Copy>(row: &mut [T], used: usize, thing: T) -> Result<Option<usize>, Full>
    ensures { Adds T.eq row.old row.new used thing result }
{
    let held = used.min(row.len());
    if let Some(i) = find(&row[..held], &thing) {
        return Ok(Some(i));
    }
    if used >= row.len() {
        return Err(Full);
    }
    row[used] = thing;
    Ok(None)
}
