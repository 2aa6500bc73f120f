ghost use Rattle.std.specs.Prelude.{Bool};
ghost use Rattle.std.specs.Iterator.{ActsAs};
ghost use Rattle.records.specs.Rows.{Finds, at_key, by_handle};

use crate::standing::{Handled, Key, Row, Standing};

// The place of the first row that passes a test, from a given place on; none only where there is none.
pub(crate) fn place_of<R, F: FnMut(&R) -> bool>(rows: &[R], from: usize, passes: F) -> Option<usize>
    requires { (f : F) (row : _) → F.pre f row }
    ensures { (p : R → Bool) → ActsAs F.FnMut passes (λ row. p row.now) → Finds p rows.now from result }
{
    let place = rows.get(from..)?.iter().position(passes)?;
    Some(from + place)
}

// The place of the first row of a key, from a given place on; none only where there is none.
pub fn search<R: Row>(rows: &[R], from: usize, key: Key) -> Option<usize>
    ensures { Finds (at_key R.Row.numbered R.Row.stands key) rows.now from result }
{
    place_of(
        rows,
        from,
        |row| row.number() == key.number && row.standing() == key.standing,
    )
}

// The place of the record of a handle. A pending record has none.
pub fn search_handle<R: Handled>(rows: &[R], handle: u32) -> Option<usize>
    ensures { Finds (by_handle R.Handled.handled R.Row.stands handle) rows.now 0 result }
{
    place_of(
        rows,
        0,
        |row| row.standing() != Standing::Pending && row.handle() == handle,
    )
}
