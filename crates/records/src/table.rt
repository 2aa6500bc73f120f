// A table of rows.
use std::marker::Model;

mod moves;

// At most N rows, in the order of the events that made them, in room that is reserved once. Seen as the list of its rows.
#[derive(Drop)]
pub struct Table<R, const N: usize> {
    rows: Vec<R>,
}

impl<R, const N: usize> Model for Table<R, N> {
    ghost use Rattle.std.specs.Prelude.{List, ◌≤◌, vec_len, vec_capacity, vec_items};

    ghost Value = { List R };

    ghost view = { λ t. vec_items t.rows };

    ghost invariant = { λ t. (vec_len t.rows ≤ N) × (N ≤ vec_capacity t.rows) };
}
