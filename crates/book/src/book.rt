// A book over a table of rows, and its calls. Each does just what one step of the book's meaning does, whatever the book and the market hold.
ghost use Rattle.std.specs.Prelude.{◌≡◌, ◌<◌, ◌≤◌, min, [], length, IfSome, count_by};
ghost use Rattle.rules.specs.Bounds.{greatest_rows};
ghost use Rattle.rules.specs.Market.{Market as Table};

use crate::row::Row;
use conditions::condition::Condition;
use values::limit::Limit;

mod claiming;
mod placing;
mod telling;

// Rows past these are never used.
pub const GREATEST_ROWS: usize = 4096;

#[derive(Drop)]
pub struct Book<'a, C> {
    // the caller provides the rows, and the book needs no heap: the orders stand first, in order of placing, and what stands past
    // them is of no use
    rows: &'a mut [Row<C>],
    count: usize,
    number: u32,
    limit: Limit,
    ghost within: { count ≤ length rows.now },
}

impl<'a, C: Condition> Book<'a, C> {
    ghost use Rattle.book.specs.View.{view, setup_of, orders_of, place_of, watches_now};

    // A book without orders.
    pub fn new(rows: &'a mut [Row<C>], number: u32, limit: Limit) -> Book<'a, C>
        ensures empty { (mk : Table) → view C.Condition.meaning mk result ≡ record { market = mk; rows = [] } }
        ensures setup { setup_of result ≡ record { rows = length rows.entry.now; limit = limit.value; book = number } }
    {
        Book {
            rows,
            count: 0,
            number,
            limit,
        }
    }

    // The rows in use.
    fn orders(&self) -> &[Row<C>]
        ensures { result.now ≡ orders_of self.now }
    {
        &self.rows[..self.count]
    }

    // How many rows may be used.
    fn room(&self) -> usize
        ensures { result ≡ min (length self.now.rows.now) greatest_rows }
    {
        self.rows.len().min(GREATEST_ROWS)
    }

    // How many orders watch the share.
    fn watchers(&self, share: u8) -> usize
        ensures { result ≡ count_by (watches_now share) (orders_of self.now) }
    {
        self.orders()
            .iter()
            .filter(|row| row.watches(share))
            .count()
    }

    // Where the order of that number stands, if it is in the book.
    fn place_of(&self, number: u32) -> Option<usize>
        ensures place { result ≡ place_of number (orders_of self.now) }
        ensures within { IfSome result (λ at. at < self.now.count) }
    {
        self.orders().iter().position(|row| row.number() == number)
    }
}
