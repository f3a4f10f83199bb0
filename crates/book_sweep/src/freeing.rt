//! All rows in limbo are free again, after a table was closed.
ghost use Rattle.std.specs.Prelude.{◌≡◌, ◌↔◌, ◌<◌, ◌^◌, [], length};
ghost use Rattle.std.specs.List.{All};
ghost use Rattle.page_map.specs.History.{IsHistory};
ghost use Rattle.machine_plan.specs.Books.{RowSum};
ghost use Rattle.book_sweep.specs.Freeing.{AreOnce, AreApart, Frees, FreesLimbo};

use book::Book;
use row_layout::{FreeRows, Limbo};

/// Takes each row out of limbo, the last first, and puts it among the free rows.
fn drain(limbo: &mut Limbo, free: &mut FreeRows)
    requires few { length limbo.old.list < 2 ^ 32 }
    requires below { All (λ s. s.row < free.old.limit) limbo.old.list }
    requires apart { AreApart limbo.old.list free.old }
    ensures room { limbo.new.room ≡ limbo.old.room }
    ensures empty { limbo.new.list ≡ [] }
    ensures frees { Frees limbo.old.list free.old free.new }
{
    let count = limbo.list().len() as u32;
    for done in 0..count {
        let place = count - 1 - done;
        let sampled = limbo.list()[place as usize];
        limbo.remove(place);
        free.put(sampled.row);
    }
}

/// Puts each row of a book's limbo among its free rows. The book is one of which no pass reads a row any more, as that of a
/// closed table.
pub fn free_limbo(book: &mut Book)
    requires once { AreOnce book.old }
    ensures frees { FreesLimbo book.old book.new }
    ensures sum { RowSum book.old ↔ RowSum book.new }
    ensures legal { IsHistory book.new.limits book.new.files book.new.journal }
{
    drain(&mut book.limbo, &mut book.free_rows);
}
