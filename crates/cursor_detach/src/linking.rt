//! The entry that links a table.
ghost use Rattle.std.specs.Prelude.{◌≡◌, ◌<◌, true};
ghost use Rattle.std.specs.List.{Contains};
ghost use Rattle.table_place.specs.Place.{is_place};
ghost use Rattle.machine_plan.specs.HeldRows.{Row};
ghost use Rattle.cursor_detach.specs.Cutting.{above_place, above_index, IsRowAt};

use row_cells::Cells;
use table_place::Place;
use tree_lock::HeldRow;

/// An entry of a table.
#[derive(Clone, Copy)]
pub(crate) struct Linker {
    /// The table's position.
    pub place: Place,
    pub index: u32,
}

/// The entry that leads to a table.
pub(crate) fn linker_of(levels: u8, place: Place) -> Linker
    requires levels { levels < 6 }
    requires table { is_place levels place ≡ true }
    ensures place { result.place ≡ above_place levels place }
    ensures index { result.index ≡ above_index levels place }
    ensures inside { result.index < 512 }
{
    if place.level == levels {
        return Linker {
            place: Place {
                space: 0,
                level: 6,
                prefix: 0,
            },
            index: u32::from(place.space),
        };
    }
    Linker {
        place: Place {
            space: place.space,
            level: place.level + 1,
            prefix: place.prefix / 512,
        },
        index: (place.prefix % 512) as u32,
    }
}

/// Where in a list the row at a position is. A table stands close behind its parent's other tables, so the search begins at the
/// end.
pub(crate) fn row_at(rows: &[HeldRow<Cells>], place: Place) -> usize
    requires { (x : Row) × Contains rows.now x × (x.place ≡ place) }
    ensures { IsRowAt place rows.now result }
{
    let mut at = rows.len();
    while at > 0 {
        at -= 1;
        if rows[at].place == place {
            return at;
        }
    }
    unreachable!()
}
