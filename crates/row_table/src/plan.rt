//! What rows and the book hold.
ghost use Rattle.std.specs.Prelude.{◌≡◌};
ghost use Rattle.row_table.specs.Plan.{Meaning, IsLawful};

/// What the rows and the book of a shared table hold. Contracts see these types through `meaning`.
pub trait Plan {
    /// What a row holds beside its words.
    type Row: Drop + Send;

    /// What the passes take in turns.
    type Book: Drop + Send;

    /// What each pass carries for its calls.
    type Kit: Drop + Send;

    /// An entry of the book's journal.
    type Entry;

    ghost meaning: { Meaning Self.Row Self.Book Self.Entry };

    ghost lawful: { IsLawful meaning };
}

/// What a slot of the table has.
#[derive(Drop)]
pub enum Content<R: Drop, B: Drop> {
    Row(R),
    Book(B),
}

impl<R: Drop, B: Drop> Content<R, B> {
    pub(crate) fn into_row(self) -> R
        requires { (x : R) × (self ≡ Content.Row x) }
        ensures { self ≡ Content.Row result }
    {
        match self {
            Content::Row(x) => x,
            Content::Book(_) => unreachable!(),
        }
    }

    pub(crate) fn into_book(self) -> B
        requires { (b : B) × (self ≡ Content.Book b) }
        ensures { self ≡ Content.Book result }
    {
        match self {
            Content::Row(_) => unreachable!(),
            Content::Book(b) => b,
        }
    }
}
