//! What is asked of an office.

ghost use Rattle.std.specs.Prelude.{◌≡◌};
ghost use Rattle.ghg_office.specs.Requests.{seen};

use ghg_units::Text;

/// What is asked of an office, with texts of type `T`.
#[derive(Drop)]
pub enum Request<T> {
    /// The submission of a body under an id.
    Submit { id: T, body: T },
    /// The request for a table of a year.
    Show { table: T, year: u32 },
}

impl Request<Text> {
    /// The same request, whose texts are the bytes of these. It takes no memory.
    pub fn as_slices(&self) -> Request<&[u8]>
        ensures { seen result ≡ self.now }
    {
        match self {
            Request::Submit { id, body } => Request::Submit {
                id: id.as_slice(),
                body: body.as_slice(),
            },
            Request::Show { table, year } => Request::Show {
                table: table.as_slice(),
                year: *year,
            },
        }
    }
}
