// What is told of a sheet.

ghost use Rattle.std.specs.Prelude.{◌≢◌, Some};

// How many tags on signals other than inputs are shown, and the number of the first that isn't, counted from 1.
#[derive(Clone, Copy, Debug, PartialEq, Eq)]
pub struct Shown {
    pub count: u32,
    pub missed: Option<u32>,
    ghost counted: { missed ≢ Some 0 },
}
