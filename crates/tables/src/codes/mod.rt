// The codes by which a table document names all that a test or an action is made of, and back. Nothing else converts.
ghost use Rattle.tables.specs.Inverse.{CodesAreInverse};

pub mod cases;
pub mod lines;
pub mod numbers;
pub mod places;
pub mod tags;
pub mod unknown;

/// Codes and what they stand for are inverse both ways.
pub fn codes_are_inverse()
    ensures { CodesAreInverse }
{}
