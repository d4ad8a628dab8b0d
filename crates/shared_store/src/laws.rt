// What the parts of a query are together.
ghost use Rattle.shared_store.specs.Readings.{PartsAreWhole};

/// What a cursor gave on its way to its end is what its query finds in the whole history that it began with, whatever was
/// kept or seen between. It does nothing: its clause is the law.
pub fn parts_are_whole()
    ensures whole { PartsAreWhole }
{}
