// What the definitions come to.
ghost use Rattle.psdl_lineage.specs.Conformance.{ConformingIsDescent};

/// A type or home conforms to another exactly where steps from a definition to one that it names as a base or
/// implements lead there: none, one or several. This holds in each text, whatever is wrong in it. The function does
/// nothing: its contract is the law.
pub fn conforming_is_descent()
    ensures { ConformingIsDescent }
{}
