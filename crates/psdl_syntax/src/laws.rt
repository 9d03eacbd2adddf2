// What the definitions come to.
ghost use Rattle.psdl_syntax.specs.Syntax.{HasOneFault, HasNoTree, HasTreeOrFault};
ghost use Rattle.psdl_syntax.specs.Again.{KeepsTexts};

/// A text has at most one fault, and a text with a fault has no tree: so `parse` refuses a text exactly where it has a
/// fault, or where memory runs out. The function does nothing: its contract is the law.
pub fn a_text_has_one_fault()
    ensures one { HasOneFault }
    ensures no_tree { HasNoTree }
{}

/// Each text has a tree or a fault, and by `a_text_has_one_fault` not both. The function does nothing: its contract is
/// the law.
pub fn a_text_has_a_tree_or_a_fault()
    ensures { HasTreeOrFault }
{}

/// Where a text has a tree, the canonical text of the tree is read as the same tree again, but for places, if it is no
/// longer than a text may be; and this tree is printed as the same text. So `parse` gives it (`only`), unless memory
/// runs out. The function does nothing: its contract is the law.
pub fn a_printed_text_is_read_again()
    ensures { KeepsTexts }
{}
