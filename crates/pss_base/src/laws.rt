// What the calls of a reader of lines come to.
ghost use Rattle.pss_base.specs.Order.{ComeInOrder};

/// The calls of a reader bring the lines of the bytes in their order, however these come in pieces. The function
/// does nothing: its contract is the law.
pub fn lines_come_in_order()
    ensures { ComeInOrder }
{}
