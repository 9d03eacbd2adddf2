// Why a schema's text is refused.
use psdl_check::CheckFault;
use psdl_syntax::SyntaxFault;

/// A fault of a text: of the language, or of a check of what it says.
#[derive(Clone, Copy, Drop)]
pub enum SchemaFault {
    Syntax(SyntaxFault),
    Check(CheckFault),
}
