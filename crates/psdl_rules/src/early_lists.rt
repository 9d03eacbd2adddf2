// Lists of keys and factories in which a fault may be the least.
ghost use Rattle.std.specs.Prelude.{◌≡◌};
ghost use Rattle.std.specs.List.{list_any};
ghost use Rattle.psdl_members.specs.Listings.{identifiers_in, identifiers_of_each};
ghost use Rattle.psdl_rules.specs.inner.Early.{is_early, list_early};

use psdl_directory::{CheckKind, Least};
use psdl_members::Listed;
use psdl_tree::Identifier;

fn any_early(least: &Least, identifiers: &[Identifier]) -> bool
    ensures { result ≡ list_any (is_early least.now) identifiers.now }
{
    for identifier in identifiers {
        if least.comes_first(CheckKind::KeyMember, identifier.place) {
            return true;
        }
    }
    false
}

fn list_early(least: &Least, listed: &Listed<'_>) -> bool
    ensures { result ≡ list_early least.now (identifiers_in listed.now) }
{
    let first = any_early(least, listed.first);
    if first {
        return true;
    }
    any_early(least, listed.others)
}

/// Whether a fault in one of these keys or factories may be the least.
pub(crate) fn any_list_early(least: &Least, lists: &[Listed<'_>]) -> bool
    ensures { result ≡ list_any (list_early least.now) (identifiers_of_each lists.now) }
{
    for listed in lists {
        if list_early(least, listed) {
            return true;
        }
    }
    false
}
