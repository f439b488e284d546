// The same into a lent buffer, whose first `at` bytes are the text so far; what is returned is the new text's length.

ghost use Rattle.text.specs.Text.{Appends};
ghost use Rattle.listing.specs.Listing.{name};

use sheet::Kind;

// The name of a node with operands; nothing for one that stands bare.
pub fn put_name(out: &mut [u8], at: usize, k: Kind) -> usize
    ensures { Appends (name k) out.old out.new at result }
{
    text::lent::put(out, at, crate::name(k))
}
