// Reads a buffer full, or as far as the input goes.
#![tactic(auto)]

ghost use Rattle.std.specs.Prelude.{◌≡◌, ℕ, ◌<◌, ◌≤◌, IfOk, OnOk, OnErr, length, take};
ghost use Rattle.std.specs.Io.{ReadsAtMost};
ghost use Rattle.std.specs.Io.KnownBytes.{Consumes, IsAtEnd, Appends};

use std::io;

// Reads until `buf` is full or the input ends, and answers how many bytes it put at the start of `buf`: fewer than `buf` holds only where
// no more came. On an empty `buf` it reads nothing. The first read that fails ends it: what came before stands at the start of `buf`, but
// how much that is isn't told. No method of std's says how much came: read_exact tells nothing after a short input, read_to_end needs the heap.
pub fn read_full<R: io::Read>(from: &mut R, buf: &mut [u8]) -> io::Result<usize>
    ensures len { length buf.new ≡ length buf.old }
    ensures bound { ReadsAtMost result buf.new }
    ensures bytes { IfOk result (λ n. Consumes (R.remaining from.old) (R.remaining from.new) (take n buf.new)) }
    ensures short { IfOk result (λ n. n < length buf.new → IsAtEnd (R.remaining from.new)) }
    ensures err { OnErr result ((n : ℕ) × (n ≤ length buf.new) × Consumes (R.remaining from.old) (R.remaining from.new) (take n buf.new)) }
{
    // Bytes and not turns: a read may bring several.
    let mut done = 0;
    while done < buf.len() {
        let n = from.read(&mut buf[done..])?;
        if n == 0 {
            return Ok(done);
        }
        done += n;
    }
    Ok(done)
}

// A program that prints what `print` makes of its input: it reads as much as `input` holds, lends that and the room `text` to `print`, and
// writes as many bytes of the room as `print` answers. The slices are lent, since what sheetrun, sheetlist and sheetread promise of one may not
// change.
pub fn filter<R: io::Read, W: io::Write, F: FnOnce(&[u8], &mut [u8]) -> usize>(
    from: &mut R,
    to: &mut W,
    input: &mut [u8],
    text: &mut [u8],
    print: F,
) -> io::Result<()>
    requires callable { F.IsAlwaysCallable print }
    requires inside { (input : _) (text : _) (n : _) (after : _) → F.post print input text n after → n ≤ length after.now }
    ensures written { OnOk result ((bytes : _) × (room : _) × (n : _) × (after : _) × Consumes (R.remaining from.old) (R.remaining from.new) bytes.now × (length bytes.now < length input.old → IsAtEnd (R.remaining from.new)) × (room.now ≡ text.old) × F.post print bytes room n after × Appends (W.contents to.old) (W.contents to.new) (take n after.now)) }
{
    let n = read_full(from, input)?;
    let r = print(&input[..n], text);
    to.write_all(&text[..r])
}
