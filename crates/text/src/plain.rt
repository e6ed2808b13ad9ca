// Bytes as they are, put at a place of a lent slice.
ghost use Rattle.std.specs.Prelude.{◌+◌, ◌≤◌, length};
ghost use Rattle.text.specs.Text.{Puts};

pub fn put(out: &mut [u8], at: usize, word: &[u8]) -> usize
    requires { at + length word.now ≤ length out.old }
    ensures { Puts word.now at result out.old out.new }
{
    let end = at + word.len();
    out[at..end].copy_from_slice(word);
    end
}
